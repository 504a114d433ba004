//! Writes into a file's bytes, and recorded calls that are replayed.

ghost use Rattle.std.specs.Prelude.{◌≡◌, ◌≤◌, ◌+◌, ◌^◌, [], ◌∷◌, length, IfOk, OnOk, OnErr};
ghost use Rattle.auc_disk.specs.Disk.{put_over};
ghost use Rattle.auc_disk.specs.InnerReplay.{AreInRange};
ghost use Rattle.auc_disk.specs.Replay.{image_by, left_by, seen_after};

use crate::call::Call;
use auc_memory::{NoMemory, Octets};
use std::alloc::Global;
use std::collections::LinkedList;

// What a crash leaves by a choice of the calls on an image, the last of which stands first.
pub(crate) fn left_of(
    alloc: Global,
    choice: u32,
    first: &[u8],
    calls: &mut LinkedList<Call>,
) -> Result<Octets, NoMemory>
    requires { AreInRange calls.old }
    ensures { IfOk result (λ image. image ≡ image_by choice first.now first.now calls.old) }
{
    let mut seen = first.to_vec(alloc)?;
    let mut image = first.to_vec(alloc)?;
    replay_all(alloc, choice, &mut seen, &mut image, calls)?;
    Octets::copied_from(alloc, &image)
}

// Replays calls, the last first, for what a crash leaves by a choice.
fn replay_all(
    alloc: Global,
    choice: u32,
    seen: &mut Vec<u8>,
    image: &mut Vec<u8>,
    calls: &mut LinkedList<Call>,
) -> Result<(), NoMemory>
    requires { AreInRange calls.old }
    ensures { OnOk result (image.new.items ≡ image_by choice seen.old.items image.old.items calls.old) }
{
    while let Some(call) = calls.pop_back() {
        replay(alloc, choice, seen, image, call)?;
    }
    Ok(())
}

// Replays a call, for what a read gives after it and for what a crash leaves by a choice.
fn replay(
    alloc: Global,
    choice: u32,
    seen: &mut Vec<u8>,
    image: &mut Vec<u8>,
    call: Call,
) -> Result<(), NoMemory>
    requires { AreInRange (call ∷ []) }
    ensures seen { OnOk result (seen.new.items ≡ seen_after seen.old.items (call ∷ [])) }
    ensures image { OnOk result (image.new.items ≡ image_by choice seen.old.items image.old.items (call ∷ [])) }
{
    match call {
        Call::Wrote(at, bytes, done) => {
            leave(alloc, choice, image, at as usize, bytes.as_slice())?;
            if done {
                put(0, seen, at as usize, bytes.as_slice())?;
            }
        }
        Call::Synced => *image = seen.to_vec(alloc)?,
    }
    Ok(())
}

// Changes a file to what a crash leaves of a write by a choice.
fn leave(
    alloc: Global,
    choice: u32,
    file: &mut Vec<u8>,
    at: usize,
    bytes: &[u8],
) -> Result<(), NoMemory>
    requires { at + length bytes.now ≤ 2 ^ 30 }
    ensures { OnOk result (file.new.items ≡ left_by choice file.old.items at bytes.now) }
{
    match choice {
        0 => Ok(()),
        1 => put(0, file, at, bytes),
        _ => {
            let filler = (choice % 256) as u8;
            let filled = vec![in alloc; filler; bytes.len()]?;
            put(filler, file, at, &filled)
        }
    }
}

// Writes bytes into a file at a place; a gap before the place is filled with a byte. If memory runs out,
// the file stays as it was.
pub(crate) fn put(filler: u8, file: &mut Vec<u8>, at: usize, bytes: &[u8]) -> Result<(), NoMemory>
    requires { at + length bytes.now ≤ 2 ^ 30 }
    ensures put { OnOk result (file.new.items ≡ put_over filler file.old.items at bytes.now) }
    ensures kept { OnErr result (file.new.items ≡ file.old.items) }
{
    let end = at + bytes.len();
    file.resize(file.len().max(end), filler)?;
    file[at..end].copy_from_slice(bytes);
    Ok(())
}
