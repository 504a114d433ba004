//! The bytes of a journal anew.

ghost use Rattle.std.specs.Prelude.{◌≡◌, ◌<◌, ◌≤◌, ◌+◌, ◌*◌, ◌^◌, ◌++◌, ◌↔◌, ℕ, List, Ok, IfOk, IsErrOf, OnOk, length};
ghost use Rattle.auc_journal.specs.Image.{Reading, read_image};
ghost use Rattle.auc_journal.specs.Limits.{AreLimits};
ghost use Rattle.auc_compact.specs.Compact.{IsAnew, asks_compact, compact_image, open_frame};

use crate::refusal::CompactRefusal;
use auc_journal::LimitList;
use auc_memory::{Imsi, NoMemory, Octets};
use std::alloc::Global;

// How many bytes a journal has at most.
const MOST: u64 = 1073741824;

/// Whether the words are `compact` alone.
pub fn is_compact(words: &[Octets]) -> bool
    ensures { result ≡ asks_compact words.now }
{
    match words {
        [word] => word.as_slice() == b"compact".as_slice(),
        _ => false,
    }
}

/// The bytes of a journal that has exactly these limits, each in a frame of kind 1. It is refused as too long exactly if there
/// would be more than 2^30 bytes.
pub fn compact(alloc: Global, limits: &LimitList) -> Result<Octets, CompactRefusal>
    ensures bytes { IfOk result (λ bytes. bytes ≡ compact_image limits.now.written) }
    ensures fits { OnOk result (17 + 19 * length limits.now.written ≤ 2 ^ 30) }
    ensures long { IsErrOf result CompactRefusal.TooLong ↔ (2 ^ 30 < 17 + 19 * length limits.now.written) }

    // If the limits are those of a file that is a journal, the bytes are one with the same limits.
    ensures anew { (file : List ℕ) (reading : Reading) → read_image file ≡ Ok reading
        → AreLimits limits.now.written reading.frames → IfOk result (IsAnew file limits.now.written) }
{
    if 17 + 19 * u64::from(limits.len()) > MOST {
        return Err(CompactRefusal::TooLong);
    }
    Ok(image(alloc, limits)?)
}

/// The header, a frame for each limit, and a closed gate.
fn image(alloc: Global, limits: &LimitList) -> Result<Octets, NoMemory>
    ensures { IfOk result (λ bytes. bytes ≡ compact_image limits.now.written) }
{
    let mut bytes = Octets::copied_from(alloc, b"AUC-SQN-JOURNAL1")?;
    for place in 0..limits.len() {
        let (imsi, limit) = limits.get(place);
        bytes.append(&frame(imsi, limit))?;
    }
    bytes.append(&[0])?;
    Ok(bytes)
}

/// An open gate, and the body of a frame of kind 1.
fn frame(imsi: Imsi, limit: u64) -> [u8; 19]
    ensures { result ≡ open_frame (record { imsi = imsi; limit = limit }) }
{
    let [a, b, c, d, e, f, g, h] = imsi.number().to_be_bytes();
    let [i, j, k, l, m, n, o, p] = limit.to_be_bytes();
    [
        1,
        1,
        imsi.digits(),
        a,
        b,
        c,
        d,
        e,
        f,
        g,
        h,
        i,
        j,
        k,
        l,
        m,
        n,
        o,
        p,
    ]
}
