//! The five lines.

ghost use Rattle.std.specs.Prelude.{◌≡◌, ◌++◌, IfOk, OnOk, decimal};
ghost use Rattle.auc_load.specs.Input.{load_rows};
ghost use Rattle.auc_load.specs.Summary.{load_closings, load_text, summary_line};
ghost use Rattle.auc_load.specs.Words.{IsLoad};

use crate::digest::digest;
use crate::input::VECTORS_OF_A_JOB;
use crate::words::LoadWords;
use auc_memory::{NoMemory, Octets};
use auc_record::Closing;
use auc_subs::Subscribers;
use std::alloc::Global;
use std::thread::Threads;

/// The five lines of a load whose round closed the subscribers so: the numbers of subscribers, jobs, workers and vectors,
/// and the SHA-256 in lower-case hexadecimal digits over RAND, AUTN, XRES, CK and IK of all vectors, by subscriber and
/// number.
pub fn summary<R: Threads + Sync>(
    rt: &R,
    alloc: Global,
    load: &LoadWords,
    subs: &Subscribers,
    closings: &[Closing],
) -> Result<Octets, NoMemory>
    requires load { IsLoad load.now }
    requires subscribers { subs.now ≡ load_rows load.now }
    requires closings { closings.now ≡ load_closings load.now }
    ensures { IfOk result (λ text. text ≡ load_text load.now) }
{
    let hex = hex::encode(alloc, &digest(rt, alloc, load, subs, closings)?)?;
    let mut text = Octets::new(alloc);
    append_count(&mut text, b"subscribers", load.subscribers)?;
    append_count(&mut text, b"jobs", load.jobs)?;
    append_count(&mut text, b"workers", load.workers)?;
    append_count(&mut text, b"vectors", VECTORS_OF_A_JOB * load.jobs)?;
    append_line(&mut text, b"sha256", hex.as_bytes())?;
    Ok(text)
}

/// Appends the line of a number.
fn append_count(text: &mut Octets, word: &[u8], count: u32) -> Result<(), NoMemory>
    ensures { OnOk result (text.new ≡ text.old ++ summary_line word.now (decimal count)) }
{
    text.append(word)?;
    text.append(b" ")?;
    text.append_number(u64::from(count))?;
    text.append(b"\n")
}

/// Appends the line of a text.
fn append_line(text: &mut Octets, word: &[u8], value: &[u8]) -> Result<(), NoMemory>
    ensures { OnOk result (text.new ≡ text.old ++ summary_line word.now value.now) }
{
    text.append(word)?;
    text.append(b" ")?;
    text.append(value)?;
    text.append(b"\n")
}
