//! The places of the subscribers that lines name.

ghost use Rattle.std.specs.Prelude.{◌≡◌, ◌<◌, ◌++◌, All, AllPairs, Contains, IfOk, OnOk, length, map, slice_index, true};
ghost use Rattle.auc_named.specs.InnerNaming.{ArePlacesOf};
ghost use Rattle.auc_named.specs.Named.{ArePlain, is_plain, sub_of, subs_of};

use auc_lines::{JobPart, Line};
use auc_memory::NoMemory;
use std::alloc::Global;

/// The places of the subscribers that the plain lines of jobs name, each once, in their order.
pub(crate) fn places_of(alloc: Global, jobs: &[JobPart]) -> Result<Vec<u32>, NoMemory>
    requires { ArePlain jobs.now }
    ensures { IfOk result (λ places. ArePlacesOf (subs_of jobs.now) places.items) }
{
    let mut subs = Vec::new(alloc);
    for job in jobs {
        push_subs(&mut subs, job.as_slice())?;
    }
    each_once(subs)
}

/// Appends the subscribers of the plain lines of a job.
fn push_subs(subs: &mut Vec<u32>, job: &[Line]) -> Result<(), NoMemory>
    requires { All (λ line. is_plain line ≡ true) job.now }
    ensures { OnOk result (subs.new.items ≡ subs.old.items ++ map sub_of job.now) }
{
    for line in job {
        subs.push(sub_of(line))?;
    }
    Ok(())
}

/// The subscriber of a plain line.
fn sub_of(line: &Line) -> u32
    requires { is_plain line.now ≡ true }
    ensures { result ≡ sub_of line.now }
{
    match *line {
        Line::Draw { sub, .. } | Line::Sync { sub, .. } => sub,
        _ => unreachable!(),
    }
}

/// The places of some subscribers, each once, in their order.
fn each_once(mut subs: Vec<u32>) -> Result<Vec<u32>, NoMemory>
    ensures { IfOk result (λ places. ArePlacesOf subs.items places.items) }
{
    subs.sort()?;
    subs.dedup();
    Ok(subs)
}

/// The position of a subscriber among places that rise.
pub(crate) fn position(places: &[u32], sub: u32) -> u32
    requires rising { AllPairs ◌<◌ places.now }
    requires there { Contains places.now sub }
    ensures within { result < length places.now }
    ensures place { slice_index places.now result ≡ sub }
{
    match places.binary_search(&sub) {
        Ok(position) => position as u32,
        Err(_) => unreachable!(),
    }
}
