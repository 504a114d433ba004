//! What a round over some of the subscribers says, said of all.

ghost use Rattle.std.specs.Prelude.{◌≡◌, ◌<◌, All, IfOk, length, map, reverse};
ghost use Rattle.auc_named.specs.Named.{closing_of, record_of, records_of};
ghost use Rattle.auc_record.specs.Record.{IsBelow, subscriber_of};

use auc_memory::{Items, NoMemory};
use auc_record::{Closing, JobRecord, LineRecord};
use std::alloc::Global;

/// The records of jobs.
pub(crate) fn jobs_of_all(
    alloc: Global,
    places: &[u32],
    mut jobs: Items<JobRecord>,
) -> Result<Items<JobRecord>, NoMemory>
    requires { All (All (λ line. IsBelow (length places.now) (subscriber_of line))) jobs }
    ensures { IfOk result (λ all. all ≡ records_of places.now jobs) }
{
    let mut back = Items::new(alloc);
    while let Some(job) = jobs.pop() {
        back.push(job_of_all(alloc, places, job)?)?;
    }
    reversed(alloc, back)
}

/// The records of a job.
fn job_of_all(alloc: Global, places: &[u32], mut job: JobRecord) -> Result<JobRecord, NoMemory>
    requires { All (λ line. IsBelow (length places.now) (subscriber_of line)) job }
    ensures { IfOk result (λ all. all ≡ map (record_of places.now) job) }
{
    let mut back = Items::new(alloc);
    while let Some(line) = job.pop() {
        back.push(record_of_all(places, line))?;
    }
    reversed(alloc, back)
}

/// What a line gave.
fn record_of_all(places: &[u32], line: LineRecord) -> LineRecord
    requires { IsBelow (length places.now) (subscriber_of line) }
    ensures { result ≡ record_of places.now line }
{
    match line {
        LineRecord::Number { sub, note } => LineRecord::Number {
            sub: places[sub as usize],
            note,
        },
        LineRecord::Sync { sub, note } => LineRecord::Sync {
            sub: places[sub as usize],
            note,
        },
        LineRecord::Give { sub, n, verdict } => LineRecord::Give {
            sub: places[sub as usize],
            n,
            verdict,
        },
        LineRecord::Further(further) => LineRecord::Further(further),
        LineRecord::Event(event) => LineRecord::Event(event),
    }
}

/// The items, the last one first.
fn reversed<T: Drop>(alloc: Global, mut items: Items<T>) -> Result<Items<T>, NoMemory>
    ensures { IfOk result (λ turned. turned ≡ reverse items) }
{
    let mut turned = Items::new(alloc);
    while let Some(item) = items.pop() {
        turned.push(item)?;
    }
    Ok(turned)
}

/// The closings.
pub(crate) fn closings_of_all(
    alloc: Global,
    places: &[u32],
    closings: &[Closing],
) -> Result<Items<Closing>, NoMemory>
    requires { All (λ closing. closing.sub < length places.now) closings.now }
    ensures { IfOk result (λ all. all ≡ map (closing_of places.now) closings.now) }
{
    let mut all = Items::new(alloc);
    for closing in closings {
        all.push(Closing {
            sub: places[closing.sub as usize],
            ..*closing
        })?;
    }
    Ok(all)
}
