//! Counting what the lines of a round did to each subscriber's numbers.

ghost use Rattle.std.specs.Prelude.{◌≡◌, ◌++◌, ◌∷◌, [], List, length, IfOk};
ghost use Rattle.auc_record.specs.declared.record.LineRecord.{LineRecord};
ghost use Rattle.auc_record.specs.Lines.{all_lines};
ghost use Rattle.auc_record.specs.Counts.{count_with, AreCounted};

use crate::record::{JobRecord, LineRecord};
use auc_memory::NoMemory;
use auc_vector::{NumberNote, ResyncNote};
use std::alloc::Global;

/// What some lines did to a subscriber's numbers. A count ends at the greatest machine word.
#[derive(Clone, Copy)]
pub struct Count {
    /// How many vectors were released.
    pub released: u64,
    /// How many drawn numbers were withheld.
    pub withheld: u64,
    /// How many numbers resynchronisations passed over.
    pub skipped: u64,
}

/// A count with a further line of its subscriber.
fn count_line(mut count: Count, line: &LineRecord) -> Count
    ensures { result ≡ count_with count line.now }
{
    match line.number_note() {
        Some(NumberNote::Drew(_)) => count.released = count.released.saturating_add(1),
        Some(NumberNote::Withheld(..)) => count.withheld = count.withheld.saturating_add(1),
        Some(NumberNote::Exhausted(_)) | None => {}
    }
    if let Some(ResyncNote::Moved(from, to)) = line.resync_note() {
        count.skipped = count.skipped.saturating_add(to.saturating_sub(from));
    }
    count
}

/// Counts a line for its subscriber.
fn add_line(counts: &mut [Count], line: &LineRecord)
    ensures { (before : List LineRecord) → AreCounted before counts.old
        → AreCounted (before ++ line.now ∷ []) counts.new }
{
    let Some(sub) = line.subscriber() else {
        return;
    };
    let sub = sub as usize;
    if sub < counts.len() {
        counts[sub] = count_line(counts[sub], line);
    }
}

/// Counts the lines of a job.
fn add_job(counts: &mut [Count], lines: &[LineRecord])
    ensures { (before : List LineRecord) → AreCounted before counts.old
        → AreCounted (before ++ lines.now) counts.new }
{
    for line in lines {
        add_line(counts, line);
    }
}

/// The counts of so many subscribers in the records of a round's jobs.
pub fn counts(alloc: Global, subs: usize, records: &[JobRecord]) -> Result<Vec<Count>, NoMemory>
    ensures size { IfOk result (λ counts. length counts.items ≡ subs) }
    ensures counted { IfOk result (λ counts. AreCounted (all_lines records.now) counts.items) }
{
    let none = Count {
        released: 0,
        withheld: 0,
        skipped: 0,
    };
    let mut counts = vec![in alloc; none; subs]?;
    for job in records {
        add_job(&mut counts, job.as_slice());
    }
    Ok(counts)
}
