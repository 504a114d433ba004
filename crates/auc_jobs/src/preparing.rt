//! Reservations in groups, before the workers of a round begin.

ghost use Rattle.std.specs.Prelude.{◌≡◌, ◌≤◌, ◌<◌, ◌||◌, ℕ, false, All, length, slice_index_or, IfOk};
ghost use Rattle.auc_journal.specs.Journal.{JournalState, limits_of};
ghost use Rattle.auc_keeper.specs.Keeper.{Since};
ghost use Rattle.auc_lines.specs.Part.{is_that};
ghost use Rattle.auc_sqn.specs.Number.{max_seq};
ghost use Rattle.auc_jobs.specs.InnerPreparing.{AreReservable, is_asked, job_asks, needed_by};

use auc_disk::Disk;
use auc_draw::Book;
use auc_journal::Journal;
use auc_keeper::{Keeper, Prepared};
use auc_lines::{JobPart, Line};
use auc_memory::{Items, NoMemory};
use auc_sqn::MAX_SEQ;
use std::alloc::Global;

/// The reservations that the jobs of a round need before its workers begin, in the subscribers' order: of each subscriber that
/// they ask for a number, that opens below its greatest number, and whose limit isn't above its opening. The new limit is 64
/// above the opening, and no further than the greatest number of all, also if that is above the subscriber's.
pub(crate) fn needed<D: Disk + Drop>(
    alloc: Global,
    jobs: &[JobPart],
    tops: &[u64],
    openings: &[u64],
    journal: &Journal<D>,
) -> Result<Items<(u32, u64)>, NoMemory>
    requires openings { length openings.now ≤ 65536 }
    requires tops { (length tops.now ≡ length openings.now) × All (λ top. top ≤ max_seq) tops.now }
    requires journal { length journal.now.imsis ≡ length openings.now }
    ensures { IfOk result (λ needed. needed ≡ needed_by jobs.now tops.now openings.now (limits_of journal.now)) }
{
    let marks = asked(alloc, jobs, openings.len())?;
    let mut needed = Items::new(alloc);
    for sub in 0..openings.len() {
        let opening = openings[sub];
        if marks[sub] && opening < tops[sub] && journal.reserved(sub as u32) <= opening {
            needed.push((sub as u32, (opening + 64).min(MAX_SEQ)))?;
        }
    }
    Ok(needed)
}

/// Has the keeper reserve for groups of up to 256 subscribers, in their order, unless it stops. The last group may be smaller;
/// nothing is reserved for a single subscriber.
pub(crate) fn prepare_groups<D: Disk + Drop>(
    keeper: &mut Keeper<D>,
    book: &Book,
    needed: &[(u32, u64)],
)
    requires own { keeper.old.pass.id ≡ book.now.id }
    requires sized { length keeper.old.journal.imsis ≡ length book.now.openings }
    requires needed { AreReservable (length book.now.openings) keeper.old.pass needed.now }
    ensures own { (keeper.new.pass.id ≡ keeper.old.pass.id) × (keeper.new.pass.passes ≡ keeper.old.pass.passes) }
    ensures since { (opening : JournalState D) → Since D.seen D.may_leave D.faults D.moment D.left_since opening keeper.old
        → Since D.seen D.may_leave D.faults D.moment D.left_since opening keeper.new }
{
    let mut rest = needed;
    while rest.len() >= 2 {
        let (group, more) = rest.split_at(rest.len().min(256));
        if let Prepared::Stopped(_) = keeper.prepare(book, group) {
            return;
        }
        rest = more;
    }
}

/// For each of so many subscribers, whether some jobs ask for a number of it.
fn asked(alloc: Global, jobs: &[JobPart], subs: usize) -> Result<Vec<bool>, NoMemory>
    ensures size { IfOk result (λ marks. length marks.items ≡ subs) }
    ensures each { IfOk result (λ marks. (sub : ℕ) → sub < subs
        → slice_index_or marks.items sub false ≡ is_asked jobs.now sub) }
{
    let mut marks = vec![in alloc; false; subs]?;
    for job in jobs {
        mark_job(&mut marks, job.as_slice());
    }
    Ok(marks)
}

/// Marks the subscribers of whom a job asks for a number.
fn mark_job(marks: &mut [bool], job: &[Line])
    ensures size { length marks.new ≡ length marks.old }
    ensures each { (sub : ℕ) → sub < length marks.old
        → slice_index_or marks.new sub false ≡ (slice_index_or marks.old sub false || job_asks sub job.now) }
{
    for line in job {
        mark(marks, line.asks());
    }
}

/// Marks a subscriber, if there is one and it has a mark.
fn mark(marks: &mut [bool], sub: Option<u32>)
    ensures size { length marks.new ≡ length marks.old }
    ensures each { (place : ℕ) → place < length marks.old
        → slice_index_or marks.new place false ≡ (slice_index_or marks.old place false || is_that place sub) }
{
    if let Some(sub) = sub {
        if (sub as usize) < marks.len() {
            marks[sub as usize] = true;
        }
    }
}
