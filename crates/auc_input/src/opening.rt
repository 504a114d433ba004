//! The journal as it is opened for a scenario's subscribers, and the words that its limits open.

ghost use Rattle.std.specs.Prelude.{◌≡◌, ◌≢◌, ◌≤◌, ◌<◌, ℕ, length, map, IfOk, IfErr, OnOk, slice_index};
ghost use Rattle.auc_memory.specs.Faults.{Rose};
ghost use Rattle.auc_journal.specs.Journal.{limits_of};
ghost use Rattle.auc_journal.specs.Opening.{LeavesFound, LeavesOpening};
ghost use Rattle.auc_journal.specs.declared.open_why.OpenWhy.TheVariants as why;
ghost use Rattle.auc_sqn.specs.Number.{max_seq};
ghost use Rattle.auc_subs.specs.Subscriber.{top_at};
ghost use Rattle.auc_world.specs.Limits.{opened};
ghost use Rattle.auc_input.specs.Opening.{IsNoJournal, Begins};

use auc_disk::Disk;
use auc_journal::{Journal, OpenRefused, OpenWhy};
use auc_memory::{Imsi, Items, NoMemory};
use auc_sqn::top;
use auc_subs::Subscribers;
use std::alloc::Global;

/// Opens the journal of a disk for some subscribers. A refusal hands the disk back.
pub fn open_journal<D: Disk + Drop>(
    alloc: Global,
    disk: D,
    subs: &Subscribers,
) -> Result<Journal<D>, OpenRefused<D>>
    ensures opened { IfOk result (Begins D.seen D.may_leave D.moment D.left_since D.faults subs.now disk) }
    ensures not_journal { IfErr result (λ refused. (place : ℕ) → refused.why ≡ why.NotJournal place
        → IsNoJournal (D.seen disk) place) }
    ensures fault { IfErr result (λ refused. refused.why ≡ why.StoreFault
        → Rose (D.faults disk) (D.faults refused.disk)) }
    ensures stands { IfErr result (λ refused. refused.why ≢ why.StoreFault
        → D.faults refused.disk ≡ D.faults disk) }
    ensures refused { IfErr result (λ refused. LeavesFound D.seen D.may_leave refused.why disk refused.disk) }
    ensures refused_moment { IfErr result (λ refused.
        LeavesOpening D.seen D.may_leave D.moment D.left_since disk refused.disk) }
{
    match identities(alloc, subs) {
        Ok(imsis) => Journal::open(alloc, disk, imsis.as_slice()),
        Err(NoMemory) => Err(OpenRefused {
            disk,
            why: OpenWhy::NoMemory,
        }),
    }
}

/// The identities of some subscribers, in their order.
fn identities(alloc: Global, subs: &Subscribers) -> Result<Items<Imsi>, NoMemory>
    ensures { IfOk result (λ imsis. imsis ≡ map (λ row. row.imsi) subs.now) }
{
    let mut imsis = Items::new(alloc);
    for sub in 0..subs.len() {
        imsis.push(subs.row(sub).imsi)?;
    }
    Ok(imsis)
}

/// The words at which the limits of a journal open its subscribers: each at its row's number or at its limit, whichever is
/// greater, but at most at its greatest number. It makes no call of the disk.
pub fn openings<D: Disk + Drop>(
    alloc: Global,
    subs: &Subscribers,
    journal: &Journal<D>,
) -> Result<Vec<u64>, NoMemory>
    requires { journal.now.imsis ≡ map (λ row. row.imsi) subs.now }
    ensures words { IfOk result (λ words. words.items ≡ opened subs.now (limits_of journal.now)) }
    ensures numbers { IfOk result (λ words. (sub : ℕ) → sub < length subs.now
        → slice_index words.items sub ≤ top_at subs.now sub) }
    ensures limits { OnOk result ((sub : ℕ) → sub < length subs.now
        → slice_index (limits_of journal.now) sub ≤ max_seq) }
{
    let mut words = Vec::new(alloc);
    for sub in 0..subs.len() {
        let row = subs.row(sub);
        words.push(row.seq.max(journal.reserved(sub)).min(top(row.bits)))?;
    }
    Ok(words)
}
