//! What becomes of a drawn number.

ghost use Rattle.std.specs.Prelude.{◌≡◌, ◌<◌, ◌≤◌, Contains, length, slice_index};
ghost use Rattle.auc_history.specs.declared.entry.Entry.TheVariants.{Drawn};
ghost use Rattle.auc_sqn.specs.Number.{max_seq};
ghost use Rattle.auc_draw.specs.Book.{IsOf};
ghost use Rattle.auc_draw.specs.Deeds.{entries_of, AreInOrder};
ghost use Rattle.auc_centre.specs.Kept.{subs_of};
ghost use Rattle.auc_centre.specs.InnerSteps.{Settles, Tries};

use crate::kept::RoundKeeper;
use crate::naming::Naming;
use auc_disk::Disk;
use auc_draw::{Book, Pass, Release};
use auc_vector::CentreRefusal;
use std::sync::{Mutex, Wait};

/// Releases a drawn number once it is within its subscriber's limit, or withholds it once reservations have ended. Until
/// then the keeper is asked to reserve it.
pub(crate) fn settle<L: Naming<D>, D: Disk + Drop, R: Wait>(
    rt: &R,
    pass: &mut Pass,
    book: &Book,
    keeper: &Mutex<RoundKeeper<L, D>>,
    sub: u32,
    n: u64,
) -> Result<u64, CentreRefusal>
    requires own { IsOf L.table L.tops pass.old }
    requires shared { (book.now.id ≡ L.table) × (book.now.tops ≡ L.tops) }
    requires sized { subs_of L.opening ≡ length book.now.openings }
    requires sub { sub < length book.now.openings }
    requires drawn { Contains (entries_of sub pass.old.deeds) (Drawn n) }
    requires number { n ≤ slice_index book.now.tops sub }
    requires top { slice_index book.now.tops sub ≤ max_seq }
    requires ordered { AreInOrder pass.old.deeds }
    ensures own { pass.new.id ≡ pass.old.id }
    ensures settles { Settles sub n pass.old pass.new result }
{
    for _ in rt.forever() {
        if let Some(answer) = release(pass, book, sub, n) {
            return answer;
        }
        keeper.lock(rt).reserve(book, pass, sub, n);
    }
    unreachable!()
}

/// Releases a drawn number, if it is within its subscriber's limit. Otherwise it is withheld if reservations had ended
/// before the limit was read.
fn release(pass: &mut Pass, book: &Book, sub: u32, n: u64) -> Option<Result<u64, CentreRefusal>>
    requires own { IsOf book.now.id book.now.tops pass.old }
    requires sub { sub < length book.now.openings }
    requires drawn { Contains (entries_of sub pass.old.deeds) (Drawn n) }
    requires number { n ≤ slice_index book.now.tops sub }
    ensures own { pass.new.id ≡ pass.old.id }
    ensures tries { Tries sub n pass.old pass.new result }
{
    let stopped = pass.stopped(book);
    match (pass.release(book, sub, n), stopped) {
        (Release::Released, _) => Some(Ok(n)),
        (Release::Above(_), Some(stop)) => Some(Err(CentreRefusal::Withheld(n, stop))),
        (Release::Above(_), None) => None,
    }
}
