//! The keeper of a round, as its lock keeps it.

ghost use Rattle.std.specs.Prelude.{◌≡◌, ◌<◌, ◌≤◌, Contains, length};
ghost use Rattle.auc_history.specs.declared.entry.Entry.TheVariants.{Drawn};
ghost use Rattle.auc_sqn.specs.Number.{max_seq};
ghost use Rattle.auc_draw.specs.Deeds.{entries_of};
ghost use Rattle.auc_centre.specs.Kept.{AsksFor, IsKept, subs_of};

use crate::naming::Naming;
use auc_disk::Disk;
use auc_draw::{Book, Pass};
use auc_keeper::Keeper;
use std::marker::{Model, PhantomData};

/// A round's keeper, of which all that holds since the opening is known to whoever takes it out of its lock.
#[derive(Drop)]
pub struct RoundKeeper<L: Naming<D>, D: Disk + Drop> {
    keeper: Keeper<D>,
    named: PhantomData<L>,
}

impl<L: Naming<D>, D: Disk + Drop> Model for RoundKeeper<L, D> {
    ghost use Rattle.auc_keeper.specs.Keeper.{KeeperState};
    ghost use Rattle.auc_centre.specs.Kept.{IsKept};

    ghost Value = { KeeperState D };

    ghost view = { λ k. k.keeper };

    ghost invariant = { λ k. IsKept D.seen D.may_leave D.faults D.moment D.left_since L.table L.passes L.opening k.keeper };
}

impl<L: Naming<D>, D: Disk + Drop> RoundKeeper<L, D> {
    /// Takes the keeper of the round that `L` names.
    pub fn new(keeper: Keeper<D>) -> RoundKeeper<L, D>
        requires { IsKept D.seen D.may_leave D.faults D.moment D.left_since L.table L.passes L.opening keeper }
        ensures { result ≡ keeper }
    {
        RoundKeeper {
            keeper,
            named: PhantomData,
        }
    }

    /// The keeper.
    pub fn into_keeper(self) -> Keeper<D>
        ensures same { result ≡ self }
        ensures kept { IsKept D.seen D.may_leave D.faults D.moment D.left_since L.table L.passes L.opening result }
    {
        self.keeper
    }

    /// Has the keeper reserve a number of a subscriber that a pass drew, if it is above the subscriber's limit. It looks at
    /// the subscriber's word first, since it reserves no number that it hasn't seen there.
    pub(crate) fn reserve(&mut self, book: &Book, _pass: &Pass, sub: u32, n: u64)
        requires shared { book.now.id ≡ L.table }
        requires sub { sub < length book.now.openings }
        requires sized { subs_of L.opening ≡ length book.now.openings }
        requires drawn { Contains (entries_of sub _pass.now.deeds) (Drawn n) }
        requires number { n ≤ max_seq }
        ensures asks { AsksFor sub n self.old self.new }
    {
        if self.keeper.look(book, sub) >= n {
            self.keeper.ensure(book, sub, n);
        }
    }
}
