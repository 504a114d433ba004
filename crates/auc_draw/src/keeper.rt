//! The keeper's pass.

ghost use Rattle.std.specs.Prelude.{◌≡◌, ◌⊎◌, ◌<◌, ◌≤◌, ◌+◌, length, slice_index, slice_set, Some, None};
ghost use Rattle.auc_sqn.specs.Number.{max_seq};

use crate::book::Book;
use crate::place::{stop_place, word_of};
use crate::rule::View;
use crate::step::{raise_limit, read_number, store_stop};
use atomic_table::Seat;
use auc_memory::Stop;
use std::marker::{Brand, Model};

/// The keeper's pass, from which the passes are split and into which they are joined, and which raises the limits.
/// Contracts see its book, how many passes were split from it, each limit, each number word as it was last looked at, and
/// why reservations ended.
#[derive(Drop)]
pub struct KeeperPass {
    pub(crate) seat: Seat<(), View>,
}

impl Model for KeeperPass {
    ghost use Rattle.auc_draw.specs.Values.{KeeperValue};
    ghost use Rattle.auc_draw.specs.InnerBook.{IsKeeper};

    ghost Value = { KeeperValue };

    ghost view = { λ k. record {
      id = k.seat.table_id;
      passes = k.seat.me.0.split;
      limits = k.seat.me.0.note.limits;
      seen = k.seat.me.0.note.seen;
      stop = k.seat.me.0.note.stop;
    } };

    ghost invariant = { IsKeeper };
}

impl KeeperPass {
    /// The subscriber's number word, in one atomic step. It never falls.
    pub fn look(&mut self, book: &Book, sub: u32) -> u64
        requires own { self.old.id ≡ book.now.id }
        requires sub { sub < length book.now.openings }
        ensures looked { self.new ≡ record self.old { seen = slice_set self.old.seen sub result } }
        ensures found { slice_index self.new.seen sub ≡ result }
        ensures rises { slice_index self.old.seen sub ≤ result }
    {
        read_number(&book.table.shared, &mut self.seat, sub)
    }

    /// Raises the subscriber's limit, in one atomic step.
    pub fn raise(&mut self, book: &Book, sub: u32, limit: u64)
        requires own { self.old.id ≡ book.now.id }
        requires sub { sub < length book.now.openings }
        requires running { self.old.stop ≡ None }
        requires number { limit ≤ max_seq }
        requires near { limit ≤ slice_index self.old.seen sub + 64 }
        requires step { (limit ≡ max_seq) ⊎ (slice_index self.old.limits sub + 64 ≤ limit) }
        ensures { self.new ≡ record self.old { limits = slice_set self.old.limits sub limit } }
    {
        let subs = book.key.openings.len();
        raise_limit::<Brand>(&book.table.shared, &mut self.seat, subs, sub, limit);
    }

    /// Says why reservations ended, in one atomic step. From then on no limit is raised.
    pub fn stop(&mut self, book: &Book, why: Stop)
        requires own { self.old.id ≡ book.now.id }
        requires running { self.old.stop ≡ None }
        ensures { self.new ≡ record self.old { stop = Some why } }
    {
        let place = stop_place(book.key.openings.len());
        store_stop(&book.table.shared, &mut self.seat, place, word_of(why));
    }
}
