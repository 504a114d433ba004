//! A worker's pass.

ghost use Rattle.std.specs.Prelude.{◌≡◌, ◌<◌, ◌≤◌, ◌++◌, Contains, length, slice_index};
ghost use Rattle.auc_history.specs.declared.entry.Entry.TheVariants.{Drawn};
ghost use Rattle.auc_sqn.specs.Number.{max_seq};
ghost use Rattle.auc_draw.specs.Book.{IsOf};
ghost use Rattle.auc_draw.specs.Deeds.{AreInOrder, entries_of, kept_stop, stop_read};
ghost use Rattle.auc_draw.specs.Pass.{Draws, Jumps, EndsAbove, ClaimsJob, Releases};

use crate::book::Book;
use crate::place::{stop_at, stop_place};
use crate::rule::View;
use crate::step::{add_one, move_up, read_limit, read_stop, take_number};
use atomic_table::Seat;
use auc_memory::Stop;
use std::marker::{Brand, Model};

/// The answer to a draw.
#[derive(Clone, Copy, PartialEq, Eq)]
pub enum Draw {
    /// This number was drawn.
    Number(u64),
    /// There is no further number: the word that was found, which is at least the subscriber's greatest number.
    Exhausted(u64),
}

/// The answer to a jump.
#[derive(Clone, Copy, PartialEq, Eq)]
pub enum Jump {
    /// The number moved up from this word.
    Moved(u64),
    /// The number stands: the word that was found.
    Stood(u64),
}

/// The answer to a release.
#[derive(Clone, Copy, PartialEq, Eq)]
pub enum Release {
    /// The number was released.
    Released,
    /// It wasn't, since it is above the limit, which is this.
    Above(u64),
}

/// One worker's seat on the shared words. Contracts see its book, the subscribers' greatest numbers, what its steps did,
/// and the number that ended its claims.
#[derive(Drop)]
pub struct Pass {
    pub(crate) seat: Seat<(), View>,
    // The mark of a subscriber's first refused draw, which is one above the word that it found, or 0.
    pub(crate) marks: Vec<u64>,
    // The number that ended the claims.
    pub(crate) ended: Option<u64>,
}

impl Model for Pass {
    ghost use Rattle.auc_draw.specs.Values.{PassValue};
    ghost use Rattle.auc_draw.specs.InnerPass.{IsPass};

    ghost Value = { PassValue };

    ghost view = { λ p. record {
      id = p.seat.table_id;
      tops = p.seat.me.0.tops;
      deeds = p.seat.me.0.own;
      ended = p.ended;
    } };

    ghost invariant = { IsPass };
}

impl Pass {
    /// Draws the subscriber's next number, in one atomic step. After a refused draw of this pass the answer is the word
    /// that was found then, and no step is made.
    pub fn draw(&mut self, book: &Book, sub: u32) -> Draw
        requires own { IsOf book.now.id book.now.tops self.old }
        requires sub { sub < length book.now.openings }
        ensures own { (self.new.id ≡ self.old.id) × (self.new.tops ≡ self.old.tops) }
        ensures draws { Draws (slice_index book.now.tops sub) sub self.old.deeds self.new.deeds result }
        ensures top { slice_index book.now.tops sub ≤ max_seq }
        ensures ended { self.new.ended ≡ self.old.ended }
        ensures ordered { AreInOrder self.new.deeds }
    {
        let shared = &book.table.shared;
        let mark = self.marks[sub as usize];
        if mark != 0 {
            return Draw::Exhausted(mark - 1);
        }
        let found = add_one(shared, &mut self.seat, sub);
        let top = book.key.tops[sub as usize];
        if found < top {
            return Draw::Number(found + 1);
        }
        self.marks[sub as usize] = found + 1;
        Draw::Exhausted(found)
    }

    /// Moves the subscriber's number up to `to` if it is lower, in one atomic step. After a refused draw of this pass the
    /// answer is the word that was found then, and no step is made.
    pub fn jump(&mut self, book: &Book, sub: u32, to: u64) -> Jump
        requires own { IsOf book.now.id book.now.tops self.old }
        requires sub { sub < length book.now.openings }
        requires number { to ≤ slice_index book.now.tops sub }
        ensures own { (self.new.id ≡ self.old.id) × (self.new.tops ≡ self.old.tops) }
        ensures jumps { Jumps (slice_index book.now.tops sub) sub to self.old.deeds self.new.deeds result }
        ensures ended { self.new.ended ≡ self.old.ended }
        ensures ordered { AreInOrder self.new.deeds }
    {
        let shared = &book.table.shared;
        let mark = self.marks[sub as usize];
        if mark != 0 {
            return Jump::Stood(mark - 1);
        }
        let found = move_up(shared, &mut self.seat, sub, to);
        if found < to {
            return Jump::Moved(found);
        }
        Jump::Stood(found)
    }

    /// Claims one of the jobs, in one atomic step, or answers that none is left. After that answer no step is made.
    pub fn claim(&mut self, book: &Book, jobs: u32) -> Option<u32>
        requires own { IsOf book.now.id book.now.tops self.old }
        requires ended { EndsAbove jobs self.old.ended }
        ensures own { (self.new.id ≡ self.old.id) × (self.new.tops ≡ self.old.tops) }
        ensures claims { ClaimsJob jobs self.old self.new result }
        ensures ordered { AreInOrder self.new.deeds }
    {
        if self.ended.is_some() {
            return None;
        }
        let shared = &book.table.shared;
        let found = take_number(shared, &mut self.seat, book.key.openings.len());
        if found < jobs as u64 {
            return Some(found as u32);
        }
        self.ended = Some(found);
        None
    }

    /// Releases a number that this pass drew, in one atomic step, if it isn't above the subscriber's limit. If it is above
    /// and the pass has read a stop, it is withheld by the same step.
    pub fn release(&mut self, book: &Book, sub: u32, n: u64) -> Release
        requires own { IsOf book.now.id book.now.tops self.old }
        requires sub { sub < length book.now.openings }
        requires drawn { Contains (entries_of sub self.old.deeds) (Drawn n) }
        requires number { n ≤ slice_index book.now.tops sub }
        ensures own { (self.new.id ≡ self.old.id) × (self.new.tops ≡ self.old.tops) }
        ensures releases { Releases sub n self.old.deeds self.new.deeds result }
        ensures ended { self.new.ended ≡ self.old.ended }
        ensures ordered { AreInOrder self.new.deeds }
    {
        let subs = book.key.openings.len();
        read_limit::<Brand>(&book.table.shared, &mut self.seat, subs, sub, n)
    }

    /// Why reservations ended, if they did, in one atomic step. Once a pass was told so, it is told the same.
    pub fn stopped(&mut self, book: &Book) -> Option<Stop>
        requires own { IsOf book.now.id book.now.tops self.old }
        ensures own { (self.new.id ≡ self.old.id) × (self.new.tops ≡ self.old.tops) }
        ensures stopped { self.new.deeds ≡ self.old.deeds ++ stop_read result }
        ensures kept { kept_stop self.new.deeds ≡ result }
        ensures ended { self.new.ended ≡ self.old.ended }
        ensures ordered { AreInOrder self.new.deeds }
    {
        let shared = &book.table.shared;
        let place = stop_place(book.key.openings.len());
        stop_at(read_stop(shared, &mut self.seat, place))
    }
}
