//! A worker's desk.

ghost use Rattle.std.specs.Prelude.{◌≡◌, ◌≤◌, Some, length};
ghost use Rattle.auc_draw.specs.Book.{IsOf};
ghost use Rattle.auc_vector.specs.Centre.{AnswersResync};
ghost use Rattle.auc_centre.specs.Kept.{subs_of};

use crate::kept::RoundKeeper;
use crate::naming::Naming;
use crate::settling::settle;
use auc_disk::Disk;
use auc_draw::{Book, Draw, Jump, Pass};
use auc_vector::{Centre, CentreRefusal, Resynced};
use std::sync::{Mutex, Wait};

// How far above the SEQ that a USIM reported the next number is accepted (TS 33.102 Annex C.2.1).
const RANGE: u64 = 1 << 28;

/// A worker's pass, the book that it is of and the round's keeper in its lock, as an authentication centre. A subscriber is
/// spent at a desk if the pass keeps a word of it, whatever other passes were answered.
#[derive(Drop)]
pub struct Desk<'a, L: Naming<D>, D: Disk + Drop> {
    /// The worker's pass, which makes the steps.
    pub pass: &'a mut Pass,
    /// The round's book.
    pub book: &'a Book,
    /// The round's keeper.
    pub keeper: &'a Mutex<RoundKeeper<L, D>>,
    /// The pass is of the named table, and has the named greatest numbers.
    pub ghost own: { IsOf L.table L.tops pass.now },
    /// So is the book, and has them.
    pub ghost shared: { (book.now.id ≡ L.table) × (book.now.tops ≡ L.tops) },
    /// The journal has an identity for each subscriber of the book.
    pub ghost sized: { subs_of L.opening ≡ length book.now.openings },
}

impl<L: Naming<D>, D: Disk + Drop> Centre for Desk<'_, L, D> {
    ghost use Rattle.std.specs.Prelude.{length, slice_index};
    ghost use Rattle.auc_centre.specs.Adds.{AddsAtDesk, kept_by};
    ghost use Rattle.auc_centre.specs.InnerAdds.{adds_nothing, adds_both};

    ghost subs = { λ d. length d.book.now.openings };

    ghost top = { λ d sub. slice_index d.book.now.tops sub };

    ghost kept = { λ d sub. kept_by d.pass.now sub };

    ghost name = { λ d. d.pass.ghost_name };

    ghost goes = { λ a i es ws b. AddsAtDesk a.pass.now i es ws b.pass.now };

    ghost stays = { λ a i. adds_nothing a.pass.now i };

    ghost joins = { λ a b c i es fs ws vs first second. adds_both a.pass.now b.pass.now c.pass.now i es fs ws vs first second };

    ghost rises = { λ a b i es ws adds. adds.ordered };

    fn next<R: Wait>(&mut self, rt: &R, sub: u32) -> Result<u64, CentreRefusal> {
        match self.pass.draw(self.book, sub) {
            Draw::Number(n) => settle(rt, self.pass, self.book, self.keeper, sub, n),
            Draw::Exhausted(word) => Err(CentreRefusal::Exhausted(word)),
        }
    }

    fn resync<R: Wait>(
        &mut self,
        _rt: &R,
        sub: u32,
        seq_ms: u64,
    ) -> Result<Resynced, CentreRefusal> {
        match self.pass.jump(self.book, sub, seq_ms) {
            Jump::Moved(from) => Ok(Resynced::Moved(from, seq_ms)),
            Jump::Stood(seen) => answer_standing(seen, seq_ms),
        }
    }
}

/// The answer to a resynchronisation if the number stands, because it is no lower than the SEQ. The SEQ is in range if
/// the next number is at most 2^28 above it (TS 33.102 Annex C.2.1).
fn answer_standing(seen: u64, seq_ms: u64) -> Result<Resynced, CentreRefusal>
    requires { seq_ms ≤ seen }
    ensures { AnswersResync (Some seen) seq_ms result }
{
    if seen - seq_ms < RANGE {
        Ok(Resynced::InRange(seen, seq_ms))
    } else {
        Err(CentreRefusal::Beyond(seen, seq_ms))
    }
}
