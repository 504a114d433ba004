//! The authentication centre, as the layers above call it.

ghost use Rattle.std.specs.Prelude.{◌≡◌, ◌≢◌, ◌<◌, ◌≤◌, ◌++◌, ℕ, List, [], Option};
ghost use Rattle.auc_memory.specs.declared.stop.Stop.{Stop};
ghost use Rattle.auc_history.specs.declared.entry.Entry.{Entry};
ghost use Rattle.auc_history.specs.History.{IsInOrder};
ghost use Rattle.auc_vector.specs.Centre.{AnswersNext, entries_of_next, withheld_of_next, kept_after_next, AnswersResync, entries_of_resync};

use auc_memory::Stop;
use std::sync::Wait;

/// What a resynchronisation comes to if the USIM accepts the next number. Each names the number that stood at the
/// centre, then the SEQ that the USIM reported.
#[derive(Clone, Copy, PartialEq, Eq)]
pub enum Resynced {
    /// The number was below the SEQ, and moved to it.
    Moved(u64, u64),
    /// The number stands.
    InRange(u64, u64),
}

/// Why the centre gives no number, or none that the USIM would accept.
#[derive(Clone, Copy, PartialEq, Eq)]
pub enum CentreRefusal {
    /// The subscriber has no further number: this word, no lower than its greatest number, stood there.
    Exhausted(u64),
    /// This number was drawn and isn't released, because reservations ended for this reason.
    Withheld(u64, Stop),
    /// The number that stands at the centre, and the SEQ that the USIM reported, which is too far below it. The number
    /// stays.
    Beyond(u64, u64),
}

/// An authentication centre: the numbers of its subscribers, which are counted from 0.
pub trait Centre {
    /// How many subscribers it has.
    ghost subs: { Self → ℕ };

    /// A subscriber's greatest number.
    ghost top: { Self → ℕ → ℕ };

    /// The word of a subscriber's first refused draw. Once it is kept, it stays, and the subscriber is spent.
    ghost kept: { Self → ℕ → Option ℕ };

    /// The name of the borrow that the centre holds, or 0 if it owns what it works on.
    ghost name: { Self → ℕ };

    /// The centre before some calls; a subscriber; the entries that these calls made of its history, in order; its
    /// withheld numbers, each with its cause, in order; and the centre after them.
    ghost goes: { Self → ℕ → List Entry → List (ℕ × Stop) → Self → Type 0 };

    /// Draws the subscriber's next number. It never answers Beyond.
    fn next<R: Wait>(&mut self, rt: &R, sub: u32) -> Result<u64, CentreRefusal>
        requires { sub < subs self.old }

        ensures answer { AnswersNext (top self.old sub) (kept self.old sub) result }

        // It makes the entries that the answer names, for this subscriber alone.
        ensures goes { goes self.old sub (entries_of_next (kept self.old sub) result)
            (withheld_of_next result) self.new }
        ensures others { (i : ℕ) → i ≢ sub → goes self.old i [] [] self.new }

        // The word of a refused draw is kept.
        ensures kept { kept self.new sub ≡ kept_after_next (kept self.old sub) result }
        ensures still { (i : ℕ) → i ≢ sub → kept self.new i ≡ kept self.old i }

        ensures subs { subs self.new ≡ subs self.old }
        ensures top { (i : ℕ) → top self.new i ≡ top self.old i }
        ensures name { name self.new ≡ name self.old };

    /// Resynchronises with the SEQ that a USIM reported under a right MAC-S (TS 33.102 §6.3.5), which is at most the
    /// subscriber's greatest number: the subscriber's number becomes the greater of itself and that SEQ. It never answers
    /// Exhausted or Withheld.
    fn resync<R: Wait>(&mut self, rt: &R, sub: u32, seq_ms: u64) -> Result<Resynced, CentreRefusal>
        requires sub { sub < subs self.old }
        requires number { seq_ms ≤ top self.old sub }

        ensures answer { AnswersResync (kept self.old sub) seq_ms result }

        // It makes the entries that the answer names, for this subscriber alone, and withholds nothing.
        ensures goes { goes self.old sub (entries_of_resync (kept self.old sub) result)
            [] self.new }
        ensures others { (i : ℕ) → i ≢ sub → goes self.old i [] [] self.new }

        ensures kept { (i : ℕ) → kept self.new i ≡ kept self.old i }
        ensures subs { subs self.new ≡ subs self.old }
        ensures top { (i : ℕ) → top self.new i ≡ top self.old i }
        ensures name { name self.new ≡ name self.old };

    /// No call makes no entry.
    ghost stays: { (a : Self) (i : ℕ) → goes a i [] [] a };

    /// Two stretches of calls, one after the other, are one stretch with both lists.
    ghost joins: { (a : Self) (b : Self) (c : Self) (i : ℕ)
        (es : List Entry) (fs : List Entry) (ws : List (ℕ × Stop)) (vs : List (ℕ × Stop))
        → goes a i es ws b → goes b i fs vs c → goes a i (es ++ fs) (ws ++ vs) c };

    /// In a stretch of calls each entry continues those before it, so that the covered numbers rise.
    ghost rises: { (a : Self) (b : Self) (i : ℕ) (es : List Entry) (ws : List (ℕ × Stop))
        → goes a i es ws b → IsInOrder es };
}
