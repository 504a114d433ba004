//! Asking a centre, with notes of what it answers.

ghost use Rattle.std.specs.Prelude.{◌≡◌, ◌≢◌, ◌<◌, ◌≤◌, ℕ, []};
ghost use Rattle.auc_vector.specs.Centre.{kept_after_next};
ghost use Rattle.auc_vector.specs.Notes.{AnswersNote, AnswersReport, answer_noted, entries_noted, entries_resynced, withheld_noted};

use crate::centre::{Centre, CentreRefusal, Resynced};
use crate::notes::{NumberNote, ResyncNote};
use std::sync::Wait;

/// Asks a centre for the subscriber's next number, and notes its answer.
pub fn ask<C: Centre, R: Wait>(rt: &R, centre: &mut C, sub: u32) -> NumberNote
    requires { sub < C.subs centre.old }

    ensures answer { AnswersNote (C.top centre.old sub) (C.kept centre.old sub) result }

    // The centre makes the entries that the note names, for this subscriber alone.
    ensures goes { C.goes centre.old sub (entries_noted (C.kept centre.old sub) (Some result))
        (withheld_noted (Some result)) centre.new }
    ensures others { (i : ℕ) → i ≢ sub → C.goes centre.old i [] [] centre.new }

    ensures kept { C.kept centre.new sub ≡ kept_after_next (C.kept centre.old sub) (answer_noted result) }
    ensures still { (i : ℕ) → i ≢ sub → C.kept centre.new i ≡ C.kept centre.old i }

    ensures subs { C.subs centre.new ≡ C.subs centre.old }
    ensures top { (i : ℕ) → C.top centre.new i ≡ C.top centre.old i }
    ensures name { C.name centre.new ≡ C.name centre.old }
{
    match centre.next(rt, sub) {
        Ok(n) => NumberNote::Drew(n),
        Err(CentreRefusal::Exhausted(word)) => NumberNote::Exhausted(word),
        Err(CentreRefusal::Withheld(n, stop)) => NumberNote::Withheld(n, stop),
        Err(CentreRefusal::Beyond(_, _)) => unreachable!(),
    }
}

/// Reports to a centre the SEQ that a USIM sent under a right MAC-S, which is at most the subscriber's greatest number, and
/// notes its answer, which is never BadAuts.
pub fn report<C: Centre, R: Wait>(rt: &R, centre: &mut C, sub: u32, seq_ms: u64) -> ResyncNote
    requires sub { sub < C.subs centre.old }
    requires number { seq_ms ≤ C.top centre.old sub }

    ensures answer { AnswersReport (C.kept centre.old sub) (Some seq_ms) (Some result) }

    // The centre makes the entries that the note names, for this subscriber alone, and withholds nothing.
    ensures goes { C.goes centre.old sub (entries_resynced (C.kept centre.old sub) (Some result)) [] centre.new }
    ensures others { (i : ℕ) → i ≢ sub → C.goes centre.old i [] [] centre.new }

    ensures kept { (i : ℕ) → C.kept centre.new i ≡ C.kept centre.old i }
    ensures subs { C.subs centre.new ≡ C.subs centre.old }
    ensures top { (i : ℕ) → C.top centre.new i ≡ C.top centre.old i }
    ensures name { C.name centre.new ≡ C.name centre.old }
{
    match centre.resync(rt, sub, seq_ms) {
        Ok(Resynced::Moved(seen, seq)) => ResyncNote::Moved(seen, seq),
        Ok(Resynced::InRange(seen, seq)) => ResyncNote::InRange(seen, seq),
        Err(CentreRefusal::Beyond(seen, seq)) => ResyncNote::Beyond(seen, seq),
        Err(CentreRefusal::Exhausted(_) | CentreRefusal::Withheld(_, _)) => unreachable!(),
    }
}
