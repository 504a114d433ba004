//! The rule of the shared words, and the kinds of step.

use atomic_table::{Join, Play, Split, TableRule};
use auc_history::Entry;
use auc_memory::Stop;
use std::collections::LinkedList;
use std::marker::{Brand, PhantomData};

/// What a step of a pass did. The lists of deeds are data of contracts: the program makes no value of this type.
pub enum Deed {
    /// It made this entry of the subscriber's history.
    Made(u64, Entry),
    /// It claimed this number, which it found in the job word.
    Claimed(u64),
    /// It released this number of the subscriber.
    Released(u64, u64),
    /// It withheld this number of the subscriber, because reservations had ended.
    Withheld(u64, u64, Stop),
    /// It read that reservations had ended.
    ReadStop(Stop),
}

/// What the keeper's seat knows of the limits. It is data of contracts, as [`Deed`] is.
pub struct Note {
    /// Each subscriber's limit, up to which its numbers may be released.
    pub limits: LinkedList<u64>,
    /// Each subscriber's number word, as it was last looked at.
    pub seen: LinkedList<u64>,
    /// Why reservations ended, if they did.
    pub stop: Option<Stop>,
}

/// What a seat of the table knows. It is data of contracts, as [`Deed`] is.
pub struct View {
    /// What the seat's own steps did.
    pub own: LinkedList<Deed>,
    /// The lists of the passes that were joined into it.
    pub joined: LinkedList<LinkedList<Deed>>,
    /// 1 for a pass, 0 for the keeper's seat and for a pass that was joined.
    pub active: u64,
    /// How many passes were split from it.
    pub split: u64,
    /// The joined lists, at the one seat that tells them to a closed book. The rule says nothing of this field.
    pub shown: LinkedList<LinkedList<Deed>>,
    /// The subscribers' greatest numbers, at the keeper's seat and at each pass's. The rule says nothing of this field.
    pub tops: LinkedList<u64>,
    /// What the keeper knows, at its seat; nothing at the others.
    pub note: Note,
}

/// The table's key: where the numbers stood at the opening, each subscriber's greatest number, and the limits that were
/// given with them.
#[derive(Drop)]
pub(crate) struct Key {
    pub(crate) openings: Vec<u64>,
    pub(crate) tops: Vec<u64>,
    pub(crate) limits: Vec<u64>,
}

/// The rule.
pub(crate) struct Rule;

impl TableRule<(), View, Key> for Rule {
    ghost use Rattle.auc_draw.specs.InnerLimits.{opening_note};
    ghost use Rattle.auc_draw.specs.InnerRule.{Keeps, keeper_view};

    ghost holds = { λ key s. Keeps key.openings.items key.tops.items key.limits.items s };

    ghost first = { λ key. keeper_view 0 key.tops.items (opening_note key.openings.items key.limits.items) };
}

/// A pass is split from the keeper's seat.
pub(crate) struct SplitPass;

impl Split<View> for SplitPass {
    ghost use Rattle.auc_draw.specs.InnerRule.{after_split, new_view};

    ghost left = { after_split };

    ghost right = { λ v. new_view v.tops };
}

/// A pass is joined into the keeper's seat.
pub(crate) struct JoinPass;

impl Join<View> for JoinPass {
    ghost use Rattle.auc_draw.specs.InnerRule.{after_join, spent_view};

    ghost both = { after_join };

    ghost spent = { spent_view };
}

/// A seat that tells a closed book the joined lists is split from the keeper's.
pub(crate) struct SplitLists;

impl Split<View> for SplitLists {
    ghost use Rattle.auc_draw.specs.InnerRule.{lists_view};

    ghost left = { λ v. v };

    ghost right = { lists_view };
}

/// A draw adds one to a subscriber's word.
pub(crate) struct DrawStep;

impl Play<(), View> for DrawStep {
    ghost use Rattle.auc_draw.specs.InnerRule.{draws};

    ghost then = { draws };
}

/// A jump moves a subscriber's word up.
pub(crate) struct JumpStep;

impl Play<(), View> for JumpStep {
    ghost use Rattle.auc_draw.specs.InnerRule.{jumps};

    ghost then = { jumps };
}

/// A claim adds one to the job word.
pub(crate) struct ClaimStep;

impl Play<(), View> for ClaimStep {
    ghost use Rattle.auc_draw.specs.InnerRule.{claims};

    ghost then = { claims };
}

/// What a step on a subscriber's limit is for, where the step itself can't see it. The caller picks both.
pub(crate) trait Asked {
    ghost use Rattle.std.specs.Prelude.{ℕ};

    /// The subscriber whose limit it is.
    ghost sub: { ℕ };
    /// The number that is to be released.
    ghost number: { ℕ };
}

/// A call with `Brand` picks its own. These are those of no step.
impl Asked for Brand {
    ghost sub = { 0 };

    ghost number = { 0 };
}

/// A release loads a subscriber's limit.
pub(crate) struct ReleaseStep<N: Asked> {
    asked: PhantomData<N>,
}

impl<N: Asked> Play<(), View> for ReleaseStep<N> {
    ghost use Rattle.auc_draw.specs.InnerRule.{AddsRelease};

    ghost then = { λ s v found w. AddsRelease N.sub N.number found v w };
}

/// A pass loads the stop word.
pub(crate) struct StoppedStep;

impl Play<(), View> for StoppedStep {
    ghost use Rattle.auc_draw.specs.InnerRule.{AddsStop};

    ghost then = { λ s v found w. AddsStop found v w };
}

/// The keeper loads a subscriber's number.
pub(crate) struct LookStep;

impl Play<(), View> for LookStep {
    ghost use Rattle.auc_draw.specs.InnerRule.{looks};

    ghost then = { looks };
}

/// The keeper raises a subscriber's limit.
pub(crate) struct RaiseStep<N: Asked> {
    asked: PhantomData<N>,
}

impl<N: Asked> Play<(), View> for RaiseStep<N> {
    ghost use Rattle.auc_draw.specs.InnerRule.{NotesLimit};

    ghost then = { λ s v found w. NotesLimit N.sub s.first v w };
}

/// The keeper stores why reservations ended.
pub(crate) struct StopStep;

impl Play<(), View> for StopStep {
    ghost use Rattle.auc_draw.specs.InnerRule.{stops};

    ghost then = { stops };
}
