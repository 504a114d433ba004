//! The atomic steps, each on one shared word.

ghost use Rattle.std.specs.Prelude.{◌≡◌, ◌<◌, ◌≤◌, ◌+◌};
ghost use Rattle.auc_draw.specs.InnerLimits.{limit_at};
ghost use Rattle.auc_draw.specs.Pass.{Releases};
ghost use Rattle.auc_draw.specs.InnerRule.{AddsDraw, AddsEntry, AddsClaim, AddsStop, NotesLook, NotesLimit, NotesStop};
ghost use Rattle.auc_draw.specs.InnerRule.{AllowsDraw, AllowsJump, AllowsClaim, AllowsRelease, AllowsStopped, AllowsLook, AllowsRaise, AllowsStop, jump_entry};

use crate::pass::Release;
use crate::place::limit_place;
use crate::rule::{
    Asked, ClaimStep, DrawStep, JumpStep, Key, LookStep, RaiseStep, ReleaseStep, Rule, StopStep,
    StoppedStep, View,
};
use atomic_table::{Seat, Shared};

/// Adds one to the subscriber's word. The answer is the word that was found.
pub(crate) fn add_one(
    shared: &Shared<(), View, Key, Rule>,
    seat: &mut Seat<(), View>,
    sub: u32,
) -> u64
    requires own { seat.old.table_id ≡ shared.now.table_id }
    requires word { sub < shared.now.table_id.words }
    requires allowed { AllowsDraw shared.now.key.openings.items shared.now.key.tops.items shared.now.key.limits.items shared.now.table_id.slots seat.old.id seat.old.me sub }
    ensures own { seat.new.table_id ≡ seat.old.table_id }
    ensures adds { AddsDraw sub result seat.old.me seat.new.me }
{
    shared.fetch_add::<DrawStep>(seat, sub as usize, 1)
}

/// Moves the subscriber's word up to `to` if it is lower. The answer is the word that was found.
pub(crate) fn move_up(
    shared: &Shared<(), View, Key, Rule>,
    seat: &mut Seat<(), View>,
    sub: u32,
    to: u64,
) -> u64
    requires own { seat.old.table_id ≡ shared.now.table_id }
    requires word { sub < shared.now.table_id.words }
    requires allowed { AllowsJump shared.now.key.openings.items shared.now.key.tops.items shared.now.key.limits.items shared.now.table_id.slots seat.old.id seat.old.me sub to }
    ensures own { seat.new.table_id ≡ seat.old.table_id }
    ensures adds { AddsEntry sub (jump_entry to result) seat.old.me seat.new.me }
{
    shared.fetch_max::<JumpStep>(seat, sub as usize, to)
}

/// Adds one to the job word, which stands at this place. The answer is the number that was found.
pub(crate) fn take_number(
    shared: &Shared<(), View, Key, Rule>,
    seat: &mut Seat<(), View>,
    place: usize,
) -> u64
    requires own { seat.old.table_id ≡ shared.now.table_id }
    requires word { place < shared.now.table_id.words }
    requires allowed { AllowsClaim shared.now.key.openings.items shared.now.key.tops.items shared.now.key.limits.items shared.now.table_id.slots seat.old.id seat.old.me place }
    ensures own { seat.new.table_id ≡ seat.old.table_id }
    ensures adds { AddsClaim result seat.old.me seat.new.me }
{
    shared.fetch_add::<ClaimStep>(seat, place, 1)
}

/// Reads the subscriber's limit, among those of so many subscribers, and answers whether the number is released.
pub(crate) fn read_limit<N: Asked>(
    shared: &Shared<(), View, Key, Rule>,
    seat: &mut Seat<(), View>,
    subs: usize,
    sub: u32,
    n: u64,
) -> Release
    requires own { seat.old.table_id ≡ shared.now.table_id }
    requires few { subs ≤ 65536 }
    requires word { limit_at subs sub < shared.now.table_id.words }
    requires asked { (N.sub ≡ sub) × (N.number ≡ n) }
    requires allowed { AllowsRelease shared.now.key.openings.items shared.now.key.tops.items shared.now.key.limits.items shared.now.table_id.slots seat.old.id seat.old.me (limit_at subs sub) N.sub N.number }
    ensures own { seat.new.table_id ≡ seat.old.table_id }
    ensures releases { Releases sub n seat.old.me.0.own seat.new.me.0.own result }
    ensures same { (seat.new.me.0.active ≡ seat.old.me.0.active) × (seat.new.me.1 ≡ seat.old.me.1) }
    ensures tops { seat.new.me.0.tops ≡ seat.old.me.0.tops }
{
    let limit = shared.load::<ReleaseStep<N>>(seat, limit_place(subs, sub));
    if limit < n {
        return Release::Above(limit);
    }
    Release::Released
}

/// Reads the stop word, which stands at this place.
pub(crate) fn read_stop(
    shared: &Shared<(), View, Key, Rule>,
    seat: &mut Seat<(), View>,
    place: usize,
) -> u64
    requires own { seat.old.table_id ≡ shared.now.table_id }
    requires word { place < shared.now.table_id.words }
    requires allowed { AllowsStopped shared.now.key.openings.items shared.now.key.tops.items shared.now.key.limits.items shared.now.table_id.slots seat.old.id seat.old.me place }
    ensures own { seat.new.table_id ≡ seat.old.table_id }
    ensures adds { AddsStop result seat.old.me seat.new.me }
{
    shared.load::<StoppedStep>(seat, place)
}

/// Reads the subscriber's word.
pub(crate) fn read_number(
    shared: &Shared<(), View, Key, Rule>,
    seat: &mut Seat<(), View>,
    sub: u32,
) -> u64
    requires own { seat.old.table_id ≡ shared.now.table_id }
    requires word { sub < shared.now.table_id.words }
    requires allowed { AllowsLook shared.now.key.openings.items shared.now.key.tops.items shared.now.key.limits.items shared.now.table_id.slots seat.old.id seat.old.me sub }
    ensures own { (seat.new.table_id ≡ seat.old.table_id) × (seat.new.id ≡ seat.old.id) }
    ensures notes { NotesLook sub result seat.old.me seat.new.me }
{
    shared.load::<LookStep>(seat, sub as usize)
}

/// Raises the subscriber's limit, among those of so many subscribers.
pub(crate) fn raise_limit<N: Asked>(
    shared: &Shared<(), View, Key, Rule>,
    seat: &mut Seat<(), View>,
    subs: usize,
    sub: u32,
    limit: u64,
)
    requires own { seat.old.table_id ≡ shared.now.table_id }
    requires few { subs ≤ 65536 }
    requires word { limit_at subs sub < shared.now.table_id.words }
    requires asked { N.sub ≡ sub }
    requires allowed { AllowsRaise shared.now.key.openings.items shared.now.key.tops.items shared.now.key.limits.items shared.now.table_id.slots seat.old.id seat.old.me (limit_at subs sub) N.sub limit }
    ensures own { (seat.new.table_id ≡ seat.old.table_id) × (seat.new.id ≡ seat.old.id) }
    ensures notes { NotesLimit N.sub limit seat.old.me seat.new.me }
{
    shared.fetch_max::<RaiseStep<N>>(seat, limit_place(subs, sub), limit);
}

/// Stores the stop word, which stands at this place.
pub(crate) fn store_stop(
    shared: &Shared<(), View, Key, Rule>,
    seat: &mut Seat<(), View>,
    place: usize,
    word: u64,
)
    requires own { seat.old.table_id ≡ shared.now.table_id }
    requires word { place < shared.now.table_id.words }
    requires allowed { AllowsStop shared.now.key.openings.items shared.now.key.tops.items shared.now.key.limits.items shared.now.table_id.slots seat.old.id seat.old.me place word }
    ensures own { (seat.new.table_id ≡ seat.old.table_id) × (seat.new.id ≡ seat.old.id) }
    ensures notes { NotesStop word seat.old.me seat.new.me }
{
    shared.store::<StopStep>(seat, place, word);
}
