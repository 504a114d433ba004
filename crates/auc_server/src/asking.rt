//! What a turn asks the centre for.

ghost use Rattle.std.specs.Prelude.{◌<◌, ◌≤◌, None, Some};
ghost use Rattle.auc_vector.specs.Notes.{AskedOf};
ghost use Rattle.auc_server.specs.InnerAsking.{IsRedrawn, redrawn_noted};
ghost use Rattle.auc_server.specs.InnerServer.{IsNumbered};
ghost use Rattle.auc_server.specs.Steps.{OnlyAsks};
ghost use Rattle.auc_server.specs.Table.{noted};

use auc_vector::{Centre, NumberNote, ResyncNote, ask, report};
use std::sync::Wait;

/// What the centre answered to a SEQ that a USIM reported (TS 33.102 §6.3.5).
#[derive(Clone, Copy)]
pub(crate) enum Redrawn {
    /// The USIM accepts the next number, and a number was asked for.
    Again(ResyncNote, NumberNote),
    /// The number at the centre is too far above the SEQ: the number, then the SEQ.
    Beyond(u64, u64),
}

/// Asks the centre for a number of a subscriber.
pub(crate) fn draw<C: Centre, R: Wait>(rt: &R, centre: &mut C, sub: u32) -> NumberNote
    requires { sub < C.subs centre.old }

    ensures asked { AskedOf C.goes C.kept C.top (record { sub = sub; reported = None }) (noted None (Some result)) centre.old centre.new }
    ensures number { IsNumbered (C.top centre.old sub) result }
    ensures only { OnlyAsks C.subs C.top C.name centre.old centre.new }
{
    ask(rt, centre, sub)
}

/// Reports the SEQ of a subscriber's USIM to the centre, and asks for a number unless the one there is too far above it.
pub(crate) fn redraw<C: Centre, R: Wait>(rt: &R, centre: &mut C, sub: u32, seq: u64) -> Redrawn
    requires known { sub < C.subs centre.old }
    requires seq { seq ≤ C.top centre.old sub }

    ensures asked { AskedOf C.goes C.kept C.top (record { sub = sub; reported = Some seq }) (redrawn_noted result) centre.old centre.new }
    ensures own { IsRedrawn (C.top centre.old sub) result }
    ensures only { OnlyAsks C.subs C.top C.name centre.old centre.new }
{
    let resynced = report(rt, centre, sub, seq);
    match resynced {
        ResyncNote::Beyond(seen, at) => Redrawn::Beyond(seen, at),
        _ => Redrawn::Again(resynced, ask(rt, centre, sub)),
    }
}
