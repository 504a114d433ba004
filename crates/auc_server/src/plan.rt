//! What a turn of a server does, with the memory for it.

ghost use Rattle.std.specs.Prelude.{◌≡◌, ◌<◌, List, length, false, Some, None, IfOk, IfSome, OnErr};
ghost use Rattle.auc_packet.specs.Received.{IsReceived, seen_of};
ghost use Rattle.auc_subs.specs.declared.row.Row as rows;
ghost use Rattle.auc_vector.specs.declared.notes.Notes.{Notes};
ghost use Rattle.auc_vector.specs.declared.notes.ResyncNote.TheVariants as resync;
ghost use Rattle.auc_server.specs.InnerPlan.{Asks, IsFit, IsPlan, NeedsMemory, homes_planned, plan_asks, plan_does};
ghost use Rattle.auc_server.specs.InnerRows.{IsHeldRow};
ghost use Rattle.auc_server.specs.Rounds.{heard};
ghost use Rattle.auc_server.specs.Rows.{text_in};
ghost use Rattle.auc_server.specs.Server.{challenged_of, resumed_of};
ghost use Rattle.auc_subs.specs.Setting.{Setting};
ghost use Rattle.auc_server.specs.Steps.{IsHeld, IsHeldToo, asking};
ghost use Rattle.auc_server.specs.Table.{homes_done, packets_after, server_does};
ghost use Rattle.auc_server.specs.declared.plan.Deed.TheVariants as deed;
ghost use Rattle.auc_server.specs.declared.plan.Plan.TheVariants as plans;
ghost use Rattle.auc_server.specs.declared.setting.HomeRow.{HomeRow};
ghost use Rattle.auc_vector.specs.declared.why.ServerWhy.TheVariants as why;

use crate::rooms::{ChallengeRooms, MessageRoom, ReauthRooms, RequestRooms};
use crate::rounds::hear;
use crate::rows::{Row, text_in};
use crate::server::{Challenged, Resumed, Server};
use crate::setting::HomeRow;
use auc_memory::{NoMemory, Octets, Room};
use auc_packet::Received;
use auc_request::IdentityRequest;
use auc_seal::IdentityPackets;
use auc_subs::Setting;
use auc_vector::{Reason, ResyncNote, ServerWhy};
use std::alloc::Global;
use std::marker::Model;

/// An identity that was received, and the AKA-Identity packets after the turn.
#[derive(Drop)]
pub(crate) struct Heard {
    pub(crate) text: Octets,
    pub(crate) packets: IdentityPackets,
}

/// A request of at most 728 bytes, and memory for a copy of it. Contracts see its bytes.
#[derive(Drop)]
pub(crate) struct Request {
    pub(crate) bytes: Octets,
    pub(crate) kept: Room,
}

impl Model for Request {
    ghost use Rattle.std.specs.Prelude.{◌≤◌, ℕ, List, length};
    ghost use Rattle.auc_server.specs.InnerRooms.{IsFresh};

    ghost Value = { List ℕ };

    ghost view = { λ r. r.bytes };

    ghost invariant = { λ r. (length r.bytes ≤ 728) × IsFresh r.kept };
}

/// A failure that the peer is notified of: its cause, what AUTS was if it is that, and whether AT_MAC was right.
#[derive(Clone, Copy)]
pub(crate) struct Notice {
    pub(crate) why: ServerWhy,
    pub(crate) resync: Option<ResyncNote>,
    pub(crate) checked: bool,
}

/// What a turn does that asks the centre for nothing.
#[derive(Drop)]
pub(crate) enum Deed {
    /// Nothing.
    Ignore(Reason),
    /// It asks for another identity.
    Ask(IdentityRequest, Heard, Request),
    /// It notifies the peer that its identity is unknown.
    Refuse(Heard, RequestRooms),
    /// It takes the context of the subscriber at this place up again.
    Resume(u32, Heard, ReauthRooms),
    /// It notifies the peer of a failure.
    Notify(Notice, RequestRooms),
    /// It ends the session in Success after a challenge.
    Succeed(Challenged, MessageRoom),
    /// It ends the session in Success after a re-authentication.
    SucceedAgain(Resumed, MessageRoom),
    /// It ends the session in Notice.
    Fail(ServerWhy, MessageRoom),
}

/// What a turn does.
#[derive(Drop)]
pub(crate) enum Plan {
    /// It challenges the subscriber of an identity.
    Challenge(u32, Heard, ChallengeRooms),
    /// It challenges the subscriber, since the counter was too small.
    TooSmall(u32, ChallengeRooms),
    /// It challenges the subscriber again after this SEQ.
    Resynchronise(u32, u64, ChallengeRooms),
    /// It asks the centre for nothing.
    Alone(Deed),
}

impl Server {
    /// What was heard, if no identity is asked for next.
    fn heard(&self, received: &Received) -> Result<Heard, NoMemory>
        requires { IsReceived (seen_of received.now) }
        ensures text { IfOk result (λ said. said.text ≡ text_in received.now.reading) }
        ensures packets { IfOk result (λ said. said.packets ≡ heard self.now.packets received.now.bytes.now received.now.reading) }
    {
        let text = Octets::copied_from(self.alloc, text_in(&received.reading))?;
        let mut packets = self.packets.copy(self.alloc)?;
        hear(self.alloc, &mut packets, received)?;
        Ok(Heard { text, packets })
    }

    /// Another identity is asked for. The request is one of the AKA-Identity packets.
    fn plan_ask(&self, received: &Received, kind: IdentityRequest) -> Result<Deed, NoMemory>
        requires { IsReceived (seen_of received.now) }
        ensures { IfOk result (λ deed. Asks self.now (seen_of received.now) kind deed) }
    {
        let mut said = self.heard(received)?;
        let request = self.identity_asked(kind)?;
        said.packets.add(self.alloc, request.bytes.as_slice())?;
        Ok(Deed::Ask(kind, said, request))
    }

    /// Memory for a Challenge.
    fn challenge_rooms(&self) -> Result<ChallengeRooms, NoMemory>
        ensures { IfOk result (λ rooms. rooms ≡ self.now.options.name) }
    {
        ChallengeRooms::new(self.alloc, self.options.name.as_slice())
    }

    /// What a turn with this row does. Each row takes only the memory that it needs.
    fn plan_row(&self, received: &Received, row: Row) -> Result<Plan, NoMemory>
        requires { IsReceived (seen_of received.now) }

        ensures does { IfOk result (λ plan. (set : Setting) (homes : List HomeRow) (notes : Notes) → plan_does set homes self.now plan notes
            ≡ server_does set homes self.now (text_in received.now.reading) (packets_after self.now (seen_of received.now) row) row notes) }
        ensures homes { IfOk result (λ plan. (homes : List HomeRow) (notes : Notes) → homes_planned homes self.now plan notes
            ≡ homes_done homes self.now (text_in received.now.reading) row notes) }
        ensures asks { IfOk result (λ plan. plan_asks plan ≡ asking row) }
        ensures fits { IfOk result (λ plan. (all : List rows.Row) (homes : List HomeRow) → IsHeldRow self.now.options.method all homes row
            → IsFit self.now.options all homes plan) }

        ensures ignored { OnErr result (NeedsMemory row) }
    {
        let alloc = self.alloc;
        match row {
            Row::Ignore(why) => Ok(Plan::Alone(Deed::Ignore(why))),
            Row::Ask(kind) => Ok(Plan::Alone(self.plan_ask(received, kind)?)),
            Row::UnknownIdentity => {
                let said = self.heard(received)?;
                Ok(Plan::Alone(Deed::Refuse(said, RequestRooms::new(alloc)?)))
            }
            Row::Challenge(sub) => {
                let said = self.heard(received)?;
                Ok(Plan::Challenge(sub, said, self.challenge_rooms()?))
            }
            Row::Resume(sub) => {
                let said = self.heard(received)?;
                Ok(Plan::Alone(Deed::Resume(sub, said, ReauthRooms::new(alloc)?)))
            }
            Row::TooSmall(sub) => Ok(Plan::TooSmall(sub, self.challenge_rooms()?)),
            Row::Resynchronise(sub, seq) => {
                Ok(Plan::Resynchronise(sub, seq, self.challenge_rooms()?))
            }
            Row::WrongCounter => notify(alloc, without_auts(ServerWhy::WrongCounter, true)),
            Row::WrongMac => notify(alloc, without_auts(ServerWhy::WrongMac, false)),
            Row::WrongRes => notify(alloc, without_auts(ServerWhy::WrongRes, true)),
            Row::WrongCheckcode => notify(alloc, without_auts(ServerWhy::WrongCheckcode, true)),
            Row::SecondSync => notify(alloc, without_auts(ServerWhy::SecondSync, false)),
            Row::BadAuts => notify(alloc, bad_auts()),
            Row::Success(sent) => Ok(Plan::Alone(Deed::Succeed(sent, MessageRoom::new(alloc)?))),
            Row::Reauthenticated(sent) => {
                Ok(Plan::Alone(Deed::SucceedAgain(sent, MessageRoom::new(alloc)?)))
            }
            Row::Rejected => end(alloc, ServerWhy::Rejected),
            Row::ClientError(code) => end(alloc, ServerWhy::ClientError(code)),
            Row::Notified(why) => end(alloc, why),
        }
    }

    /// What a turn with received bytes does. Nothing changes yet.
    pub(crate) fn plan(
        &self,
        set: &Setting,
        homes: &[HomeRow],
        received: &Received,
    ) -> Result<Plan, NoMemory>
        requires received { IsReceived (seen_of received.now) }
        requires listed { IfSome (challenged_of self.now) (λ sent. sent.sub < length set.now.rows) }
        requires held { IsHeld homes.now (challenged_of self.now) }
        requires resumed { IsHeldToo homes.now (resumed_of self.now) }
        ensures { IfOk result (λ plan. IsPlan set.now homes.now self.now (seen_of received.now) plan) }
    {
        let reply = self.reply_in(&received.reading)?;
        let row = self.row(set, homes, received, reply);
        self.plan_row(received, row)
    }
}

/// A failure that tells nothing of AUTS.
fn without_auts(why: ServerWhy, checked: bool) -> Notice
    ensures { result ≡ record { why = why; resync = None; checked = checked } }
{
    Notice {
        why,
        resync: None,
        checked,
    }
}

/// AUTS whose MAC-S isn't right (TS 33.102 §6.3.5).
fn bad_auts() -> Notice
    ensures { result ≡ record { why = why.BadAuts; resync = Some resync.BadAuts; checked = false } }
{
    Notice {
        why: ServerWhy::BadAuts,
        resync: Some(ResyncNote::BadAuts),
        checked: false,
    }
}

/// The peer is notified of a failure.
fn notify(alloc: Global, notice: Notice) -> Result<Plan, NoMemory>
    ensures { IfOk result (λ plan. plan ≡ plans.Alone (deed.Notify notice tt)) }
{
    Ok(Plan::Alone(Deed::Notify(notice, RequestRooms::new(alloc)?)))
}

/// The session ends in Notice.
fn end(alloc: Global, why: ServerWhy) -> Result<Plan, NoMemory>
    ensures { IfOk result (λ plan. plan ≡ plans.Alone (deed.Fail why tt)) }
{
    Ok(Plan::Alone(Deed::Fail(why, MessageRoom::new(alloc)?)))
}
