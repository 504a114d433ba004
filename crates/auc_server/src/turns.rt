//! What the rows of a server's table do, but for the challenge.

ghost use Rattle.std.specs.Prelude.{◌≡◌, ◌≤◌, length, false, IfOk};
ghost use Rattle.auc_server.specs.Contexts.{homes_won};
ghost use Rattle.auc_server.specs.InnerServer.{IsOwnState};
ghost use Rattle.auc_server.specs.Server.{started};
ghost use Rattle.auc_server.specs.Steps.{bytes_of};
ghost use Rattle.auc_server.specs.Table.{ended, failed, gave_up, identified, ignored, noted, notified, repeated, requested, silent, succeeded, unknown};
ghost use Rattle.auc_server.specs.declared.server.ServerState.TheVariants as state;
ghost use Rattle.auc_server.specs.Server.{challenged_of, resumed_of};
ghost use Rattle.auc_reauth.specs.Store.{method_of};

use crate::contexts::{keep_context, won_context};
use crate::messages::{message, notification};
use crate::options::ServerOptions;
use crate::plan::{Heard, Request};
use crate::rooms::{MessageRoom, RequestRooms, message_room};
use crate::server::{Challenged, Resumed, Server, ServerState};
use crate::setting::HomeRow;
use auc_memory::{NoMemory, Octets};
use auc_packet::Packet;
use auc_request::IdentityRequest;
use auc_seal::IdentityPackets;
use auc_vector::{Notes, NumberNote, Outcome, Reason, ResyncNote, ServerWhy, Step, Turn};
use std::alloc::Global;

/// What a server's turn notes.
pub(crate) fn noted(resync: Option<ResyncNote>, number: Option<NumberNote>) -> Notes
    ensures { result ≡ noted resync number }
{
    Notes {
        resync,
        number,
        resumed: None,
        usim: None,
        counter: None,
    }
}

/// What a turn tells beside its step: its notes, and whether AT_MAC was right.
#[derive(Clone, Copy)]
pub(crate) struct Told {
    pub(crate) notes: Notes,
    pub(crate) checked: bool,
}

/// Nothing is told.
fn nothing() -> Told
    ensures { result ≡ record { notes = silent; checked = false } }
{
    Told {
        notes: noted(None, None),
        checked: false,
    }
}

impl Server {
    /// Ignores what was received.
    pub(crate) fn ignore(&self, why: Reason) -> Turn<ServerWhy>
        ensures step { (self.now, result) ≡ ignored self.now why }
        ensures small { length (bytes_of result.step) ≤ 728 }
    {
        let Told { notes, checked } = nothing();
        Turn {
            notes,
            step: Step::Ignored(why),
            checked,
        }
    }

    /// Sends a new request, and keeps it to send it again.
    pub(crate) fn request(
        &mut self,
        state: ServerState,
        told: Told,
        request: Request,
    ) -> Turn<ServerWhy>
        requires { IsOwnState self.old.options.method state }
        ensures step { (self.new, result) ≡ requested self.old state request told.notes told.checked }
        ensures small { length (bytes_of result.step) ≤ 728 }
    {
        let Request { bytes, mut kept } = request;
        kept.put(bytes.as_slice());
        self.state = state;
        self.id = self.id.wrapping_add(1);
        self.last = kept.into_octets();
        Turn {
            notes: told.notes,
            step: Step::Sent(bytes),
            checked: told.checked,
        }
    }

    /// Notifies the peer of a failure (RFC 4187 §6.3.2).
    pub(crate) fn notify(
        &mut self,
        why: ServerWhy,
        told: Told,
        rooms: RequestRooms,
    ) -> Turn<ServerWhy>
        ensures step { (self.new, result) ≡ notified self.old why told.notes told.checked }
        ensures small { length (bytes_of result.step) ≤ 728 }
    {
        let RequestRooms {
            message,
            kept,
            attrs,
        } = rooms;
        let bytes = notification(self.options.method, self.id.wrapping_add(1), attrs, message);
        let state = ServerState::Notifying(why, self.state.last());
        self.request(state, told, Request { bytes, kept })
    }

    /// Ends the session.
    pub(crate) fn end(
        &mut self,
        outcome: Outcome<ServerWhy>,
        bytes: Octets,
        checked: bool,
    ) -> Turn<ServerWhy>
        requires { length bytes ≤ 728 }
        ensures step { (self.new, result) ≡ ended self.old outcome bytes checked }
        ensures small { length (bytes_of result.step) ≤ 728 }
    {
        self.state = ServerState::Ended(outcome, self.state.last());
        Turn {
            notes: noted(None, None),
            step: Step::Ended(outcome, bytes),
            checked,
        }
    }

    /// Ends the session with EAP-Failure (RFC 3748 §4.2).
    pub(crate) fn fail(&mut self, why: ServerWhy, room: MessageRoom) -> Turn<ServerWhy>
        ensures step { (self.new, result) ≡ failed self.old why }
        ensures small { length (bytes_of result.step) ≤ 728 }
    {
        let bytes = message(&Packet::Failure(self.id), room.into_room());
        self.end(Outcome::Failure(why), bytes, false)
    }

    /// Ends the session with EAP-Success (RFC 3748 §4.2), and keeps the new context.
    pub(crate) fn succeed(
        &mut self,
        homes: &mut [HomeRow],
        sent: Challenged,
        room: MessageRoom,
    ) -> Turn<ServerWhy>
        requires own { method_of sent.master ≡ self.old.options.method }
        ensures step { (self.new, result) ≡ succeeded self.old sent }
        ensures homes { homes.new ≡ homes_won self.old.options.method homes.old sent }
        ensures small { length (bytes_of result.step) ≤ 728 }
    {
        let bytes = message(&Packet::Success(self.id), room.into_room());
        keep_context(self.options.method, homes, sent.sub, won_context(&sent));
        self.end(Outcome::Success(sent.keys), bytes, true)
    }

    /// Keeps the identity that was received, and the AKA-Identity packets after this turn.
    pub(crate) fn identify(&mut self, said: Heard)
        ensures { self.new ≡ identified self.old said.text said.packets }
    {
        let Heard { text, packets } = said;
        self.identity = text;
        self.packets = packets;
    }

    /// Asks for another identity (RFC 4187 §4.1.4).
    pub(crate) fn ask(
        &mut self,
        kind: IdentityRequest,
        said: Heard,
        request: Request,
    ) -> Turn<ServerWhy>
        ensures step { (self.new, result)
            ≡ requested (identified self.old said.text said.packets) (state.Await kind) request silent false }
        ensures small { length (bytes_of result.step) ≤ 728 }
    {
        self.identify(said);
        self.request(ServerState::Await(kind), nothing(), request)
    }

    /// Notifies the peer that its identity is unknown.
    pub(crate) fn refuse_identity(&mut self, said: Heard, rooms: RequestRooms) -> Turn<ServerWhy>
        ensures step { (self.new, result) ≡ unknown self.old said.text said.packets }
        ensures small { length (bytes_of result.step) ≤ 728 }
    {
        self.identify(said);
        self.notify(ServerWhy::UnknownIdentity, nothing(), rooms)
    }
}

impl Server {
    /// A server, and its first request, which asks for an identity (RFC 3748 §5.1).
    pub fn start(options: ServerOptions, alloc: Global) -> Result<(Server, Octets), NoMemory>
        requires { length options.name ≤ 255 }
        ensures server { IfOk result (λ started_with. started_with.0 ≡ started options) }
        ensures sent { IfOk result (λ started_with. started_with.1 ≡ (started options).last) }
    {
        let room = message_room(alloc)?;
        let packet = Packet::Identity {
            request: true,
            id: 1,
            text: Octets::new(alloc),
        };
        let bytes = message(&packet, room);
        let last = Octets::copied_from(alloc, bytes.as_slice())?;
        let server = Server {
            alloc,
            options,
            state: ServerState::AwaitIdentity,
            id: 1,
            last,
            identity: Octets::new(alloc),
            synced: false,
            packets: IdentityPackets::new(alloc),
            next_iv: 0,
        };
        Ok((server, bytes))
    }

    /// Sends the last request again (RFC 3748 §4.1), unless the session has ended.
    pub fn repeat(&self) -> Result<Step<ServerWhy>, NoMemory>
        ensures { IfOk result (λ step. step ≡ repeated self.now self.now.state) }
    {
        if let ServerState::Ended(_, _) = self.state {
            return Ok(Step::Ignored(Reason::Closed));
        }
        Ok(Step::Sent(Octets::copied_from(self.alloc, self.last.as_slice())?))
    }

    /// Ends the session in Failure, and sends nothing. If the session has ended before, nothing changes. It takes no
    /// memory.
    pub fn give_up(&mut self) -> Step<ServerWhy>
        ensures { (self.new, result) ≡ gave_up self.old self.old.state }
    {
        if let ServerState::Ended(_, _) = self.state {
            return Step::Ignored(Reason::Closed);
        }
        let outcome = Outcome::Failure(ServerWhy::GivenUp);
        self.state = ServerState::Ended(outcome, self.state.last());
        Step::Ended(outcome, Octets::new(self.alloc))
    }

    /// What the server was told of its session.
    pub fn options(&self) -> &ServerOptions
        ensures value { result.now ≡ self.now.options }
        ensures short { length result.now.name ≤ 255 }
    {
        &self.options
    }

    /// What the server waits for, or how the session has ended.
    pub fn state(&self) -> ServerState
        ensures { result ≡ self.now.state }
    {
        self.state
    }

    /// The identity that was received last, from which keys are derived (RFC 4187 §7, RFC 9048 §3.3); empty before the first.
    pub fn identity(&self) -> &[u8]
        ensures { result.now ≡ self.now.identity }
    {
        self.identity.as_slice()
    }

    /// The last challenge, also after the session has ended, or `None` before the first.
    pub fn challenged(&self) -> Option<Challenged>
        ensures { result ≡ challenged_of self.now }
    {
        self.state.last().challenged
    }

    /// The re-authentication, also after the session has ended, or `None` if there was none.
    pub fn resumed(&self) -> Option<Resumed>
        ensures { result ≡ resumed_of self.now }
    {
        self.state.last().resumed
    }
}
