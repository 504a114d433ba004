//! A fast re-authentication: a context is taken up again, and the message.

ghost use Rattle.std.specs.Prelude.{◌≡◌, ◌≤◌, length};
ghost use Rattle.auc_reauth.specs.Store.{method_of};
ghost use Rattle.auc_server.specs.Contexts.{context_in, gives_next, homes_kept, homes_resumed, homes_rewon};
ghost use Rattle.auc_server.specs.InnerServer.{HasNext};
ghost use Rattle.auc_server.specs.Ordinals.{homes_given};
ghost use Rattle.auc_server.specs.Steps.{bytes_of};
ghost use Rattle.auc_server.specs.Table.{reauthenticated, resent, resumed, resumed_keys, resuming, resumption};

use crate::contexts::{context_after, gives_next, keep_context, take_context};
use crate::messages::{ReauthParts, Scene, message, reauthentication};
use crate::plan::{Heard, Request};
use crate::rooms::{MessageRoom, ReauthRooms, RequestRooms};
use crate::rounds::checkcode;
use crate::server::{Resumed, Server, ServerState};
use crate::setting::HomeRow;
use crate::turns::Told;
use auc_hmac::KeySet;
use auc_ident::NameKind;
use auc_packet::Packet;
use auc_random::index_after;
use auc_reauth::Context;
use auc_subs::Setting;
use auc_vector::{Notes, Outcome, Reason, ServerWhy, Turn, reauth_keys};

/// The counter of a context that was taken up again is noted.
fn resuming(counter: u16) -> Notes
    ensures { result ≡ resuming counter }
{
    Notes {
        resync: None,
        number: None,
        resumed: Some(counter),
        usim: None,
        counter: None,
    }
}

/// Gives the memory of a turn back.
fn give_back(_said: Heard, _rooms: ReauthRooms) {}

impl Server {
    /// The re-authentication of a subscriber with a context. The ordinal of the next identity is used.
    fn resumption(&self, set: &Setting, homes: &mut [HomeRow], sub: u32, c: Context) -> Resumed
        requires { method_of c.master ≡ self.now.options.method }
        ensures value { result ≡ resumption set.now homes.old self.now sub c }
        ensures homes { homes.new ≡ homes_given (gives_next self.now.options c) homes.old sub }
        ensures own { method_of result.context.master ≡ self.now.options.method }
        ensures next { HasNext result }
    {
        let gives = gives_next(&self.options, &c);
        Resumed {
            sub,
            context: c,
            nonce: self.random_at(set, index_after(self.next_iv)),
            next: self.name_next(set, gives, NameKind::Reauth, homes, sub),
        }
    }

    /// Sends a Reauthentication (RFC 4187 §9.7).
    fn send_reauth(&mut self, set: &Setting, sent: Resumed, rooms: ReauthRooms) -> Turn<ServerWhy>
        requires own { method_of sent.context.master ≡ self.old.options.method }
        requires next { HasNext sent }
        ensures step { (self.new, result) ≡ resent set.now self.old sent }
        ensures small { length (bytes_of result.step) ≤ 728 }
    {
        let ReauthRooms {
            check,
            request,
            hidden,
        } = rooms;
        let RequestRooms {
            message,
            kept,
            attrs,
        } = request;
        let id = self.id.wrapping_add(1);
        let iv = self.random_at(set, self.next_iv);
        let check = checkcode(self.options.method, &self.packets, check);
        let scene = Scene {
            options: &self.options,
            realm: set.realm,
            id,
        };
        let parts = ReauthParts {
            rooms: hidden,
            places: attrs,
        };
        let bytes = reauthentication(&scene, iv, &sent, parts, check, message);
        let told = Told {
            notes: resuming(sent.context.counter),
            checked: false,
        };
        self.next_iv = index_after(index_after(self.next_iv));
        self.request(
            ServerState::AwaitReauth(sent),
            told,
            Request { bytes, kept },
        )
    }

    /// Takes a subscriber's context up again, if there is one (RFC 4187 §5.3).
    pub(crate) fn resume(
        &mut self,
        set: &Setting,
        homes: &mut [HomeRow],
        sub: u32,
        said: Heard,
        rooms: ReauthRooms,
    ) -> Turn<ServerWhy>
        ensures step { (self.new, result) ≡ resumed set.now homes.old self.old said.text said.packets sub }
        ensures homes { homes.new
            ≡ homes_resumed self.old.options said.text homes.old sub (context_in self.old.options.method said.text homes.old sub) }
        ensures small { length (bytes_of result.step) ≤ 728 }
    {
        match take_context(self.options.method, said.text.as_slice(), homes, sub) {
            None => {
                give_back(said, rooms);
                self.ignore(Reason::Unexpected)
            }
            Some(c) => {
                let sent = self.resumption(set, homes, sub, c);
                self.identify(said);
                self.send_reauth(set, sent, rooms)
            }
        }
    }

    /// The keys of a re-authentication.
    fn resumed_keys(&self, sent: &Resumed) -> KeySet
        ensures { result ≡ resumed_keys self.now sent.now }
    {
        let Context {
            k_encr,
            k_aut,
            master,
            counter,
            ..
        } = sent.context;
        let identity = self.identity.as_slice();
        reauth_keys(k_encr, k_aut, master, identity, counter, sent.nonce)
    }

    /// Ends the session with EAP-Success under the keys of the re-authentication, and keeps the new context.
    pub(crate) fn succeed_again(
        &mut self,
        homes: &mut [HomeRow],
        sent: Resumed,
        room: MessageRoom,
    ) -> Turn<ServerWhy>
        requires own { method_of sent.context.master ≡ self.old.options.method }
        requires next { HasNext sent }
        ensures step { (self.new, result) ≡ reauthenticated self.old sent }
        ensures homes { homes.new ≡ homes_rewon self.old.options.method homes.old sent }
        ensures small { length (bytes_of result.step) ≤ 728 }
    {
        let bytes = message(&Packet::Success(self.id), room.into_room());
        let keys = self.resumed_keys(&sent);
        keep_context(self.options.method, homes, sent.sub, context_after(&sent));
        self.end(Outcome::Success(keys), bytes, true)
    }
}
