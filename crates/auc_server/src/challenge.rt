//! A challenge: the vector of a number that the centre gave, and the message.

ghost use Rattle.std.specs.Prelude.{◌≡◌, ◌≤◌, ◌<◌, length, None, Some};
ghost use Rattle.auc_subs.specs.Subscriber.{top_at};
ghost use Rattle.auc_server.specs.InnerAsking.{IsRedrawn, number_noted, redrawn_noted, resync_noted};
ghost use Rattle.auc_server.specs.InnerServer.{IsNumbered};
ghost use Rattle.auc_server.specs.Steps.{bytes_of};
ghost use Rattle.auc_reauth.specs.Store.{method_of};
ghost use Rattle.auc_vector.specs.Keys.{master_of};
ghost use Rattle.auc_server.specs.Table.{challenge_of, challenged, homes_challenged, noted, resynchronised, sent_with, vector_at};

use crate::asking::Redrawn;
use crate::messages::{ChallengeParts, Scene, challenge};
use crate::naming::{GivenNames, iv_after, next_given};
use crate::options::ServerOptions;
use crate::plan::Request;
use crate::rooms::{ChallengeRooms, ReauthRooms, RequestRooms};
use crate::rounds::checkcode;
use crate::server::{Challenged, Server, ServerState};
use crate::setting::HomeRow;
use crate::turns::{Told, noted};
use auc_hmac::{Master, Method};
use auc_subs::Setting;
use auc_vector::{NumberNote, ResyncNote, ServerWhy, Turn, Vector, keys_of, master_of, vector};

/// The vector of a subscriber's number, by a session's method and network name.
fn vector_at(set: &Setting, options: &ServerOptions, sub: u32, n: u64) -> Vector
    requires short { length options.now.name ≤ 255 }
    requires listed { sub < length set.now.rows }
    requires first { 1 ≤ n }
    requires last { n ≤ top_at set.now.rows sub }
    ensures { Some result ≡ vector_at set.now options.now sub n }
{
    let home = set.subs.row(sub);
    let rand = set.rands.rand_of(sub, n);
    vector(
        &home.secret,
        options.method,
        home.amf,
        options.name.as_slice(),
        home.bits,
        n,
        rand,
    )
}

/// The key that the keys of later re-authentications are derived from.
#[tactic(auto, unfolding(auc_vector::specs::Keys::master_of))]
fn master_by(method: Method, identity: &[u8], ik: [u8; 16], ck: [u8; 16]) -> Master
    ensures master { result ≡ master_of method identity.now ik ck }
    ensures own { method_of result ≡ method }
{
    master_of(method, identity, ik, ck)
}

/// What a challenge answers: the centre's number, after a resynchronisation if there was one, and whether AT_MAC was right.
#[derive(Clone, Copy)]
pub(crate) struct Drawn {
    pub(crate) resync: Option<ResyncNote>,
    pub(crate) number: NumberNote,
    pub(crate) checked: bool,
}

impl Server {
    /// Sends a Challenge (RFC 4187 §9.3).
    fn send_challenge(
        &mut self,
        set: &Setting,
        sent: Challenged,
        given: Option<GivenNames>,
        told: Told,
        rooms: ChallengeRooms,
    ) -> Turn<ServerWhy>
        requires named { rooms ≡ self.old.options.name }
        requires own { method_of sent.master ≡ self.old.options.method }
        ensures step { (self.new, result) ≡ sent_with set.now.realm self.old sent given told.notes told.checked }
        ensures small { length (bytes_of result.step) ≤ 728 }
    {
        let ChallengeRooms { name, text, rest } = rooms;
        let ReauthRooms {
            check,
            request,
            hidden,
        } = rest;
        let RequestRooms {
            message,
            kept,
            attrs,
        } = request;
        let id = self.id.wrapping_add(1);
        let check = checkcode(self.options.method, &self.packets, check);
        let scene = Scene {
            options: &self.options,
            realm: set.realm,
            id,
        };
        let parts = ChallengeParts {
            name,
            text,
            rooms: hidden,
            places: attrs,
        };
        let bytes = challenge(&scene, &sent, given, parts, check, message);
        let state = ServerState::AwaitChallenge(sent, self.state.last().resumed);
        self.next_iv = iv_after(self.next_iv, &given);
        self.request(state, told, Request { bytes, kept })
    }

    /// The challenge of a number's vector.
    fn challenged_by(
        &self,
        sub: u32,
        number: u64,
        vector: Vector,
        next: Option<[u8; 33]>,
    ) -> Challenged
        ensures challenge { result ≡ challenge_of self.now sub number vector next }
        ensures own { method_of result.master ≡ self.now.options.method }
    {
        let identity = self.identity.as_slice();
        let method = self.options.method;
        let Vector { ck, ik, .. } = vector;
        Challenged {
            sub,
            number,
            vector,
            keys: keys_of(method, identity, ik, ck),
            master: master_by(method, identity, ik, ck),
            next,
        }
    }

    /// Challenges a subscriber, if the centre gave a number.
    pub(crate) fn challenge(
        &mut self,
        set: &Setting,
        homes: &mut [HomeRow],
        sub: u32,
        drawn: Drawn,
        rooms: ChallengeRooms,
    ) -> Turn<ServerWhy>
        requires listed { sub < length set.now.rows }
        requires number { IsNumbered (top_at set.now.rows sub) drawn.number }
        requires named { rooms ≡ self.old.options.name }

        ensures step { (self.new, result) ≡ challenged set.now homes.old self.old sub drawn.checked drawn.resync (Some drawn.number) }
        ensures homes { homes.new ≡ homes_challenged self.old.options homes.old sub (Some drawn.number) }
        ensures small { length (bytes_of result.step) ≤ 728 }
        ensures notes { result.notes ≡ noted drawn.resync (Some drawn.number) }
    {
        let told = Told {
            notes: noted(drawn.resync, Some(drawn.number)),
            checked: drawn.checked,
        };
        match drawn.number {
            NumberNote::Drew(n) => {
                let vector = vector_at(set, &self.options, sub, n);
                let given = self.give_names(set, homes, sub);
                let sent = self.challenged_by(sub, n, vector, next_given(&given));
                self.send_challenge(set, sent, given, told, rooms)
            }
            NumberNote::Exhausted(word) => {
                self.notify(ServerWhy::Exhausted(word), told, rooms.into_request())
            }
            NumberNote::Withheld(n, stop) => {
                self.notify(ServerWhy::Stopped(n, stop), told, rooms.into_request())
            }
        }
    }

    /// Challenges the subscriber of a USIM that reported a SEQ again, unless the number at the centre is too far above
    /// (RFC 4187 §9.6, TS 33.102 §6.3.5).
    pub(crate) fn resynchronise(
        &mut self,
        set: &Setting,
        homes: &mut [HomeRow],
        sub: u32,
        answered: Redrawn,
        rooms: ChallengeRooms,
    ) -> Turn<ServerWhy>
        requires listed { sub < length set.now.rows }
        requires own { IsRedrawn (top_at set.now.rows sub) answered }
        requires named { rooms ≡ self.old.options.name }

        ensures step { (self.new, result) ≡ resynchronised set.now homes.old self.old sub (resync_noted answered) (number_noted answered) }
        ensures homes { homes.new ≡ homes_challenged self.old.options homes.old sub (number_noted answered) }
        ensures small { length (bytes_of result.step) ≤ 728 }
        ensures notes { result.notes ≡ redrawn_noted answered }
    {
        self.synced = true;
        match answered {
            Redrawn::Again(resynced, number) => {
                let drawn = Drawn {
                    resync: Some(resynced),
                    number,
                    checked: false,
                };
                self.challenge(set, homes, sub, drawn, rooms)
            }
            Redrawn::Beyond(seen, at) => {
                let told = Told {
                    notes: noted(Some(ResyncNote::Beyond(seen, at)), None),
                    checked: false,
                };
                self.notify(ServerWhy::Beyond(seen, at), told, rooms.into_request())
            }
        }
    }
}
