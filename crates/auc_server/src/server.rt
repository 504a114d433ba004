//! The server of a session.

ghost use Rattle.std.specs.Prelude.{◌≡◌};
ghost use Rattle.auc_server.specs.State.{last_of};

use crate::options::ServerOptions;
use auc_hmac::{KeySet, Master};
use auc_memory::Octets;
use auc_reauth::Context;
use auc_request::IdentityRequest;
use auc_seal::IdentityPackets;
use auc_vector::{Outcome, ServerWhy, Vector};
use std::alloc::Global;
use std::marker::Model;

/// A challenge that a server sent.
#[derive(Clone, Copy)]
pub struct Challenged {
    /// The subscriber's place among the rows, from 0.
    pub sub: u32,
    /// The vector's number.
    pub number: u64,
    /// The vector.
    pub vector: Vector,
    /// The keys that it gives (RFC 4187 §7, RFC 9048 §3.3).
    pub keys: KeySet,
    /// The key that the keys of later re-authentications are derived from.
    pub master: Master,
    /// The re-authentication identity that the Challenge gave, without its realm.
    pub next: Option<[u8; 33]>,
}

/// A re-authentication that a server asked for.
#[derive(Clone, Copy)]
pub struct Resumed {
    /// The subscriber's place among the rows, from 0.
    pub sub: u32,
    /// The context that was taken up again, with the counter of this re-authentication.
    pub context: Context,
    /// NONCE_S (RFC 4187 §10.18).
    pub nonce: [u8; 16],
    /// The re-authentication identity that the request gave, without its realm.
    pub next: Option<[u8; 33]>,
}

/// What a server sent last of each kind.
#[derive(Clone, Copy)]
pub struct Last {
    /// The last challenge, if one was sent.
    pub challenged: Option<Challenged>,
    /// The re-authentication, if one was asked for.
    pub resumed: Option<Resumed>,
}

/// What a server waits for.
#[derive(Clone, Copy)]
pub enum ServerState {
    /// The peer's identity (RFC 3748 §5.1).
    AwaitIdentity,
    /// Another identity (RFC 4187 §9.2 and §10.2 to §10.4).
    Await(IdentityRequest),
    /// The answer to this challenge (RFC 4187 §9.4). It follows this re-authentication if the counter was too small there.
    AwaitChallenge(Challenged, Option<Resumed>),
    /// The answer to this re-authentication (RFC 4187 §9.8).
    AwaitReauth(Resumed),
    /// The answer to a notification of this failure (RFC 4187 §9.11), after what was sent last.
    Notifying(ServerWhy, Last),
    /// Nothing: the session has ended so, after what was sent last.
    Ended(Outcome<ServerWhy>, Last),
}

impl ServerState {
    /// What was sent last, also after the session has ended.
    pub(crate) fn last(&self) -> Last
        ensures { result ≡ last_of self.now }
    {
        match *self {
            ServerState::AwaitIdentity | ServerState::Await(_) => Last {
                challenged: None,
                resumed: None,
            },
            ServerState::AwaitChallenge(sent, before) => Last {
                challenged: Some(sent),
                resumed: before,
            },
            ServerState::AwaitReauth(sent) => Last {
                challenged: None,
                resumed: Some(sent),
            },
            ServerState::Notifying(_, last) | ServerState::Ended(_, last) => last,
        }
    }
}

/// The server of a session of EAP-AKA or EAP-AKA', which takes its memory of the allocator that it was started with.
/// Contracts see its `ServerEnd`.
#[derive(Drop)]
pub struct Server {
    pub(crate) alloc: Global,
    /// What the server was told of its session.
    pub(crate) options: ServerOptions,
    pub(crate) state: ServerState,
    /// The Identifier of the last request.
    pub(crate) id: u8,
    /// The last request.
    pub(crate) last: Octets,
    /// The identity that was received last, empty before the first.
    pub(crate) identity: Octets,
    /// Whether a synchronisation failure led to a new challenge.
    pub(crate) synced: bool,
    /// The AKA-Identity packets that were sent, or received and not ignored, each once.
    pub(crate) packets: IdentityPackets,
    /// The index of the next initialisation vector.
    pub(crate) next_iv: u32,
}

impl Model for Server {
    ghost use Rattle.std.specs.Prelude.{◌≤◌, length};
    ghost use Rattle.auc_server.specs.InnerServer.{IsOwnState};
    ghost use Rattle.auc_server.specs.Server.{ServerEnd};

    ghost Value = { ServerEnd };

    ghost view = { λ s. record { options = s.options; state = s.state; id = s.id; last = s.last; identity = s.identity; synced = s.synced; packets = s.packets; next_iv = s.next_iv } };

    ghost invariant = { λ s. (length s.options.name ≤ 255) × IsOwnState s.options.method s.state };
}
