//! Memory for a turn, which is taken before anything changes.

ghost use Rattle.std.specs.Prelude.{◌≡◌, ◌≤◌, length, IfOk};
ghost use Rattle.auc_packet.specs.Received.{seen_of};
ghost use Rattle.auc_packet.specs.Spelling.{packet_text};
ghost use Rattle.auc_peer.specs.InnerRooms.{plain};

use crate::messages::{Heading, Plain, plain_bytes};
use auc_attr::Attr;
use auc_memory::{NoMemory, Octets, Places, Room};
use auc_packet::Received;
use auc_seal::EncryptionRoom;
use std::alloc::Global;
use std::marker::Model;

/// The greatest size of a message without an identity: a Reauthentication response with AT_IV, AT_ENCR_DATA of one block,
/// AT_CHECKCODE of 32 bytes and AT_MAC.
const MOST: usize = 104;

/// An answer, a copy of the request that it is to, and memory for a copy of the answer.
#[derive(Drop)]
pub(crate) struct Sent {
    pub(crate) request: Octets,
    pub(crate) bytes: Octets,
    pub(crate) kept: Room,
}

impl Model for Sent {
    ghost use Rattle.auc_peer.specs.InnerRooms.{Answer, IsKeepable};

    ghost Value = { Answer };

    ghost view = { λ s. record { request = s.request; bytes = s.bytes } };

    ghost invariant = { λ s. IsKeepable s.bytes s.kept };
}

impl Sent {
    /// An answer to a request.
    pub(crate) fn new(alloc: Global, received: &Received, bytes: Octets) -> Result<Sent, NoMemory>
        requires { length bytes ≤ 526 }
        ensures request { IfOk result (λ sent. sent.request ≡ (seen_of received.now).bytes) }
        ensures bytes { IfOk result (λ sent. sent.bytes ≡ bytes) }
    {
        let request = Octets::copied_from(alloc, received.bytes)?;
        let kept = Room::new(alloc, bytes.len())?;
        Ok(Sent {
            request,
            bytes,
            kept,
        })
    }
}

/// A copy of a request, and memory for an answer without an identity and for the copy of it that the peer keeps. Contracts
/// see the copy of the request.
#[derive(Drop)]
pub(crate) struct Reply {
    pub(crate) request: Octets,
    pub(crate) places: Places<Attr>,
    pub(crate) bytes: Room,
    pub(crate) kept: Room,
}

impl Model for Reply {
    ghost use Rattle.std.specs.Prelude.{ℕ, List};
    ghost use Rattle.auc_peer.specs.InnerRooms.{HasPlaces, HasRoom};

    ghost Value = { List ℕ };

    ghost view = { λ r. r.request };

    ghost invariant = { λ r. HasPlaces r.places × HasRoom r.bytes 104 × HasRoom r.kept 104 };
}

impl Reply {
    /// Memory for an answer to a request.
    pub(crate) fn new(alloc: Global, received: &Received) -> Result<Reply, NoMemory>
        ensures { IfOk result (λ reply. reply ≡ (seen_of received.now).bytes) }
    {
        Ok(Reply {
            request: Octets::copied_from(alloc, received.bytes)?,
            places: Places::new(alloc, 2)?,
            bytes: Room::new(alloc, MOST)?,
            kept: Room::new(alloc, MOST)?,
        })
    }

    /// The request, answered by a message without AT_MAC.
    pub(crate) fn plain(self, heading: Heading, message: Plain) -> Sent
        ensures request { result.request ≡ self }
        ensures bytes { result.bytes ≡ packet_text (plain heading.method heading.id message) }
    {
        let Reply {
            request,
            places,
            bytes,
            kept,
        } = self;
        let bytes = plain_bytes(heading, message, places, bytes);
        Sent {
            request,
            bytes,
            kept,
        }
    }
}

/// Memory for the answer to a Challenge. Contracts see the copy of the request.
#[derive(Drop)]
pub(crate) struct ChallengeRooms {
    pub(crate) res: Room,
    pub(crate) code: Room,
    pub(crate) reply: Reply,
}

impl Model for ChallengeRooms {
    ghost use Rattle.std.specs.Prelude.{ℕ, List};
    ghost use Rattle.auc_peer.specs.InnerRooms.{HasRoom};

    ghost Value = { List ℕ };

    ghost view = { λ r. r.reply };

    ghost invariant = { λ r. HasRoom r.res 8 × HasRoom r.code 32 };
}

impl ChallengeRooms {
    /// Memory for the answer to a Challenge.
    pub(crate) fn new(alloc: Global, received: &Received) -> Result<ChallengeRooms, NoMemory>
        ensures { IfOk result (λ rooms. rooms ≡ (seen_of received.now).bytes) }
    {
        Ok(ChallengeRooms {
            res: Room::new(alloc, 8)?,
            code: Room::new(alloc, 32)?,
            reply: Reply::new(alloc, received)?,
        })
    }

    /// The memory for another message of the turn. The rest is given back.
    pub(crate) fn into_reply(self) -> Reply
        ensures { result ≡ self }
    {
        let ChallengeRooms { reply, .. } = self;
        reply
    }
}

/// Memory for the attributes of a Reauthentication response: places for them, places for the counter that is encrypted, and
/// memory to encrypt it.
#[derive(Drop)]
pub(crate) struct CounterRooms {
    pub(crate) places: Places<Attr>,
    pub(crate) counter: Places<Attr>,
    pub(crate) encryption: EncryptionRoom,
}

impl Model for CounterRooms {
    ghost use Rattle.auc_peer.specs.InnerRooms.{HasPlaces, HasThreePlaces};

    ghost Value = { Unit {0} };

    ghost view = { λ r. tt };

    ghost invariant = { λ r. HasThreePlaces r.places × HasPlaces r.counter };
}

impl CounterRooms {
    /// Memory for the attributes of a Reauthentication response.
    fn new(alloc: Global) -> Result<CounterRooms, NoMemory> {
        Ok(CounterRooms {
            places: Places::new(alloc, 3)?,
            counter: Places::new(alloc, 2)?,
            encryption: EncryptionRoom::new(alloc)?,
        })
    }
}

/// Memory for the answer to a Reauthentication. Contracts see the copy of the request.
#[derive(Drop)]
pub(crate) struct ReauthRooms {
    pub(crate) counter: CounterRooms,
    pub(crate) code: Room,
    pub(crate) reply: Reply,
}

impl Model for ReauthRooms {
    ghost use Rattle.std.specs.Prelude.{ℕ, List};
    ghost use Rattle.auc_peer.specs.InnerRooms.{HasRoom};

    ghost Value = { List ℕ };

    ghost view = { λ r. r.reply };

    ghost invariant = { λ r. HasRoom r.code 32 };
}

impl ReauthRooms {
    /// Memory for the answer to a Reauthentication.
    pub(crate) fn new(alloc: Global, received: &Received) -> Result<ReauthRooms, NoMemory>
        ensures { IfOk result (λ rooms. rooms ≡ (seen_of received.now).bytes) }
    {
        Ok(ReauthRooms {
            code: Room::new(alloc, 32)?,
            counter: CounterRooms::new(alloc)?,
            reply: Reply::new(alloc, received)?,
        })
    }

    /// The memory for another message of the turn. The rest is given back.
    pub(crate) fn into_reply(self) -> Reply
        ensures { result ≡ self }
    {
        let ReauthRooms { reply, .. } = self;
        reply
    }
}

/// The network's name in a Challenge, and memory for what it has encrypted: only a Challenge that the USIM accepts needs them.
#[derive(Drop)]
pub(crate) struct Parts {
    pub(crate) network: Octets,
    pub(crate) inner: Room,
}

/// Gives these parts of a Challenge back.
pub(crate) fn give_back(_parts: Parts) {}
