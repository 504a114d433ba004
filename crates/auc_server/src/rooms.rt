//! Memory for a turn.

ghost use Rattle.std.specs.Prelude.{◌≡◌, IfOk};
ghost use Rattle.auc_server.specs.InnerRooms.{HasPlaces, IsFresh};

use auc_attr::Attr;
use auc_memory::{NoMemory, Octets, Places, Room};
use auc_seal::EncryptionRoom;
use std::alloc::Global;
use std::marker::Model;

/// The greatest request that a server sends, the Challenge of EAP-AKA' with a name of 255 bytes, a checkcode, a pseudonym and
/// a re-authentication identity with a realm of 255 bytes.
const MOST: usize = 728;

/// How many attributes a Challenge has at most beside AT_MAC.
const ATTRIBUTES: usize = 7;

/// How many bytes a pseudonym has.
const PSEUDONYM: usize = 33;

/// How many bytes a re-authentication identity has at most, with its realm.
const IDENTITY: usize = 289;

/// How many attributes a message encrypts at most.
const INNER: usize = 3;

/// How many bytes a checkcode has at most.
const CHECKCODE: usize = 32;

/// Memory for a message. Contracts see no value of it.
#[derive(Drop)]
pub(crate) struct MessageRoom {
    room: Room,
}

impl Model for MessageRoom {
    ghost use Rattle.auc_server.specs.InnerRooms.{IsFresh};

    ghost Value = { Unit {0} };

    ghost view = { λ _. tt };

    ghost invariant = { λ r. IsFresh r.room };
}

/// Memory for a request: the message, its copy and its attributes. Contracts see no value of it.
#[derive(Drop)]
pub(crate) struct RequestRooms {
    pub(crate) message: Room,
    pub(crate) kept: Room,
    pub(crate) attrs: Places<Attr>,
}

impl Model for RequestRooms {
    ghost use Rattle.auc_server.specs.InnerRooms.{HasPlaces, IsFresh};

    ghost Value = { Unit {0} };

    ghost view = { λ _. tt };

    ghost invariant = { λ r. IsFresh r.message × IsFresh r.kept × HasPlaces r.attrs };
}

/// Memory for what is encrypted: a re-authentication identity, the list of the attributes, and their encryption. Contracts
/// see no value of it.
#[derive(Drop)]
pub(crate) struct HiddenRooms {
    pub(crate) identity: Room,
    pub(crate) inner: Places<Attr>,
    pub(crate) encryption: EncryptionRoom,
}

impl Model for HiddenRooms {
    ghost use Rattle.auc_server.specs.InnerRooms.{HasInner, IsFreshIdentity};

    ghost Value = { Unit {0} };

    ghost view = { λ _. tt };

    ghost invariant = { λ r. IsFreshIdentity r.identity × HasInner r.inner };
}

/// Memory for a Reauthentication: a request, a checkcode, and what is encrypted. Contracts see no value of it.
#[derive(Drop)]
pub(crate) struct ReauthRooms {
    pub(crate) check: Room,
    pub(crate) request: RequestRooms,
    pub(crate) hidden: HiddenRooms,
}

impl Model for ReauthRooms {
    ghost use Rattle.auc_server.specs.InnerRooms.{IsFreshCheck};

    ghost Value = { Unit {0} };

    ghost view = { λ _. tt };

    ghost invariant = { λ r. IsFreshCheck r.check };
}

/// Memory for a Challenge: that of a Reauthentication, a pseudonym, and the network name for its attributes. Contracts see
/// the name.
#[derive(Drop)]
pub(crate) struct ChallengeRooms {
    pub(crate) name: Octets,
    pub(crate) text: Room,
    pub(crate) rest: ReauthRooms,
}

impl Model for ChallengeRooms {
    ghost use Rattle.std.specs.Prelude.{ℕ, List};
    ghost use Rattle.auc_server.specs.InnerRooms.{IsFreshName};

    ghost Value = { List ℕ };

    ghost view = { λ r. r.name };

    ghost invariant = { λ r. IsFreshName r.text };
}

/// Memory for a message.
pub(crate) fn message_room(alloc: Global) -> Result<Room, NoMemory>
    ensures { IfOk result (λ room. IsFresh room) }
{
    Room::new(alloc, MOST)
}

/// Places for the attributes of a message.
pub(crate) fn attr_places(alloc: Global) -> Result<Places<Attr>, NoMemory>
    ensures { IfOk result (λ places. HasPlaces places) }
{
    Places::new(alloc, ATTRIBUTES)
}

impl MessageRoom {
    /// Memory for a message.
    pub(crate) fn new(alloc: Global) -> Result<MessageRoom, NoMemory> {
        Ok(MessageRoom {
            room: message_room(alloc)?,
        })
    }

    /// The memory.
    pub(crate) fn into_room(self) -> Room
        ensures { IsFresh result }
    {
        let MessageRoom { room } = self;
        room
    }
}

impl RequestRooms {
    /// Memory for a request.
    pub(crate) fn new(alloc: Global) -> Result<RequestRooms, NoMemory> {
        Ok(RequestRooms {
            message: message_room(alloc)?,
            kept: message_room(alloc)?,
            attrs: attr_places(alloc)?,
        })
    }
}

impl HiddenRooms {
    /// Memory for what is encrypted.
    fn new(alloc: Global) -> Result<HiddenRooms, NoMemory> {
        Ok(HiddenRooms {
            identity: Room::new(alloc, IDENTITY)?,
            inner: Places::new(alloc, INNER)?,
            encryption: EncryptionRoom::new(alloc)?,
        })
    }
}

impl ReauthRooms {
    /// Memory for a Reauthentication.
    pub(crate) fn new(alloc: Global) -> Result<ReauthRooms, NoMemory> {
        Ok(ReauthRooms {
            check: Room::new(alloc, CHECKCODE)?,
            request: RequestRooms::new(alloc)?,
            hidden: HiddenRooms::new(alloc)?,
        })
    }

    /// The memory for a request. The rest is given back.
    pub(crate) fn into_request(self) -> RequestRooms {
        let ReauthRooms { request, .. } = self;
        request
    }
}

impl ChallengeRooms {
    /// Memory for a Challenge, with a copy of the network name.
    pub(crate) fn new(alloc: Global, name: &[u8]) -> Result<ChallengeRooms, NoMemory>
        ensures { IfOk result (λ rooms. rooms ≡ name.now) }
    {
        Ok(ChallengeRooms {
            name: Octets::copied_from(alloc, name)?,
            text: Room::new(alloc, PSEUDONYM)?,
            rest: ReauthRooms::new(alloc)?,
        })
    }

    /// The memory for a request. The rest is given back.
    pub(crate) fn into_request(self) -> RequestRooms {
        let ChallengeRooms { rest, .. } = self;
        rest.into_request()
    }
}
