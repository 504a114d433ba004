//! A turn of an end, with what its packet keeps: all memory is there before the centre or the USIM is asked.

ghost use Rattle.std.specs.Prelude.{◌≡◌, ◌≤◌, ℕ, [], length, max, IfOk, OnErr};
ghost use Rattle.auc_peer.specs.Subscription.{subscription_of};
ghost use Rattle.auc_peer.specs.Turn.{SendsLast, Steps as StepsPeer};
ghost use Rattle.auc_server.specs.Server.{challenged_of, resumed_of};
ghost use Rattle.auc_server.specs.Steps.{IsHeld, IsHeldToo, IsServed, OnlyAsks, Steps as StepsServer, bytes_of};
ghost use Rattle.auc_world.specs.Happened.{keys_won, sent_by};
ghost use Rattle.auc_world.specs.Net.{inputs_of_peer, inputs_of_server};
ghost use Rattle.auc_world.specs.World.{AreOfSame};

use crate::inputs::{PeerRooms, network_of, put_peer_inputs, put_server_inputs, server_inputs};
use crate::net::Inputs;
use crate::posting::put_sent;
use auc_hmac::KeySet;
use auc_memory::{NoMemory, Octets, Room};
use auc_peer::{Device, Peer, PeerWhy};
use auc_random::Rands;
use auc_server::{HomeRow, Server, ServerWhy, Setting};
use auc_vector::{Centre, Outcome, Step, Turn};
use std::alloc::Global;
use std::sync::Wait;

/// The greatest message that a server sends, the Challenge with a name of 255 bytes, a checkcode, a pseudonym and a
/// re-authentication identity with a realm of 255 bytes: 728 bytes.
const MOST: usize = 728;

/// The greatest message that a peer sends, an AKA-Identity response with a name and a realm of 255 bytes each: 526 bytes.
const LONGEST_ANSWER: usize = 526;

/// A turn of a server.
#[derive(Drop)]
pub(crate) struct Served {
    pub(crate) turn: Turn<ServerWhy>,
    /// What the server derives its keys from afterwards.
    pub(crate) inputs: Option<Inputs>,
    /// A copy of what it sent.
    pub(crate) sent: Option<Octets>,
    /// What it derived its keys from before.
    pub(crate) before: Option<Inputs>,
}

/// A turn of a peer.
#[derive(Drop)]
pub(crate) struct Taken {
    pub(crate) turn: Turn<PeerWhy>,
    /// What the peer derives its keys from afterwards.
    pub(crate) inputs: Option<Inputs>,
    /// A copy of what it sent.
    pub(crate) sent: Option<Octets>,
}

/// What a server's turn keeps, or memory for it.
#[derive(Drop)]
struct ServeRooms {
    /// For a copy of what the server sends.
    message: Room,
    /// For the identity that it derives its keys from afterwards.
    identity: Room,
    /// A copy of its network's name.
    name: Octets,
    /// What it derives its keys from before the turn.
    before: Option<Inputs>,
}

/// Takes the memory for what a server's turn with some bytes keeps.
fn serve_rooms(alloc: Global, server: &Server, bytes: &[u8]) -> Result<ServeRooms, NoMemory>
    ensures message { IfOk result (λ rooms. rooms.message ≡ record { written = []; left = 728 }) }
    ensures identity { IfOk result (λ rooms. rooms.identity
        ≡ record { written = []; left = max (length server.now.identity) (length bytes.now) }) }
    ensures name { IfOk result (λ rooms. rooms.name ≡ server.now.options.name) }
    ensures before { IfOk result (λ rooms. rooms.before ≡ inputs_of_server server.now) }
{
    Ok(ServeRooms {
        message: Room::new(alloc, MOST)?,
        identity: Room::new(alloc, server.identity().len().max(bytes.len()))?,
        name: network_of(alloc, server)?,
        before: server_inputs(alloc, server)?,
    })
}

/// Gives the memory of a turn back.
fn give_rooms_back(_rooms: ServeRooms) {}

/// A server's turn, with what it keeps in memory that was taken before.
fn put_served(rooms: ServeRooms, server: &Server, turn: Turn<ServerWhy>) -> Served
    requires message { rooms.message.written ≡ [] }
    requires enough { length (bytes_of turn.step) ≤ rooms.message.left }
    requires identity { rooms.identity.written ≡ [] }
    requires left { length server.now.identity ≤ rooms.identity.left }
    requires name { rooms.name ≡ server.now.options.name }
    ensures turn { result.turn ≡ turn }
    ensures inputs { result.inputs ≡ inputs_of_server server.now }
    ensures sent { result.sent ≡ sent_by turn.step }
    ensures before { result.before ≡ rooms.before }
{
    let ServeRooms {
        message,
        identity,
        name,
        before,
    } = rooms;
    let sent = put_sent(message, &turn.step);
    Served {
        turn,
        inputs: put_server_inputs(identity, name, server),
        sent,
        before,
    }
}

/// A server takes received bytes.
pub(crate) fn serve<C: Centre, R: Wait>(
    rt: &R,
    alloc: Global,
    set: &Setting,
    homes: &mut Vec<HomeRow>,
    centre: &mut C,
    server: &mut Server,
    bytes: &[u8],
) -> Result<Served, NoMemory>
    requires { IsServed set.now.rows (C.subs centre.old) (C.top centre.old) homes.old.items server.old }

    ensures step { IfOk result (λ t. StepsServer C.goes C.kept C.top set.now homes.old.items server.old bytes.now centre.old server.new t.turn homes.new.items centre.new) }
    ensures inputs { IfOk result (λ t. t.inputs ≡ inputs_of_server server.new) }
    ensures sent { IfOk result (λ t. t.sent ≡ sent_by t.turn.step) }
    ensures before { IfOk result (λ t. t.before ≡ inputs_of_server server.old) }
    ensures held { IsHeld homes.new.items (challenged_of server.new) }
    ensures resumed { IsHeldToo homes.new.items (resumed_of server.new) }
    ensures same { AreOfSame homes.old.items homes.new.items }
    ensures only { OnlyAsks C.subs C.top C.name centre.old centre.new }

    ensures server { OnErr result (server.new ≡ server.old) }
    ensures homes { OnErr result (homes.new.items ≡ homes.old.items) }
    ensures centre { OnErr result (centre.new ≡ centre.old) }
{
    let rooms = serve_rooms(alloc, server, bytes)?;
    match server.on_bytes(rt, set, homes.as_mut_slice(), centre, bytes) {
        Ok(turn) => Ok(put_served(rooms, server, turn)),
        Err(error) => {
            give_rooms_back(rooms);
            Err(error)
        }
    }
}

/// Memory for what a peer's turn keeps.
#[derive(Drop)]
struct AnswerRooms {
    /// For a copy of what the peer sends.
    message: Room,
    /// For the identity and the network's name that it derives its keys from.
    keys: PeerRooms,
}

/// Takes the memory for what a peer's turn keeps.
fn answer_rooms(alloc: Global) -> Result<AnswerRooms, NoMemory>
    ensures message { IfOk result (λ rooms. rooms.message ≡ record { written = []; left = 526 }) }
    ensures identity { IfOk result (λ rooms. rooms.keys.identity ≡ record { written = []; left = 511 }) }
    ensures name { IfOk result (λ rooms. rooms.keys.name ≡ record { written = []; left = 1016 }) }
{
    Ok(AnswerRooms {
        message: Room::new(alloc, LONGEST_ANSWER)?,
        keys: PeerRooms::new(alloc)?,
    })
}

/// Gives the memory of a turn back.
fn give_answer_rooms_back(_rooms: AnswerRooms) {}

/// A copy of what a peer's step sends, in memory that was taken before: the peer keeps it as its last answer.
fn put_answer(room: Room, peer: &Peer, step: &Step<PeerWhy>) -> Option<Octets>
    requires room { room ≡ record { written = []; left = 526 } }
    requires sent { SendsLast peer.now.last step.now }
    ensures { result ≡ sent_by step.now }
{
    match step {
        Step::Sent(_) => {
            let mut room = room;
            room.put(peer.last_answer());
            Some(room.into_octets())
        }
        Step::Ended(..) | Step::Ignored(_) => None,
    }
}

/// A turn of a subscriber's peer, with what it keeps in memory that was taken before.
fn put_taken(rooms: AnswerRooms, sub: u32, peer: &Peer, turn: Turn<PeerWhy>) -> Taken
    requires message { rooms.message ≡ record { written = []; left = 526 } }
    requires identity { rooms.keys.identity ≡ record { written = []; left = 511 } }
    requires name { rooms.keys.name ≡ record { written = []; left = 1016 } }
    requires sent { SendsLast peer.now.last turn.step }
    ensures turn { result.turn ≡ turn }
    ensures inputs { result.inputs ≡ inputs_of_peer sub peer.now }
    ensures sent { result.sent ≡ sent_by turn.step }
{
    let AnswerRooms { message, keys } = rooms;
    let sent = put_answer(message, peer, &turn.step);
    Taken {
        turn,
        inputs: put_peer_inputs(keys, sub, peer),
        sent,
    }
}

/// A subscriber's peer takes received bytes at its device.
pub(crate) fn answer(
    alloc: Global,
    rands: &Rands,
    device: &mut Device,
    sub: u32,
    peer: &mut Peer,
    bytes: &[u8],
) -> Result<Taken, NoMemory>
    ensures step { IfOk result (λ t. StepsPeer rands.now (subscription_of device.old) device.old.store peer.old bytes.now
        device.old.usim.array peer.new t.turn device.new.store device.new.usim.array) }
    ensures inputs { IfOk result (λ t. t.inputs ≡ inputs_of_peer sub peer.new) }
    ensures sent { IfOk result (λ t. t.sent ≡ sent_by t.turn.step) }
    ensures subscription { subscription_of device.new ≡ subscription_of device.old }
    ensures bits { device.new.usim.array.bits ≡ device.old.usim.array.bits }
    ensures age { device.new.usim.array.age ≡ device.old.usim.array.age }
    ensures peer { OnErr result (peer.new ≡ peer.old) }
    ensures device { OnErr result (device.new ≡ device.old) }
{
    let rooms = answer_rooms(alloc)?;
    match peer.on_bytes(alloc, rands, device, bytes) {
        Ok(turn) => Ok(put_taken(rooms, sub, peer, turn)),
        Err(error) => {
            give_answer_rooms_back(rooms);
            Err(error)
        }
    }
}

/// The keys of a peer after a step: those of Success, or those that it had.
pub(crate) fn keys_won(before: Option<KeySet>, step: &Step<PeerWhy>) -> Option<KeySet>
    ensures { result ≡ keys_won before step.now }
{
    match step {
        Step::Ended(Outcome::Success(keys), _) => Some(*keys),
        _ => before,
    }
}
