//! What ends derive their keys from, and whether a delivery breaks the premise that a right MAC is of a packet that was sent
//! with the same inputs.

ghost use Rattle.std.specs.Prelude.{◌≡◌, ◌≤◌, ◌&&◌, [], length, Some, IfOk};
ghost use Rattle.std.specs.Str.{bytes_eq};
ghost use Rattle.auc_world.specs.Net.{inputs_of_context, inputs_of_peer, inputs_of_server, inputs_sent, is_sender, judged, other, same_challenge, same_end, same_fast, same_full, same_inputs, same_fast_keys, same_master, same_method, share_inputs, was_sent};

use crate::net::{FastInputs, FullInputs, Inputs, SentPacket};
use auc_hmac::{Master, Method};
use auc_lines::End;
use auc_memory::{NoMemory, Octets, Room};
use auc_peer::{Challenge, Peer, Source};
use auc_reauth::Context;
use auc_record::{Breach, copy_of};
use auc_server::{Challenged, Resumed, Server};
use auc_vector::Vector;
use std::alloc::Global;

/// What an end derives its keys from in a re-authentication with a context.
fn inputs_of_context(method: Method, sub: u32, identity: Octets, context: Context) -> FastInputs
    ensures { result ≡ inputs_of_context method sub identity context }
{
    let Context {
        k_encr,
        k_aut,
        master,
        ..
    } = context;
    FastInputs {
        method,
        sub,
        identity,
        k_encr,
        k_aut,
        master,
    }
}

/// What a server derives its keys from, by its last challenge and its re-authentication.
fn inputs_sent(
    method: Method,
    name: Octets,
    identity: Octets,
    challenged: Option<Challenged>,
    resumed: Option<Resumed>,
) -> Option<Inputs>
    ensures { result ≡ inputs_sent method name identity challenged resumed }
{
    if let Some(Challenged { sub, vector, .. }) = challenged {
        let Vector { rand, autn, .. } = vector;
        return Some(Inputs::Full(FullInputs {
            method,
            name,
            sub,
            rand,
            autn,
            identity,
        }));
    }
    let Resumed { sub, context, .. } = resumed?;
    Some(Inputs::Fast(inputs_of_context(method, sub, identity, context)))
}

/// What a server derives its keys from, in memory that was taken before, with a copy of its network's name.
pub(crate) fn put_server_inputs(room: Room, name: Octets, server: &Server) -> Option<Inputs>
    requires empty { room.written ≡ [] }
    requires left { length server.now.identity ≤ room.left }
    requires name { name ≡ server.now.options.name }
    ensures { result ≡ inputs_of_server server.now }
{
    let mut room = room;
    room.put(server.identity());
    inputs_sent(
        server.options().method,
        name,
        room.into_octets(),
        server.challenged(),
        server.resumed(),
    )
}

/// A copy of the name of a server's network.
pub(crate) fn network_of(alloc: Global, server: &Server) -> Result<Octets, NoMemory>
    ensures { IfOk result (λ name. name ≡ server.now.options.name) }
{
    copy_of(alloc, &server.options().name)
}

/// What a server derives its keys from.
pub(crate) fn server_inputs(alloc: Global, server: &Server) -> Result<Option<Inputs>, NoMemory>
    ensures { IfOk result (λ inputs. inputs ≡ inputs_of_server server.now) }
{
    let room = Room::new(alloc, server.identity().len())?;
    let name = network_of(alloc, server)?;
    Ok(put_server_inputs(room, name, server))
}

/// Memory for the texts that a peer derives its keys from: its identity, and the name of its network.
#[derive(Drop)]
pub(crate) struct PeerRooms {
    pub(crate) identity: Room,
    pub(crate) name: Room,
}

impl PeerRooms {
    /// Memory for the longest identity and the longest name.
    pub(crate) fn new(alloc: Global) -> Result<PeerRooms, NoMemory>
        ensures identity { IfOk result (λ rooms. rooms.identity ≡ record { written = []; left = 511 }) }
        ensures name { IfOk result (λ rooms. rooms.name ≡ record { written = []; left = 1016 }) }
    {
        Ok(PeerRooms {
            identity: Room::new(alloc, 511)?,
            name: Room::new(alloc, 1016)?,
        })
    }
}

/// What a subscriber's peer derives its keys from, in memory that was taken before.
pub(crate) fn put_peer_inputs(rooms: PeerRooms, sub: u32, peer: &Peer) -> Option<Inputs>
    requires identity { rooms.identity ≡ record { written = []; left = 511 } }
    requires name { rooms.name ≡ record { written = []; left = 1016 } }
    ensures { result ≡ inputs_of_peer sub peer.now }
{
    let PeerRooms { identity, name } = rooms;
    let identity = text_in(identity, peer.identity());
    let method = peer.method();
    match peer.source() {
        Source::Nothing => None,
        Source::Challenge(challenge, network) => {
            let Challenge { rand, autn } = *challenge;
            Some(Inputs::Full(FullInputs {
                method,
                name: text_in(name, network.as_slice()),
                sub,
                rand,
                autn,
                identity,
            }))
        }
        Source::Context(context) => Some(Inputs::Fast(inputs_of_context(
            method, sub, identity, *context,
        ))),
    }
}

/// A text in memory that was taken before.
fn text_in(room: Room, text: &[u8]) -> Octets
    requires empty { room.written ≡ [] }
    requires left { length text.now ≤ room.left }
    ensures { result ≡ text.now }
{
    let mut room = room;
    room.put(text);
    room.into_octets()
}

/// Whether an end sends to another.
fn sends_to(end: End, to: End) -> bool
    ensures { result ≡ same_end end (other to) }
{
    match (end, to) {
        (End::Server, End::Peer) | (End::Peer, End::Server) => true,
        (End::Server, End::Server) | (End::Peer, End::Peer) => false,
    }
}

/// Whether the sender of a packet, if it has one, sends to an end.
fn was_sent_to(sender: Option<End>, to: End) -> bool
    ensures { result ≡ is_sender sender (other to) }
{
    match sender {
        Some(end) => sends_to(end, to),
        None => false,
    }
}

fn same_method(a: Method, b: Method) -> bool
    ensures { result ≡ same_method a b }
{
    match (a, b) {
        (Method::Aka, Method::Aka) | (Method::Prime, Method::Prime) => true,
        (Method::Aka, Method::Prime) | (Method::Prime, Method::Aka) => false,
    }
}

fn same_challenge(a: &FullInputs, b: &FullInputs) -> bool
    ensures { result ≡ same_challenge a.now b.now }
{
    a.sub == b.sub
        && (a.rand.as_slice() == b.rand.as_slice()
            && (a.autn.as_slice() == b.autn.as_slice()
                && a.identity.as_slice() == b.identity.as_slice()))
}

fn same_full(a: &FullInputs, b: &FullInputs) -> bool
    ensures { result ≡ same_full a.now b.now }
{
    same_method(a.method, b.method)
        && (a.name.as_slice() == b.name.as_slice() && same_challenge(a, b))
}

fn same_master(a: Master, b: Master) -> bool
    ensures { result ≡ same_master a b }
{
    match (a, b) {
        (Master::Aka(a), Master::Aka(b)) => a.as_slice() == b.as_slice(),
        (Master::Prime(a), Master::Prime(b)) => a.as_slice() == b.as_slice(),
        (Master::Aka(_), Master::Prime(_)) | (Master::Prime(_), Master::Aka(_)) => false,
    }
}

fn same_fast_keys(a: &FastInputs, b: &FastInputs) -> bool
    ensures { result ≡ same_fast_keys a.now b.now }
{
    a.k_encr.as_slice() == b.k_encr.as_slice()
        && (a.k_aut.as_slice() == b.k_aut.as_slice() && same_master(a.master, b.master))
}

fn same_fast(a: &FastInputs, b: &FastInputs) -> bool
    ensures { result ≡ same_fast a.now b.now }
{
    a.sub == b.sub
        && (same_method(a.method, b.method)
            && (a.identity.as_slice() == b.identity.as_slice() && same_fast_keys(a, b)))
}

fn same_inputs(a: &Inputs, b: &Inputs) -> bool
    ensures { result ≡ same_inputs a.now b.now }
{
    match (a, b) {
        (Inputs::Full(a), Inputs::Full(b)) => same_full(a, b),
        (Inputs::Fast(a), Inputs::Fast(b)) => same_fast(a, b),
        (Inputs::Full(_), Inputs::Fast(_)) | (Inputs::Fast(_), Inputs::Full(_)) => false,
    }
}

fn share_inputs(a: &Option<Inputs>, b: &Option<Inputs>) -> bool
    ensures { result ≡ share_inputs a.now b.now }
{
    match (a, b) {
        (Some(a), Some(b)) => same_inputs(a, b),
        _ => false,
    }
}

/// Whether a packet was sent to an end of a role, with these inputs and bytes.
fn is_sent(packet: &SentPacket, to: End, inputs: &Option<Inputs>, bytes: &[u8]) -> bool
    ensures { result ≡ (is_sender packet.now.sender (other to)
        && (share_inputs packet.now.inputs inputs.now && bytes_eq packet.now.bytes bytes.now)) }
{
    was_sent_to(packet.sender, to)
        && (share_inputs(&packet.inputs, inputs) && packet.bytes.as_slice() == bytes)
}

/// Whether one of some packets was. The newest are looked at first.
fn was_sent(packets: &[SentPacket], to: End, inputs: &Option<Inputs>, bytes: &[u8]) -> bool
    ensures { result ≡ was_sent (other to) inputs.now bytes.now packets.now }
{
    let mut left = packets.len();
    while left > 0 {
        left -= 1;
        if is_sent(&packets[left], to, inputs, bytes) {
            return true;
        }
    }
    false
}

/// The first breach of the premise, with a delivery of some bytes in which an end found a right MAC or not. The packet that
/// was delivered is looked at first: it nearly always was sent so.
pub(crate) fn judged(
    packets: &[SentPacket],
    broken: Option<Breach>,
    checked: bool,
    inputs: &Option<Inputs>,
    bytes: &[u8],
    delivery: Breach,
) -> Option<Breach>
    requires first { 1 ≤ delivery.packet }
    requires last { delivery.packet ≤ length packets.now }
    ensures { result ≡ judged packets.now broken
        (Some (record { checked = checked; inputs = inputs.now; bytes = bytes.now; delivery = delivery })) }
{
    if broken.is_some() || !checked {
        return broken;
    }
    let to = delivery.end;
    let near = delivery.packet as usize - 1;
    if is_sent(&packets[near], to, inputs, bytes) || was_sent(packets, to, inputs, bytes) {
        return None;
    }
    Some(delivery)
}
