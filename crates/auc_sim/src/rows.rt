//! What a packet comes to at a peer, before any memory is taken.

ghost use Rattle.std.specs.Prelude.{◌≡◌, ◌≤◌, length};
ghost use Rattle.std.specs.Option.{option_copied};
ghost use Rattle.auc_sim.specs.InnerPeer.{HasRands, HasRandsIn, row_does};
ghost use Rattle.auc_sim.specs.Peer.{SimPeerState, is_last, offers_one, on_challenge, on_failure, on_packet, on_rands, on_request, on_success, on_versions, rands_in};
ghost use Rattle.auc_sim_packet.specs.Received.{IsSimReceived, SimSeen, sim_seen_of};

use crate::peer::{SimLast, SimPeer, SimWait};
use crate::several::{Several, cards, has_equal};
use auc_hmac::KeySet;
use auc_sim_packet::{
    SimList, SimPacket, SimReceived, has_mac, is_sim_sealed, rands_in, sim_keys, versions_in,
};
use auc_vector::{Outcome, SimWhy};

/// What a packet that isn't repeated comes to.
#[derive(Clone, Copy)]
pub(crate) enum Row<'a> {
    /// It is ignored.
    Ignore,
    /// Start of this Identifier, with these versions, is answered.
    Start(u8, &'a [u8]),
    /// A request of this Identifier is refused for a cause, with a code.
    Refuse(u8, SimWhy, u16),
    /// A Challenge of this Identifier is answered under these keys and triplets.
    Challenge(u8, KeySet, Several),
    /// The session ends so.
    End(Outcome<SimWhy>),
}

/// The row of a packet that isn't repeated.
pub(crate) fn row_of<'a>(peer: &SimPeer, received: &SimReceived, packet: &'a SimPacket) -> Row<'a>
    requires rands { HasRands packet.now }
    requires received { IsSimReceived (sim_seen_of received.now) }
    ensures { row_does peer.now (sim_seen_of received.now) result ≡ on_packet peer.now (sim_seen_of received.now) packet.now }
{
    match packet {
        SimPacket::Success(id) if is_last(&peer.last, *id) => success_row(&peer.at),
        SimPacket::Failure(id) if is_last(&peer.last, *id) => failure_row(&peer.at),
        SimPacket::Sim {
            request: _,
            id,
            subtype,
            attrs,
        } => request_row(peer, received, *id, *subtype, attrs),
        _ => Row::Ignore,
    }
}

/// Whether an Identifier is that of the request that was answered last.
fn is_last(last: &Option<SimLast>, id: u8) -> bool
    ensures { result ≡ is_last last.now id }
{
    match last {
        Some(last) => id == last.id,
        None => false,
    }
}

/// The row of Success of the last Identifier.
fn success_row(at: &SimWait) -> Row<'static>
    ensures { (p : SimPeerState) (seen : SimSeen) → row_does p seen result ≡ on_success p at.now }
{
    match at {
        SimWait::Answered(keys) => Row::End(Outcome::Success(*keys)),
        _ => Row::Ignore,
    }
}

/// The row of Failure of the last Identifier.
fn failure_row(at: &SimWait) -> Row<'static>
    ensures { (p : SimPeerState) (seen : SimSeen) → row_does p seen result ≡ on_failure p at.now }
{
    match at {
        SimWait::Refusing(why) => Row::End(Outcome::Failure(*why)),
        _ => Row::End(Outcome::Failure(SimWhy::FailureReceived)),
    }
}

/// The row of a request.
fn request_row<'a>(
    peer: &SimPeer,
    received: &SimReceived,
    id: u8,
    subtype: u8,
    attrs: &'a SimList,
) -> Row<'a>
    requires rands { HasRandsIn attrs.now }
    requires received { IsSimReceived (sim_seen_of received.now) }
    ensures { row_does peer.now (sim_seen_of received.now) result
        ≡ on_request peer.now peer.now.at (sim_seen_of received.now) id subtype attrs.now }
{
    match &peer.at {
        SimWait::WaitStart if subtype == 10 => start_row(id, versions_in(attrs)),
        SimWait::WaitChallenge(versions) if subtype == 11 => {
            challenge_row(peer, received, id, versions.as_slice(), attrs)
        }
        _ => Row::Ignore,
    }
}

/// The row of a Start request, by its AT_VERSION_LIST.
fn start_row(id: u8, versions: Option<&[u8]>) -> Row<'_>
    ensures { (p : SimPeerState) (seen : SimSeen) → row_does p seen result ≡ on_versions p seen id (option_copied versions.entry) }
{
    match versions {
        Some(versions) if offers_one(versions) => Row::Start(id, versions),
        Some(_) => Row::Refuse(id, SimWhy::Version, 1),
        None => Row::Ignore,
    }
}

/// Whether version 1 is among versions of two bytes each.
fn offers_one(versions: &[u8]) -> bool
    ensures { result ≡ offers_one versions.now }
{
    let mut rest = versions;
    while rest.len() >= 2 {
        if rest[0] == 0 && rest[1] == 1 {
            return true;
        }
        rest = &rest[2..];
    }
    false
}

/// The row of a Challenge request.
fn challenge_row(
    peer: &SimPeer,
    received: &SimReceived,
    id: u8,
    versions: &[u8],
    attrs: &SimList,
) -> Row<'static>
    requires rands { HasRandsIn attrs.now }
    requires received { IsSimReceived (sim_seen_of received.now) }
    ensures { row_does peer.now (sim_seen_of received.now) result
        ≡ on_challenge peer.now (sim_seen_of received.now) id versions.now attrs.now }
{
    if !has_mac(attrs) {
        return Row::Ignore;
    }
    match rands_in(attrs) {
        Some(rands) => rands_row(peer, received, id, versions, rands),
        None => Row::Ignore,
    }
}

/// The row of a Challenge request with AT_MAC and these RANDs.
fn rands_row(
    peer: &SimPeer,
    received: &SimReceived,
    id: u8,
    versions: &[u8],
    rands: &[u8],
) -> Row<'static>
    requires whole { 32 ≤ length rands.now }
    requires received { IsSimReceived (sim_seen_of received.now) }
    ensures { row_does peer.now (sim_seen_of received.now) result
        ≡ on_rands peer.now (sim_seen_of received.now) id versions.now (rands_in rands.now) }
{
    if has_equal(rands) {
        return Row::Refuse(id, SimWhy::NotFresh, 3);
    }
    let triplets = cards(&peer.secret, rands);
    let keys = sim_keys(
        peer.identity.as_slice(),
        triplets.as_slice(),
        peer.nonce,
        versions,
    );
    if is_sim_sealed(received, &keys.k_aut, &peer.nonce) {
        Row::Challenge(id, keys, triplets)
    } else {
        Row::Refuse(id, SimWhy::WrongMac, 0)
    }
}
