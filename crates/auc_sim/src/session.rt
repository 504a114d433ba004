//! A session: both ends, and the packets between them.

ghost use Rattle.std.specs.Prelude.{◌≡◌, ◌<◌, ◌≤◌, ◌+◌, ◌*◌, ◌^◌, ◌++◌, ◌-◌, List, length, IfOk, OnOk};
ghost use Rattle.auc_lines.specs.Sim.{IsSchedule};
ghost use Rattle.auc_lines.specs.declared.sim.SimSchedule.TheVariants.{Plain, Steps};
ghost use Rattle.auc_sim.specs.Session.{SimRuns, made_in, other};
ghost use Rattle.auc_sim.specs.SessionParts.{Finishes, Follows, Tells};

use crate::net::Net;
use auc_lines::{End, SimDelivery, SimSchedule};
use auc_memory::{Items, NoMemory};
use auc_milenage::Secret;
use auc_sim_packet::Triplet;
use auc_vector::{SimBecame, SimNote};
use std::alloc::Global;

/// Runs a session, and says what happens in it: the server has the triplets, the peer a USIM with the secret, and both the
/// identity, of at most 1016 bytes; the nonce is the peer's NONCE_MT.
pub fn run_session(
    alloc: Global,
    identity: &[u8],
    triplets: &[Triplet],
    secret: &Secret,
    nonce: [u8; 16],
    schedule: &SimSchedule,
) -> Result<Items<SimNote>, NoMemory>
    requires least { 2 ≤ length triplets.now }
    requires most { length triplets.now ≤ 3 }
    requires short { length identity.now ≤ 1016 }
    requires few { IsSchedule schedule.now }
    ensures { IfOk result (λ notes. SimRuns
        (record { identity = identity.now; triplets = triplets.now; secret = secret.now; nonce = nonce }) schedule.now notes) }
{
    let (mut net, first) = Net::start(alloc, identity, triplets, secret, nonce)?;
    let mut notes = Items::new(alloc);
    notes.push(SimNote::Started(first))?;
    deliver_scheduled(alloc, &mut net, schedule, &mut notes)?;
    finish(&net, &mut notes)?;
    Ok(notes)
}

/// The end at the other side.
fn other(end: End) -> End
    ensures { result ≡ other end }
{
    match end {
        End::Server => End::Peer,
        End::Peer => End::Server,
    }
}

/// Delivers a packet, and adds the note of it. The answer is the number of the packet that was made, if one was.
fn tell(
    alloc: Global,
    net: &mut Net,
    d: SimDelivery,
    notes: &mut Items<SimNote>,
) -> Result<Option<u32>, NoMemory>
    requires { length net.old.packets < 2 ^ 32 - 1 }
    ensures { IfOk result (λ made. Tells net.old d notes.old made net.new notes.new) }
{
    let became = net.deliver(alloc, d)?;
    let made = made_in(&became);
    notes.push(SimNote::Delivered {
        end: d.end,
        packet: d.packet,
        became,
    })?;
    Ok(made)
}

/// The number of the packet that a delivery made, if it made one.
fn made_in(became: &SimBecame) -> Option<u32>
    ensures { result ≡ made_in became.now }
{
    match became {
        SimBecame::NoSuchPacket => None,
        SimBecame::Did { sent, .. } => *sent,
    }
}

/// Delivers the packets of some deliveries, and adds the notes of them.
fn deliver_all(
    alloc: Global,
    net: &mut Net,
    deliveries: &[SimDelivery],
    notes: &mut Items<SimNote>,
) -> Result<(), NoMemory>
    requires { length net.old.packets + length deliveries.now < 2 ^ 32 }
    ensures { OnOk result (Follows net.old (Steps deliveries.now) notes.old net.new notes.new) }
{
    for d in deliveries {
        tell(alloc, net, *d, notes)?;
    }
    Ok(())
}

/// Delivers packet 1 to the peer, and each packet that follows to the other end, until one makes none.
fn deliver_plain(alloc: Global, net: &mut Net, notes: &mut Items<SimNote>) -> Result<(), NoMemory>
    requires { length net.old.packets ≤ 1 }
    ensures { OnOk result (Follows net.old Plain notes.old net.new notes.new) }
{
    let mut to = End::Peer;
    let mut next = Some(1);
    while let Some(packet) = next {
        next = tell(alloc, net, SimDelivery { end: to, packet }, notes)?;
        to = other(to);
    }
    Ok(())
}

/// Makes the deliveries of a schedule, and adds the notes of them.
fn deliver_scheduled(
    alloc: Global,
    net: &mut Net,
    schedule: &SimSchedule,
    notes: &mut Items<SimNote>,
) -> Result<(), NoMemory>
    requires first { length net.old.packets ≤ 1 }
    requires few { IsSchedule schedule.now }
    ensures { OnOk result (Follows net.old schedule.now notes.old net.new notes.new) }
{
    match schedule {
        SimSchedule::Plain => deliver_plain(alloc, net, notes),
        SimSchedule::Steps(all) => deliver_all(alloc, net, all.as_slice(), notes),
    }
}

/// Adds the note of a session in which both ends ended in Success, if they did.
fn finish(net: &Net, notes: &mut Items<SimNote>) -> Result<(), NoMemory>
    ensures { OnOk result (Finishes net.now notes.old notes.new) }
{
    match (net.server_keys(), net.peer_keys()) {
        (Some(server), Some(peer)) => notes.push(SimNote::Ended {
            agree: server == peer,
        }),
        _ => Ok(()),
    }
}
