//! The AKA-Identity packets of a session, and their checkcode.

ghost use Rattle.std.specs.Prelude.{◌≡◌, IfOk, OnOk};
ghost use Rattle.auc_packet.specs.Received.{IsReceived, seen_of};
ghost use Rattle.auc_seal.specs.Checkcode.{IsHash};
ghost use Rattle.auc_server.specs.InnerRooms.{IsFreshCheck};
ghost use Rattle.auc_server.specs.Rounds.{checkcode, heard};
ghost use Rattle.auc_server.specs.Table.{identity_asked};

use crate::messages::aka_identity;
use crate::plan::Request;
use crate::rooms::RequestRooms;
use crate::server::Server;
use auc_hmac::Method;
use auc_memory::{NoMemory, Octets, Room};
use auc_packet::{Packet, Reading, Received, Subtype, packet_in};
use auc_request::IdentityRequest;
use auc_seal::IdentityPackets;
use std::alloc::Global;

/// The value of AT_CHECKCODE (RFC 4187 §10.13, RFC 9048 §3.4.3).
#[tactic(auto, unfolding(crate::specs::Rounds::checkcode))]
pub(crate) fn checkcode(method: Method, packets: &IdentityPackets, room: Room) -> Octets
    requires { IsFreshCheck room }
    ensures value { result ≡ checkcode method packets.now }
    ensures size { IsHash result }
{
    let value = packets.value(method);
    let mut room = room;
    room.put(value.as_slice());
    room.into_octets()
}

/// Counts what was received, if it is an AKA-Identity message.
pub(crate) fn hear(
    alloc: Global,
    packets: &mut IdentityPackets,
    received: &Received,
) -> Result<(), NoMemory>
    requires { IsReceived (seen_of received.now) }
    ensures { OnOk result (packets.new ≡ heard packets.old received.now.bytes.now received.now.reading) }
{
    match &received.reading {
        Reading::Read(
            Packet::Aka {
                subtype: Subtype::Identity,
                ..
            },
        ) => packets.add(alloc, packet_in(received.bytes)),
        _ => Ok(()),
    }
}

impl Server {
    /// The AKA-Identity request that is sent next.
    pub(crate) fn identity_asked(&self, kind: IdentityRequest) -> Result<Request, NoMemory>
        ensures { IfOk result (λ request. request ≡ identity_asked self.now kind) }
    {
        let RequestRooms {
            message,
            kept,
            attrs,
        } = RequestRooms::new(self.alloc)?;
        let id = self.id.wrapping_add(1);
        Ok(Request {
            bytes: aka_identity(self.options.method, id, kind, attrs, message),
            kept,
        })
    }
}
