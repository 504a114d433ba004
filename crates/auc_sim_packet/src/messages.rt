//! The messages that both ends send (RFC 4186 §9), in memory of their own.

ghost use Rattle.std.specs.Prelude.{◌≡◌, ◌≤◌, ◌*◌, ◌∷◌, [], length, flat_map, IfOk};
ghost use Rattle.auc_sim_packet.specs.Keys.{rand_in};
ghost use Rattle.auc_sim_packet.specs.Messages.{client_error, request_bytes, response_bytes, start_request, start_response, version_one};
ghost use Rattle.auc_sim_packet.specs.Spelling.{MayBeWrittenSim, sim_text};
ghost use Rattle.auc_sim_packet.specs.declared.attr.SimAttr.TheVariants as attr;

use crate::attr::SimAttr;
use crate::attr_list::SimList;
use crate::joined::{all_rands, all_sres};
use crate::packet::SimPacket;
use crate::parts::Triplet;
use crate::sealing::{SimDraft, sealed_sim};
use crate::writing::write_sim;
use auc_memory::{NoMemory, Octets};
use std::alloc::Global;

/// The bytes of a packet.
fn written(alloc: Global, packet: &SimPacket) -> Result<Octets, NoMemory>
    requires { MayBeWrittenSim packet.now }
    ensures { IfOk result (λ bytes. bytes ≡ sim_text packet.now) }
{
    let mut out = Octets::new(alloc);
    write_sim(packet, &mut out)?;
    Ok(out)
}

/// A list of one attribute.
fn one(alloc: Global, attr: SimAttr) -> Result<SimList, NoMemory>
    ensures { IfOk result (λ list. list ≡ attr ∷ []) }
{
    let mut list = SimList::new(alloc);
    list.push(attr)?;
    Ok(list)
}

/// The Start request (RFC 4186 §9.1): it asks for the permanent identity and lists version 1. It has Identifier 1.
pub fn start_request(alloc: Global) -> Result<Octets, NoMemory>
    ensures { IfOk result (λ bytes. bytes ≡ sim_text start_request) }
{
    let attrs = start_request_attrs(alloc)?;
    let packet = SimPacket::Sim {
        request: true,
        id: 1,
        subtype: 10,
        attrs,
    };
    written(alloc, &packet)
}

fn start_request_attrs(alloc: Global) -> Result<SimList, NoMemory>
    ensures { IfOk result (λ list. list ≡ attr.PermanentIdReq ∷ attr.VersionList version_one ∷ []) }
{
    let versions = Octets::copied_from(alloc, &[0, 1])?;
    let mut attrs = one(alloc, SimAttr::PermanentIdReq)?;
    attrs.push(SimAttr::VersionList(versions))?;
    Ok(attrs)
}

/// The Start response (RFC 4186 §9.2) with NONCE_MT and an identity of at most 1016 bytes: it selects version 1.
pub fn start_response(
    alloc: Global,
    id: u8,
    nonce: [u8; 16],
    identity: &[u8],
) -> Result<Octets, NoMemory>
    requires { length identity.now ≤ 1016 }
    ensures { IfOk result (λ bytes. bytes ≡ sim_text (start_response id nonce identity.now)) }
{
    let attrs = start_response_attrs(alloc, nonce, identity)?;
    let packet = SimPacket::Sim {
        request: false,
        id,
        subtype: 10,
        attrs,
    };
    written(alloc, &packet)
}

fn start_response_attrs(
    alloc: Global,
    nonce: [u8; 16],
    identity: &[u8],
) -> Result<SimList, NoMemory>
    ensures { IfOk result (λ list. list ≡ attr.NonceMt nonce ∷ attr.SelectedVersion 1 ∷ attr.Identity identity.now ∷ []) }
{
    let identity = Octets::copied_from(alloc, identity)?;
    let mut attrs = one(alloc, SimAttr::NonceMt(nonce))?;
    attrs.push(SimAttr::SelectedVersion(1))?;
    attrs.push(SimAttr::Identity(identity))?;
    Ok(attrs)
}

/// The Challenge request (RFC 4186 §9.3) with the RANDs of two or three triplets. Its AT_MAC authenticates NONCE_MT besides, and
/// it has Identifier 2.
pub fn challenge_request(
    alloc: Global,
    k_aut: &[u8; 32],
    nonce: [u8; 16],
    triplets: &[Triplet],
) -> Result<Octets, NoMemory>
    requires least { 2 ≤ length triplets.now }
    requires most { length triplets.now ≤ 3 }
    ensures { IfOk result (λ bytes. bytes ≡ request_bytes k_aut.now nonce triplets.now) }
{
    let attrs = challenge_attrs(alloc, triplets)?;
    let draft = SimDraft {
        request: true,
        id: 2,
        subtype: 11,
        attrs,
    };
    sealed_sim(alloc, &draft, k_aut, &nonce)
}

fn challenge_attrs(alloc: Global, triplets: &[Triplet]) -> Result<SimList, NoMemory>
    requires { length triplets.now ≤ 3 }
    ensures list { IfOk result (λ list. list ≡ attr.Rand (flat_map rand_in triplets.now) ∷ []) }
    ensures size { length (flat_map rand_in triplets.now) ≡ 16 * length triplets.now }
{
    let rands = all_rands(triplets);
    let value = Octets::copied_from(alloc, &rands[..16 * triplets.len()])?;
    one(alloc, SimAttr::Rand(value))
}

/// The Challenge response (RFC 4186 §9.4). Its AT_MAC authenticates the SRES values of the triplets besides.
pub fn challenge_response(
    alloc: Global,
    id: u8,
    k_aut: &[u8; 32],
    triplets: &[Triplet],
) -> Result<Octets, NoMemory>
    requires { length triplets.now ≤ 3 }
    ensures { IfOk result (λ bytes. bytes ≡ response_bytes id k_aut.now triplets.now) }
{
    let draft = SimDraft {
        request: false,
        id,
        subtype: 11,
        attrs: SimList::new(alloc),
    };
    let sres = all_sres(triplets);
    sealed_sim(alloc, &draft, k_aut, &sres[..4 * triplets.len()])
}

/// Client-Error with a code (RFC 4186 §9.7).
pub fn client_error(alloc: Global, id: u8, code: u16) -> Result<Octets, NoMemory>
    ensures { IfOk result (λ bytes. bytes ≡ sim_text (client_error id code)) }
{
    let attrs = one(alloc, SimAttr::ClientErrorCode(code))?;
    let packet = SimPacket::Sim {
        request: false,
        id,
        subtype: 14,
        attrs,
    };
    written(alloc, &packet)
}
