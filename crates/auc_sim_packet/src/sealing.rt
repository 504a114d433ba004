//! Messages with their message authentication code.

ghost use Rattle.std.specs.Prelude.{◌≡◌, ◌+◌, ◌≤◌, ◌++◌, [], length, true, IfOk};
ghost use Rattle.auc_memory.specs.Reserved.{wrote};
ghost use Rattle.auc_hmac.specs.Mac.{mac_of, no_mac};
ghost use Rattle.auc_hmac.specs.declared.method.Method.TheVariants as method;
ghost use Rattle.auc_sim_packet.specs.InnerSealed.{front_of};
ghost use Rattle.auc_sim_packet.specs.Sealed.{MayBeSealedSim, sim_sealed};
ghost use Rattle.auc_sim_packet.specs.Spelling.{spelling, writable};

use crate::attr_list::SimList;
use crate::writing::{message_code, put_attrs, put_head, size_of_attrs};
use auc_hmac::{MacInput, Method, mac_of};
use auc_memory::{NoMemory, Octets, Room};
use std::alloc::Global;

/// A message that is to be sealed: all that it has but its AT_MAC, which comes after its attributes.
#[derive(Drop)]
pub struct SimDraft {
    /// Whether it is a Request.
    pub request: bool,
    /// The Identifier.
    pub id: u8,
    /// The Subtype.
    pub subtype: u8,
    /// The attributes before AT_MAC.
    pub attrs: SimList,
}

/// The bytes of a message with the right AT_MAC (RFC 4186 §10.14). The message authenticates `extra` besides the
/// packet. The key is the first 16 bytes of `k_aut`.
pub fn sealed_sim(
    alloc: Global,
    draft: &SimDraft,
    k_aut: &[u8; 32],
    extra: &[u8],
) -> Result<Octets, NoMemory>
    requires { MayBeSealedSim draft.now }
    ensures { IfOk result (λ bytes. bytes ≡ sim_sealed k_aut.now extra.now draft.now) }
{
    let mut room = Room::new(alloc, 28 + size_of_attrs(&draft.attrs))?;
    put_front(draft, &mut room);
    let mac = last_mac(k_aut, room.as_slice(), extra);
    room.put(&mac);
    Ok(room.into_octets())
}

/// Writes a message up to the value of its AT_MAC.
fn put_front(draft: &SimDraft, room: &mut Room)
    requires writable { writable draft.now.attrs ≡ true }
    requires small { 28 + length (spelling draft.now.attrs) ≤ 4096 }
    requires room { length (front_of draft.now) ≤ room.old.left }
    ensures { room.new ≡ wrote room.old (front_of draft.now) }
{
    let size = 28 + size_of_attrs(&draft.attrs);
    put_head(room, message_code(draft.request), draft.id, size);
    room.put(&[18, draft.subtype, 0, 0]);
    put_attrs(&draft.attrs, room);
    // AT_MAC's type, its length in units of 4 bytes, and two reserved bytes.
    room.put(&[11, 5, 0, 0]);
}

/// The value of the AT_MAC that ends a message.
fn last_mac(k_aut: &[u8; 32], front: &[u8], extra: &[u8]) -> [u8; 16]
    ensures { result ≡ mac_of method.Aka k_aut.now (front.now ++ (no_mac ++ extra.now)) }
{
    let input = MacInput {
        front,
        back: &[],
        extra,
    };
    mac_of(Method::Aka, k_aut, &input)
}
