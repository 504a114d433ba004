//! Messages with their message authentication code.

ghost use Rattle.std.specs.Prelude.{◌≡◌, ◌+◌, ◌≤◌, ◌++◌, [], length, true, IsTrue, ◌↔◌};
ghost use Rattle.auc_attr.specs.Spelling.{spelling, writable};
ghost use Rattle.auc_memory.specs.Reserved.{wrote};
ghost use Rattle.auc_hmac.specs.Mac.{mac_of, no_mac};
ghost use Rattle.auc_packet.specs.InnerSealed.{front_of};
ghost use Rattle.auc_packet.specs.Sealed.{MayBeSealed, sealed, with_mac};
ghost use Rattle.auc_packet.specs.Spelling.{packet_text};

use crate::subtype::{Subtype, subtype_number};
use crate::writing::{message_code, put_head};
use auc_attr::{AttrList, put_attrs};
use auc_hmac::{MacInput, Method, mac_of, method_type};
use auc_memory::Room;

/// A message that is to be sealed: all that it has but its AT_MAC, which comes after its attributes.
#[derive(Drop)]
pub struct Draft {
    /// The method.
    pub method: Method,
    /// Whether it is a Request.
    pub request: bool,
    /// The Identifier.
    pub id: u8,
    /// The Subtype.
    pub subtype: Subtype,
    /// The attributes before AT_MAC.
    pub attrs: AttrList,
}

impl Draft {
    /// Whether the message may be written with AT_MAC: its attributes may be written, none of them is AT_MAC, and it
    /// then has at most 4096 bytes.
    pub fn writable(&self) -> bool
        ensures { IsTrue result ↔ MayBeSealed self.now }
    {
        if !self.attrs.writable() {
            return false;
        }
        if self.attrs.has(11) {
            return false;
        }
        self.attrs.is_within(4068)
    }
}

/// Writes a message with the right AT_MAC (RFC 4187 §10.15, RFC 9048 §3.4.2) into memory that was taken before this
/// call. The message authenticates `extra` besides the packet. The key of EAP-AKA is the first 16 bytes of `k_aut`,
/// that of EAP-AKA' all 32.
pub fn put_sealed(draft: &Draft, k_aut: &[u8; 32], extra: &[u8], room: &mut Room)
    requires writable { MayBeSealed draft.now }
    requires empty { room.old.written ≡ [] }
    requires room { length (packet_text (with_mac draft.now no_mac)) ≤ room.old.left }
    ensures { room.new ≡ wrote room.old (sealed k_aut.now extra.now draft.now) }
{
    put_front(draft, room);
    let mac = last_mac(draft.method, k_aut, room.as_slice(), extra);
    room.put(&mac);
}

/// Writes a message up to the value of its AT_MAC.
fn put_front(draft: &Draft, room: &mut Room)
    requires writable { writable draft.now.attrs ≡ true }
    requires small { 28 + length (spelling draft.now.attrs) ≤ 4096 }
    requires room { length (front_of draft.now) ≤ room.old.left }
    ensures { room.new ≡ wrote room.old (front_of draft.now) }
{
    let size = 28 + draft.attrs.size();
    put_head(room, message_code(draft.request), draft.id, size);
    room.put(&[
        method_type(draft.method),
        subtype_number(draft.subtype),
        0,
        0,
    ]);
    put_attrs(&draft.attrs, room);
    // AT_MAC's type, its length in units of 4 bytes, and two reserved bytes.
    room.put(&[11, 5, 0, 0]);
}

/// The value of the AT_MAC that ends a message.
fn last_mac(method: Method, k_aut: &[u8; 32], front: &[u8], extra: &[u8]) -> [u8; 16]
    ensures { result ≡ mac_of method k_aut.now (front.now ++ (no_mac ++ extra.now)) }
{
    let input = MacInput {
        front,
        back: &[],
        extra,
    };
    mac_of(method, k_aut, &input)
}
