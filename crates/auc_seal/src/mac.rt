//! The message authentication code of a packet.

ghost use Rattle.std.specs.Prelude.{◌≡◌, ℕ, ◌+◌, ◌≤◌, length, Some};
ghost use Rattle.auc_aes.specs.Bytes.{with_block};
ghost use Rattle.auc_attr.specs.Frame.{length_of};
ghost use Rattle.auc_attr.specs.Laws.{AreBytes};
ghost use Rattle.auc_attr.specs.Mac.{IsMacPlace};
ghost use Rattle.auc_seal.specs.Mac.{right_mac, IsRight, Checks};

use auc_aes::{block_at, put_block};
use auc_attr::{length_of, mac_place};
use auc_hmac::{Method, mac_at};

/// The result of checking a packet's message authentication code.
#[derive(Clone, Copy, Debug, PartialEq, Eq)]
pub enum Mac {
    /// The value is right.
    Right,
    /// The value isn't right.
    Wrong,
    /// The bytes have a fault or no AT_MAC.
    Absent,
}

/// Checks the value of a packet's AT_MAC (RFC 4187 §10.15, RFC 9048 §3.4.2). The right value is the first 16
/// bytes of the method's HMAC over the packet, with the value zero, followed by `extra`. Bytes past Length
/// don't count. The key of EAP-AKA is the first 16 bytes of `k_aut`, that of EAP-AKA' all 32. Takes no
/// memory.
pub fn check_mac(method: Method, k_aut: &[u8; 32], packet: &[u8], extra: &[u8]) -> Mac
    ensures { Checks method k_aut.now packet.now extra.now result }
{
    let Some(place) = mac_place(packet) else {
        return Mac::Absent;
    };
    if block_at(packet, place) == right_mac(method, k_aut, packet, place, extra) {
        Mac::Right
    } else {
        Mac::Wrong
    }
}

/// Sets the value of a packet's AT_MAC to the right one, and no other byte. Takes no memory.
pub fn seal_mac(method: Method, k_aut: &[u8; 32], packet: &mut [u8], extra: &[u8])
    requires { (place : ℕ) × IsMacPlace packet.old (Some place) }

    ensures right { IsRight method k_aut.now packet.new extra.now }
    ensures kept { (place : ℕ) → IsMacPlace packet.old (Some place)
        → packet.new
        ≡ with_block packet.old place (right_mac method k_aut.now packet.old place extra.now) }
{
    if let Some(place) = mac_place(packet) {
        let mac = right_mac(method, k_aut, packet, place, extra);
        put_block(packet, place, mac);
    }
}

// The right value for a packet. The clause `bytes` is for a caller that then changes the packet.
fn right_mac(
    method: Method,
    k_aut: &[u8; 32],
    packet: &[u8],
    place: usize,
    extra: &[u8],
) -> [u8; 16]
    requires within { place + 16 ≤ length_of packet.now }
    requires given { length_of packet.now ≤ length packet.now }
    ensures value { result ≡ right_mac method k_aut.now packet.now place extra.now }
    ensures bytes { AreBytes packet.now }
{
    mac_at(method, k_aut, length_of(packet), packet, place, extra)
}
