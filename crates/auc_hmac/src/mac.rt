//! The value of AT_MAC.

ghost use Rattle.std.specs.Prelude.{◌≡◌, ◌+◌, ◌≤◌, length, take};
ghost use Rattle.auc_hmac.specs.Hmac.{hmac_sha1, hmac_sha256};
ghost use Rattle.auc_hmac.specs.Mac.{mac_of, mac_at, input_text};

use crate::hmac_sha1::HmacSha1;
use crate::hmac_sha256::HmacSha256;
use crate::method::Method;
use crate::piece::piece_of;

/// What the value of AT_MAC authenticates, in consecutive pieces. 16 zero bytes stand in place of the value, between
/// the first two.
#[derive(Clone, Copy)]
pub struct MacInput<'a> {
    /// The packet up to the value.
    pub front: &'a [u8],
    /// The packet after the value, as far as Length counts.
    pub back: &'a [u8],
    /// Further bytes that the message authenticates.
    pub extra: &'a [u8],
}

/// The value of AT_MAC over pieces (RFC 4187 §10.15, RFC 9048 §3.4.2): the first 16 bytes of the method's HMAC.
/// The key of EAP-AKA is the first 16 bytes of `k_aut`, that of EAP-AKA' all 32.
pub fn mac_of(method: Method, k_aut: &[u8; 32], input: &MacInput) -> [u8; 16]
    ensures { result ≡ mac_of method k_aut.now (input_text input.now) }
{
    match method {
        Method::Aka => mac_sha1(&k_aut[..16], input),
        Method::Prime => mac_sha256(k_aut, input),
    }
}

/// The right value of the AT_MAC whose value begins at a place of a packet. The packet has as many bytes as Length
/// counts, its size; those after them don't count.
pub fn mac_at(
    method: Method,
    k_aut: &[u8; 32],
    size: usize,
    packet: &[u8],
    place: usize,
    extra: &[u8],
) -> [u8; 16]
    requires within { place + 16 ≤ size }
    requires given { size ≤ length packet.now }
    ensures { result ≡ mac_at method k_aut.now size packet.now place extra.now }
{
    let input = MacInput {
        front: &packet[..place],
        back: &packet[place + 16..size],
        extra,
    };
    mac_of(method, k_aut, &input)
}

// HMAC-SHA1-128.
fn mac_sha1(key: &[u8], input: &MacInput) -> [u8; 16]
    ensures { result ≡ take 16 (hmac_sha1 key.now (input_text input.now)) }
{
    let mut mac = HmacSha1::new(key);
    mac.update(input.front);
    mac.update(&[0; 16]);
    mac.update(input.back);
    mac.update(input.extra);
    piece_of(&mac.finish(), 0)
}

// HMAC-SHA-256-128.
fn mac_sha256(key: &[u8], input: &MacInput) -> [u8; 16]
    ensures { result ≡ take 16 (hmac_sha256 key.now (input_text input.now)) }
{
    let mut mac = HmacSha256::new(key);
    mac.update(input.front);
    mac.update(&[0; 16]);
    mac.update(input.back);
    mac.update(input.extra);
    piece_of(&mac.finish(), 0)
}
