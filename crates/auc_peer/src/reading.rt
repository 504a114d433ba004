//! What a received packet has.

ghost use Rattle.std.specs.Prelude.{◌≡◌, ◌≤◌, true, [], length, Some};
ghost use Rattle.std.specs.Option.{option_copied};
ghost use Rattle.auc_packet.specs.Messages.{is_missing};
ghost use Rattle.auc_packet.specs.Received.{IsReceived, attrs_in, seen_of};
ghost use Rattle.auc_packet.specs.declared.subtype.Subtype.TheVariants as subtype;
ghost use Rattle.auc_seal.specs.Encrypted.{ciphertext_of};
ghost use Rattle.auc_request.specs.Request.{name_in};
ghost use Rattle.auc_peer.specs.Attributes.{checkcode, id_of, is_there};
ghost use Rattle.auc_peer.specs.Table.{network_of};
ghost use Rattle.auc_peer.specs.Turn.{IsInner};

use crate::decrypted::Decrypted;
use auc_attr::are_bytes;
use auc_hmac::Method;
use auc_memory::{Octets, Room};
use auc_packet::{
    Packet, Reading, Received, Subtype, attrs_in, head, is_missing, read_packets_may_be_written,
};
use auc_request::{checkcode_in, enclosed_in, name_in};
use auc_seal::open_attrs;

/// The network's name in a received Challenge, empty for EAP-AKA.
pub(crate) fn network_in<'a>(method: Method, received: &'a Received) -> &'a [u8]
    requires { IsReceived (seen_of received.now) }
    ensures name { result.now ≡ network_of method (attrs_in received.now.reading) }
    ensures size { length result.now ≤ 1016 }
{
    match method {
        Method::Aka => &[],
        Method::Prime => received_name(received),
    }
}

/// The network's name in a received message, empty if there is none.
fn received_name<'a>(received: &'a Received) -> &'a [u8]
    requires { IsReceived (seen_of received.now) }
    ensures name { result.now ≡ name_in (attrs_in received.now.reading) }
    ensures size { length result.now ≤ 1016 }
{
    read_packets_may_be_written();
    are_bytes(received.bytes);
    name_in(attrs_in(&received.reading))
}

/// The Identifier.
pub(crate) fn id_of(received: &Received) -> u8
    ensures { result ≡ id_of (seen_of received.now) }
{
    match head(received.bytes) {
        None => 0,
        Some(head) => head.id,
    }
}

/// The value of a message's AT_CHECKCODE.
pub(crate) fn checkcode<'a>(received: &'a Received) -> Option<&'a Octets>
    ensures { option_copied result ≡ checkcode (seen_of received.now) }
{
    checkcode_in(attrs_in(&received.reading))
}

/// Whether a message has AT_CHECKCODE.
pub(crate) fn has_checkcode(received: &Received) -> bool
    ensures { result ≡ is_there (checkcode (seen_of received.now)) }
{
    match checkcode(received) {
        None => false,
        Some(_) => true,
    }
}

/// Whether a Reauthentication lacks an attribute that it must have (RFC 4187 §9.7).
pub(crate) fn lacks_reauthentication(reading: &Reading) -> bool
    ensures { result ≡ is_missing subtype.Reauthentication true (attrs_in reading.now) }
{
    match reading {
        Reading::Read(Packet::Aka { attrs, .. }) => {
            is_missing(Subtype::Reauthentication, true, attrs)
        }
        _ => true,
    }
}

/// What a message has encrypted under K_encr.
pub(crate) fn inner_in(k_encr: [u8; 16], reading: &Reading, room: Room) -> Decrypted
    requires empty { room.written ≡ [] }
    requires room { length (ciphertext_of (attrs_in reading.now)) ≤ room.left }
    ensures { IsInner k_encr (attrs_in reading.now) result }
{
    match open_attrs(k_encr, attrs_in(reading), room) {
        Ok(bytes) => Decrypted::Attributes(enclosed_in(bytes.as_slice())),
        Err(_) => Decrypted::Unreadable,
    }
}
