//! The place of the message authentication code in a packet.

ghost use Rattle.std.specs.Prelude.{◌≡◌, ◌+◌, ◌^◌, ◌<◌, ◌≤◌, length, IfSome};
ghost use Rattle.auc_attr.specs.Frame.{length_of};
ghost use Rattle.auc_attr.specs.Inner.{place_or};
ghost use Rattle.auc_attr.specs.Mac.{IsMacAmongIn, IsMacPlaceIn, IsMacPlace};

use crate::frame::{Framed, read_frame_in};
use crate::front::item_at;
use crate::seen::Seen;
use crate::table::Table;

/// The place of the first of the 16 bytes of AT_MAC's value (RFC 4187 §10.15) in a packet, or `None` if
/// the bytes have a fault or no AT_MAC. Takes no memory.
pub fn mac_place(packet: &[u8]) -> Option<usize>
    ensures place { IsMacPlace packet.now result }
    ensures within { IfSome result (λ place. place + 16 ≤ length_of packet.now) }
    ensures given { IfSome result (λ place. length_of packet.now ≤ length packet.now) }
{
    mac_place_in(Table::Aka, packet)
}

/// The same by a table (RFC 4187 §10.15, RFC 4186 §10.14). Takes no memory.
pub fn mac_place_in(table: Table, packet: &[u8]) -> Option<usize>
    ensures place { IsMacPlaceIn table packet.now result }
    ensures within { IfSome result (λ place. place + 16 ≤ length_of packet.now) }
    ensures given { IfSome result (λ place. length_of packet.now ≤ length packet.now) }
{
    match read_frame_in(table, packet) {
        Ok(Framed::Message { attrs, .. }) => mac_among(table, attrs),
        _ => None,
    }
}

/// The place in a packet whose attributes these bytes are.
fn mac_among(table: Table, attrs: &[u8]) -> Option<usize>
    ensures place { IsMacAmongIn table attrs.now result }
    ensures within { IfSome result (λ place. place + 16 ≤ 8 + length attrs.now) }
{
    let mut place = None;
    let mut seen = Seen::new();
    let mut rest = attrs;
    while !rest.is_empty() {
        let found = match item_at(table, seen.is_marked(rest[0]), rest) {
            Ok(found) => found,
            Err(_) => return None,
        };
        place = place_or(place, found.kind, 8 + (attrs.len() - rest.len()));
        seen.mark(found.kind);
        rest = found.rest;
    }
    place
}

/// The place that was found before, or that in an attribute which begins at `start`.
fn place_or(place: Option<usize>, kind: u8, start: usize) -> Option<usize>
    requires { start + 4 < 2 ^ 64 }
    ensures { result ≡ place_or place kind start }
{
    match place {
        Some(_) => place,
        None if kind == 11 => Some(start + 4),
        None => None,
    }
}
