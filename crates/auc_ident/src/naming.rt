//! Identities of subscribers.

ghost use Rattle.std.specs.Prelude.{◌≡◌, ◌+◌, ◌≤◌, ◌<◌, ◌==◌, [], length, position, IfSome};
ghost use Rattle.auc_ident.specs.Permanent.{leading, permanent_in, permanent_text, username, with_realm};

use crate::identity::{MOST, Permanent};
use auc_hmac::Method;
use auc_memory::{Imsi, Octets, Room};

/// The permanent identity of an IMSI: `0` for EAP-AKA (RFC 4187 §4.1.1.6) or `6` for EAP-AKA' (RFC 9048
/// §5.1), followed by all digits of the IMSI. It has no realm.
pub fn permanent(method: Method, imsi: Imsi) -> Permanent
    ensures { result ≡ permanent_text method imsi }
{
    let mut text = [leading(method); MOST];
    let size = 1 + usize::from(imsi.digits());
    imsi.put_digits(&mut text[1..size]);
    Permanent::front_of(text, size)
}

/// The IMSI whose permanent identity by the method a text is, or `None` if the text is no such identity. The text
/// has no realm: [`username`] takes the realm away.
pub fn permanent_in(method: Method, text: &[u8]) -> Option<Imsi>
    ensures { result ≡ permanent_in method text.now }
{
    match text {
        [first, digits @ ..] if *first == leading(method) => Imsi::read(digits),
        _ => None,
    }
}

/// The username of an identity: the text before the first `@` (RFC 4187 §4.1.1.1, RFC 4282 §2.1), and the whole text
/// if it has no `@`.
pub fn username(text: &[u8]) -> &[u8]
    ensures { result.now ≡ username text.now }
{
    match first_at(text) {
        None => text,
        Some(end) => &text[..end],
    }
}

/// A username, followed by `@` and the realm if there is one (RFC 4187 §4.1.1.5, RFC 4186 §4.2.1.5), in memory that was
/// taken before.
pub fn with_realm(name: &[u8], realm: &[u8], room: Room) -> Octets
    requires empty { room.written ≡ [] }
    requires room { length name.now + 1 + length realm.now ≤ room.left }
    ensures text { result ≡ with_realm name.now realm.now }
    ensures size { length result ≤ length name.now + 1 + length realm.now }
{
    let mut room = room;
    room.put(name);
    if realm.is_empty() {
        return room.into_octets();
    }
    room.put(b"@");
    room.put(realm);
    room.into_octets()
}

// The place of the first `@`.
fn first_at(text: &[u8]) -> Option<usize>
    ensures place { result ≡ position (λ byte. byte == 64) text.now }
    ensures within { IfSome result (λ place. place < length text.now) }
{
    text.iter().position(|byte| *byte == b'@')
}

// The ASCII code of the first digit of an identity of the method.
fn leading(method: Method) -> u8
    ensures { result ≡ leading method }
{
    match method {
        Method::Aka => b'0',
        Method::Prime => b'6',
    }
}
