//! The names that a server makes for subscribers.

ghost use Rattle.std.specs.Prelude.{◌≡◌, ◌<◌, ◌≤◌, ◌^◌, length, drop, IfSome};
ghost use Rattle.auc_ident.specs.Names.{name_block, name_digit, name_text, named, named_in, names_key, resolved, kind_byte};

use crate::naming::username;
use auc_aes::Key;
use auc_hmac::{Method, method_type};
use auc_random::Rands;
use std::marker::Model;

/// The stream of the key of the names, 2^40.
const NAMES_STREAM: u64 = 1099511627776;

/// A kind of name that a server makes.
#[derive(Clone, Copy)]
pub enum NameKind {
    /// A pseudonym (RFC 4187 §4.1.1.7).
    Pseudonym,
    /// A re-authentication identity (RFC 4187 §4.1.1.8).
    Reauth,
}

/// The names of a home network's subscribers: a name is a leading digit and one block of AES in hexadecimal digits, so
/// whoever has the key finds the subscriber of each name that was ever made. Contracts see the key's 16 bytes.
#[derive(Drop)]
pub struct Names {
    key: Key,
}

impl Model for Names {
    ghost use Rattle.std.specs.Prelude.{ℕ, List};

    ghost Value = { List ℕ };

    ghost view = { λ names. names.key };
}

impl Names {
    /// The names under a key of random bytes.
    pub fn new(key: [u8; 32]) -> Names
        ensures { result ≡ names_key key }
    {
        Names {
            key: Key::new(Rands::new(key).sixteen_at(NAMES_STREAM, 0)),
        }
    }

    /// The name of a subscriber's ordinal: 33 ASCII characters, without a realm.
    pub fn text(&self, kind: NameKind, method: Method, sub: u32, ordinal: u64) -> [u8; 33]
        requires { ordinal < 2 ^ 48 }
        ensures { result ≡ name_text self.now kind method sub ordinal }
    {
        let block = self.key.encrypt(name_block(kind, method, sub, ordinal));
        let mut text = [name_digit(kind, method); 33];
        if hex::encode_to_slice(block, &mut text[1..]).is_err() {
            unreachable!();
        }
        text
    }

    /// The subscriber and the ordinal whose name of this kind and method a text is, up to its first `@`; `None` exactly if
    /// no subscriber's number and ordinal have that name.
    #[tactic(auto, unfolding(crate::specs::Names::resolved))]
    pub fn resolve(&self, kind: NameKind, method: Method, text: &[u8]) -> Option<(u32, u64)>
        ensures found { result ≡ resolved self.now kind method text.now }
        ensures ordinal { IfSome result (λ of. of.1 < 2 ^ 48) }
    {
        let name = username(text);
        let (sub, ordinal) = self.named(name)?;
        if self.text(kind, method, sub, ordinal).as_slice() == name {
            Some((sub, ordinal))
        } else {
            None
        }
    }

    /// The subscriber and the ordinal that a text names, if it is a name.
    fn named(&self, name: &[u8]) -> Option<(u32, u64)>
        ensures named { result ≡ named self.now name.now }
        ensures ordinal { IfSome result (λ of. of.1 < 2 ^ 48) }
    {
        let digits = if name.is_empty() { name } else { &name[1..] };
        let mut block = [0; 16];
        match hex::decode_to_slice(digits, &mut block) {
            Ok(()) => Some(named_in(self.key.decrypt(block))),
            Err(_) => None,
        }
    }
}

/// The leading digit of a name.
fn name_digit(kind: NameKind, method: Method) -> u8
    ensures { result ≡ name_digit kind method }
{
    match (kind, method) {
        (NameKind::Pseudonym, Method::Aka) => b'2',
        (NameKind::Reauth, Method::Aka) => b'4',
        (NameKind::Pseudonym, Method::Prime) => b'7',
        (NameKind::Reauth, Method::Prime) => b'8',
    }
}

/// The byte of a kind.
fn kind_byte(kind: NameKind) -> u8
    ensures { result ≡ kind_byte kind }
{
    match kind {
        NameKind::Pseudonym => 1,
        NameKind::Reauth => 2,
    }
}

/// What a name tells: kind, the method's EAP type, subscriber and ordinal.
#[tactic(auto, unfolding(crate::specs::Names::name_block))]
fn name_block(kind: NameKind, method: Method, sub: u32, ordinal: u64) -> [u8; 16]
    ensures { result ≡ name_block kind method sub ordinal }
{
    let [s0, s1, s2, s3] = sub.to_be_bytes();
    let [_, _, o0, o1, o2, o3, o4, o5] = ordinal.to_be_bytes();
    [
        kind_byte(kind),
        method_type(method),
        s0,
        s1,
        s2,
        s3,
        o0,
        o1,
        o2,
        o3,
        o4,
        o5,
        0,
        0,
        0,
        0,
    ]
}

/// The subscriber and the ordinal in a block.
fn named_in(block: [u8; 16]) -> (u32, u64)
    ensures value { result ≡ named_in block }
    ensures ordinal { result.1 < 2 ^ 48 }
{
    let [_, _, s0, s1, s2, s3, o0, o1, o2, o3, o4, o5, _, _, _, _] = block;
    let sub = u32::from_be_bytes([s0, s1, s2, s3]);
    let ordinal = u64::from_be_bytes([0, 0, o0, o1, o2, o3, o4, o5]);
    (sub, ordinal)
}
