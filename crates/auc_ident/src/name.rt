//! A name that is kept.

ghost use Rattle.std.specs.Prelude.{◌≡◌, ◌≤◌, length};
ghost use Rattle.auc_ident.specs.Name.{kept_name};

use crate::naming::username;
use std::marker::Model;

// The most bytes of a name that is kept.
const MOST: usize = 255;

/// A name that a server gave a subscriber and that is kept: a pseudonym (RFC 4187 §4.1.1.7) or a re-authentication identity
/// (§4.1.1.8) of 1 to 255 bytes, without its realm. It lies in the value itself, so that keeping it takes no memory. Contracts
/// see it as the list of its bytes.
#[derive(Clone, Copy, PartialEq, Eq)]
pub struct Name {
    text: [u8; 255],
    size: usize,
}

impl Model for Name {
    ghost use Rattle.std.specs.Prelude.{ℕ, List, length, take};
    ghost use Rattle.auc_ident.specs.InnerName.{IsPadded, padded};

    ghost Value = { List ℕ };

    ghost view = { λ name. take name.size name.text };

    ghost invariant = { λ name. IsPadded name.text name.size };

    ghost inverse = { λ name. record { text = padded name; size = length name } };

    ghost inverse_ok = { λ name h i. record { text = h.rest i; size = h.whole i } };
}

impl Name {
    /// The name of some bytes.
    pub fn new(bytes: &[u8]) -> Name
        requires some { 1 ≤ length bytes.now }
        requires short { length bytes.now ≤ 255 }
        ensures { result ≡ bytes.now }
    {
        let size = bytes.len();
        let mut text = [0; MOST];
        text[..size].copy_from_slice(bytes);
        Name { text, size }
    }

    /// What a device keeps of a name that a server gave: its username, if that has 1 to 255 bytes.
    pub fn kept(text: &[u8]) -> Option<Name>
        ensures { result ≡ kept_name text.now }
    {
        let name = username(text);
        if name.is_empty() || MOST < name.len() {
            return None;
        }
        Some(Name::new(name))
    }

    /// The bytes.
    pub fn as_slice(&self) -> &[u8]
        ensures bytes { result.now ≡ self.now }
        ensures some { 1 ≤ length result.now }
        ensures short { length result.now ≤ 255 }
    {
        &self.text[..self.size]
    }
}
