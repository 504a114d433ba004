//! The text of a permanent identity.

ghost use Rattle.std.specs.Prelude.{◌≡◌, ◌≤◌, length, take};

use std::marker::Model;

// The leading digit and the 15 digits of an IMSI.
pub(crate) const MOST: usize = 16;

/// A permanent identity: 7 to 16 decimal digits. The first digit tells the method. Contracts see it as the
/// list of its bytes.
#[derive(Drop)]
pub struct Permanent {
    text: [u8; 16],
    size: usize,
}

impl Model for Permanent {
    ghost use Rattle.std.specs.Prelude.{ℕ, List, take, ◌≤◌};

    ghost Value = { List ℕ };

    ghost view = { λ p. take p.size p.text };

    ghost invariant = { λ p. p.size ≤ 16 };
}

impl Permanent {
    // The first `size` bytes of `text`.
    pub(crate) fn front_of(text: [u8; 16], size: usize) -> Permanent
        requires { size ≤ 16 }
        ensures { result ≡ take size text }
    {
        Permanent { text, size }
    }

    /// The bytes.
    pub fn as_slice(&self) -> &[u8]
        ensures bytes { result.now ≡ self.now }
        ensures size { length result.now ≤ 16 }
    {
        &self.text[..self.size]
    }
}
