//! The ordinals of a subscriber's names.

ghost use Rattle.std.specs.Prelude.{◌≡◌, ◌≤◌, ◌+◌, MatchResult};
ghost use Rattle.auc_ident.specs.Ordinals.{last_ordinal};

use std::marker::Model;

/// The last ordinal of all, 2^48 - 1.
const LAST_ORDINAL: u64 = 281474976710655;

/// All ordinals of a subscriber are used.
#[derive(Clone, Copy, PartialEq, Eq)]
pub struct Spent;

/// The ordinals of a subscriber's names, of both kinds together: each is given once. Contracts see the last that was given,
/// 0 before the first.
#[derive(Clone, Copy, PartialEq, Eq)]
pub struct Ordinals {
    last: u64,
}

impl Model for Ordinals {
    ghost use Rattle.std.specs.Prelude.{ℕ, ◌≤◌};
    ghost use Rattle.auc_ident.specs.Ordinals.{last_ordinal};

    ghost Value = { ℕ };

    ghost view = { λ ordinals. ordinals.last };

    ghost inverse = { λ last. record { last = last } };

    ghost invariant = { λ ordinals. ordinals.last ≤ last_ordinal };
}

impl Ordinals {
    /// The ordinals after the last that was given.
    pub fn at(last: u64) -> Ordinals
        requires { last ≤ last_ordinal }
        ensures { result ≡ last }
    {
        Ordinals { last }
    }

    /// The next ordinal, or `Spent` if the last was 2^48 - 1.
    pub fn next(&mut self) -> Result<u64, Spent>
        ensures { MatchResult result
            (λ ordinal. (self.new ≡ ordinal) × (ordinal ≡ self.old + 1) × (ordinal ≤ last_ordinal))
            (λ spent. (self.new ≡ self.old) × (self.old ≡ last_ordinal)) }
    {
        if self.last == LAST_ORDINAL {
            return Err(Spent);
        }
        self.last += 1;
        Ok(self.last)
    }
}
