//! Leases.

ghost use Rattle.std.specs.Prelude.{◌≡◌, ◌<◌, ◌≤◌, ◌↔◌, ◌+◌, ◌++◌, ◌∷◌, [], All, IsTrue, drop, length, slice_index};
ghost use Rattle.auc_sites.specs.Lease.{MayFollow};

use std::marker::Model;

/// How many numbers a lease has at most.
pub const LEASE_SIZE: u32 = 32;

/// Numbers that a master leases to a site: at most 32, each above those before it. Contracts see the list.
#[derive(Drop)]
pub struct Lease {
    numbers: [u64; 32],
    len: u32,
}

impl Model for Lease {
    ghost use Rattle.std.specs.Prelude.{◌≤◌, ℕ, List, take};
    ghost use Rattle.auc_sites.specs.Lease.{IsRising};

    ghost Value = { List ℕ };

    ghost view = { λ l. take l.len l.numbers };

    ghost invariant = { λ l. (l.len ≤ 32) × IsRising (take l.len l.numbers) };
}

impl Lease {
    /// A lease of no number.
    pub fn new() -> Lease
        ensures { result ≡ [] }
    {
        Lease {
            numbers: [0; 32],
            len: 0,
        }
    }

    /// How many numbers it has.
    pub fn len(&self) -> u32
        ensures value { result ≡ length self.now }
        ensures bound { result ≤ 32 }
    {
        self.len
    }

    /// Whether it has none.
    pub fn is_empty(&self) -> bool
        ensures { IsTrue result ↔ (self.now ≡ []) }
    {
        self.len == 0
    }

    /// The number at a place, from 0. Those behind it are above it.
    pub fn number(&self, i: u32) -> u64
        requires { i < length self.now }
        ensures value { result ≡ slice_index self.now i }
        ensures least { All (λ m. result < m) (drop (i + 1) self.now) }
    {
        self.numbers[i as usize]
    }

    /// Whether a number may follow those that it has.
    pub fn can_push(&self, n: u64) -> bool
        ensures { IsTrue result ↔ MayFollow self.now n }
    {
        self.len < LEASE_SIZE && (self.len == 0 || self.numbers[(self.len - 1) as usize] < n)
    }

    /// Adds a number behind those that it has.
    pub fn push(&mut self, n: u64)
        requires { MayFollow self.old n }
        ensures { self.new ≡ self.old ++ n ∷ [] }
    {
        self.numbers[self.len as usize] = n;
        self.len += 1;
    }

    /// Another lease of the same numbers.
    pub fn copy(&self) -> Lease
        ensures { result ≡ self.now }
    {
        Lease {
            numbers: self.numbers,
            len: self.len,
        }
    }
}
