//! Memory that is taken before it is written.

ghost use Rattle.std.specs.Prelude.{◌≡◌, ◌≤◌, ◌-◌, ◌++◌, [], ◌∷◌, length, IfOk};
ghost use Rattle.auc_memory.specs.Reserved.{Reserved, wrote};

use crate::no_memory::NoMemory;
use crate::octets::Octets;
use std::alloc::Global;
use std::marker::Model;

/// Memory for a string of bytes that is filled part by part. Contracts see the bytes so far and how
/// many more there is room for. Filling it takes no memory, so it never fails.
#[derive(Drop)]
pub struct Room {
    bytes: Vec<u8>,
    left: usize,
}

impl Model for Room {
    ghost use Rattle.std.specs.Prelude.{ℕ, ◌≤◌, ◌+◌};
    ghost use Rattle.std.specs.Vec.{vec_len, vec_capacity};
    ghost use Rattle.auc_memory.specs.Reserved.{Reserved};

    ghost Value = { Reserved ℕ };

    ghost view = { λ r. record { written = r.bytes.items; left = r.left } };

    ghost invariant = { λ r. vec_len r.bytes + r.left ≤ vec_capacity r.bytes };
}

impl Room {
    /// Memory for so many bytes, none of which is written yet.
    pub fn new(alloc: Global, size: usize) -> Result<Room, NoMemory>
        ensures { IfOk result (λ room. room ≡ record { written = []; left = size }) }
    {
        Ok(Room {
            bytes: Vec::with_capacity(alloc, size)?,
            left: size,
        })
    }

    /// How many more bytes there is room for.
    pub fn left(&self) -> usize
        ensures { result ≡ self.now.left }
    {
        self.left
    }

    /// The bytes that are written.
    pub fn as_slice(&self) -> &[u8]
        ensures { result.now ≡ self.now.written }
    {
        self.bytes.as_slice()
    }

    /// Appends bytes.
    pub fn put(&mut self, bytes: &[u8])
        requires { length bytes.now ≤ self.old.left }
        ensures { self.new ≡ wrote self.old bytes.now }
    {
        self.left -= bytes.len();
        match self.bytes.extend_from_slice(bytes) {
            Ok(()) => {}
            Err(_) => unreachable!(),
        }
    }

    /// The bytes that are written, as a string of bytes. The room that is left belongs to it.
    pub fn into_octets(self) -> Octets
        ensures { result ≡ self.written }
    {
        let Room { bytes, left: _ } = self;
        Octets::from_bytes(bytes)
    }
}
