//! Strings of bytes.

ghost use Rattle.std.specs.Prelude.{◌≡◌, ◌++◌, length, take, IfOk, OnOk, OnErr, IsTrue, ◌↔◌, []};
ghost use Rattle.auc_memory.specs.Reserved.{Reserved};
ghost use Rattle.std.specs.Fmt.{decimal};

use crate::no_memory::NoMemory;
use crate::room::Room;
use std::alloc::Global;
use std::marker::Model;

/// A string of bytes that grows at its end. Contracts see it as the list of its bytes.
#[derive(Drop)]
pub struct Octets {
    bytes: Vec<u8>,
}

impl Model for Octets {
    ghost use Rattle.std.specs.Prelude.{ℕ, List};

    ghost Value = { List ℕ };

    ghost view = { λ o. o.bytes.items };
}

impl Octets {
    /// The empty string. It takes no memory yet.
    pub fn new(alloc: Global) -> Octets
        ensures { result ≡ [] }
    {
        Octets {
            bytes: Vec::new(alloc),
        }
    }

    /// A copy of some bytes, in memory of its own.
    pub fn copied_from(alloc: Global, bytes: &[u8]) -> Result<Octets, NoMemory>
        ensures { IfOk result (λ octets. octets ≡ bytes.now) }
    {
        Ok(Octets {
            bytes: bytes.to_vec(alloc)?,
        })
    }

    /// The string of the bytes of a vector.
    pub(crate) fn from_bytes(bytes: Vec<u8>) -> Octets
        ensures { result ≡ bytes.items }
    {
        Octets { bytes }
    }

    /// Memory of its own for so many bytes.
    pub fn room(&self, size: usize) -> Result<Room, NoMemory>
        ensures { IfOk result (λ room. room ≡ record { written = []; left = size }) }
    {
        Room::new(*self.bytes.allocator(), size)
    }

    /// How many bytes there are.
    pub fn len(&self) -> usize
        ensures { result ≡ length self.now }
    {
        self.bytes.len()
    }

    /// Whether there is no byte.
    pub fn is_empty(&self) -> bool
        ensures { IsTrue result ↔ (self.now ≡ []) }
    {
        self.bytes.is_empty()
    }

    /// The bytes.
    pub fn as_slice(&self) -> &[u8]
        ensures { result.now ≡ self.now }
    {
        self.bytes.as_slice()
    }

    /// Appends bytes. If memory runs out, nothing is appended.
    pub fn append(&mut self, bytes: &[u8]) -> Result<(), NoMemory>
        ensures appended { OnOk result (self.new ≡ self.old ++ bytes.now) }
        ensures kept { OnErr result (self.new ≡ self.old) }
    {
        self.bytes.extend_from_slice(bytes)?;
        Ok(())
    }

    /// Appends the decimal digits of a number, without leading zeros. If memory runs out, nothing is
    /// appended.
    pub fn append_number(&mut self, number: u64) -> Result<(), NoMemory>
        ensures appended { OnOk result (self.new ≡ self.old ++ decimal number) }
        ensures kept { OnErr result (self.new ≡ self.old) }
    {
        let text = number.to_string(*self.bytes.allocator())?;
        self.append(text.as_bytes())
    }

    /// Drops all but the first `count` bytes. If there are fewer, all stay.
    pub fn truncate(&mut self, count: usize)
        ensures { self.new ≡ take count self.old }
    {
        self.bytes.truncate(count);
    }
}
