//! Places of a list that are taken before they are filled.

ghost use Rattle.std.specs.Prelude.{◌≡◌, ◌<◌, ◌-◌, ◌++◌, [], ◌∷◌, length, IfOk};
ghost use Rattle.auc_memory.specs.Reserved.{Reserved, wrote};

use crate::items::Items;
use crate::no_memory::NoMemory;
use std::alloc::Global;
use std::marker::Model;

/// Memory for a list that is filled item by item. Contracts see the items so far and how many more
/// there are places for; filling it takes no memory, so it never fails.
#[derive(Drop)]
pub struct Places<T> {
    all: Vec<T>,
    left: usize,
}

impl<T> Model for Places<T> {
    ghost use Rattle.std.specs.Prelude.{ℕ, ◌≤◌, ◌+◌};
    ghost use Rattle.std.specs.Vec.{vec_len, vec_capacity};
    ghost use Rattle.auc_memory.specs.Reserved.{Reserved};

    ghost Value = { Reserved T };

    ghost view = { λ p. record { written = p.all.items; left = p.left } };

    ghost invariant = { λ p. vec_len p.all + p.left ≤ vec_capacity p.all };
}

impl<T> Places<T> {
    /// Places for so many items, none of which is there yet.
    pub fn new(alloc: Global, size: usize) -> Result<Places<T>, NoMemory>
        ensures { IfOk result (λ places. places ≡ record { written = []; left = size }) }
    {
        Ok(Places {
            all: Vec::with_capacity(alloc, size)?,
            left: size,
        })
    }

    /// How many more items there are places for.
    pub fn left(&self) -> usize
        ensures { result ≡ self.now.left }
    {
        self.left
    }

    /// Appends an item.
    pub fn put(&mut self, item: T)
        requires { 0 < self.old.left }
        ensures { self.new ≡ wrote self.old (item ∷ []) }
    {
        self.left -= 1;
        self.all.push_reserved(item);
    }

    /// The items that are there, as a list. The places that are left belong to it.
    pub fn into_items(self) -> Items<T>
        ensures { result ≡ self.written }
    {
        let Places { all, left: _ } = self;
        Items::from_vec(all)
    }
}
