//! Lists of records.

ghost use Rattle.std.specs.Prelude.{◌≡◌, ◌++◌, [], ◌∷◌, length, IsTrue, ◌↔◌, OnOk, OnErr, IfNone, slice_get};
ghost use Rattle.std.specs.Option.{option_copied, option_to_list};

use crate::no_memory::NoMemory;
use std::alloc::Global;
use std::marker::Model;

/// A list that grows and shrinks at its end. Contracts see it as the list of its items.
#[derive(Drop)]
pub struct Items<T> {
    all: Vec<T>,
}

impl<T> Model for Items<T> {
    ghost use Rattle.std.specs.Prelude.{List};

    ghost Value = { List T };

    ghost view = { λ l. l.all.items };
}

impl<T> Items<T> {
    /// The empty list. It takes no memory yet.
    pub fn new(alloc: Global) -> Items<T>
        ensures { result ≡ [] }
    {
        Items {
            all: Vec::new(alloc),
        }
    }

    /// The list of the items of a vector.
    pub(crate) fn from_vec(all: Vec<T>) -> Items<T>
        ensures { result ≡ all.items }
    {
        Items { all }
    }

    /// How many items there are.
    pub fn len(&self) -> usize
        ensures { result ≡ length self.now }
    {
        self.all.len()
    }

    /// Whether there is no item.
    pub fn is_empty(&self) -> bool
        ensures { IsTrue result ↔ (self.now ≡ []) }
    {
        self.all.is_empty()
    }

    /// The items.
    pub fn as_slice(&self) -> &[T]
        ensures { result.now ≡ self.now }
    {
        self.all.as_slice()
    }

    /// The item at a place, counted from 0, or `None` if the list is shorter.
    pub fn get(&self, place: usize) -> Option<&T>
        ensures { option_copied result ≡ slice_get self.now place }
    {
        self.all.get(place)
    }

    /// Removes the last item, or answers `None` if there is none.
    pub fn pop(&mut self) -> Option<T>
        ensures popped { self.old ≡ self.new ++ option_to_list result }
        ensures none { IfNone result (self.old ≡ []) }
    {
        self.all.pop()
    }
}

impl<T: Drop> Items<T> {
    /// Appends an item. If memory runs out, the item is dropped and the list stays as it was.
    pub fn push(&mut self, item: T) -> Result<(), NoMemory>
        ensures pushed { OnOk result (self.new ≡ self.old ++ item ∷ []) }
        ensures kept { OnErr result (self.new ≡ self.old) }
    {
        self.all.push(item)?;
        Ok(())
    }
}
