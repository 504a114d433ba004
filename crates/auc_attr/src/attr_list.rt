//! Lists of attributes.

ghost use Rattle.std.specs.Prelude.{◌≡◌, ◌≤◌, ◌++◌, [], ◌∷◌, ◌<◌, length, true, IfOk, OnOk, OnErr, slice_get};
ghost use Rattle.std.specs.Option.{option_copied};
ghost use Rattle.auc_attr.specs.Item.{has};
ghost use Rattle.auc_memory.specs.Reserved.{Reserved};

use crate::attr::Attr;
use auc_memory::{Items, NoMemory, Places};
use std::alloc::Global;
use std::marker::Model;

/// Attributes in their order. Contracts see the list of them.
#[derive(Drop)]
pub struct AttrList {
    attrs: Items<Attr>,
}

impl Model for AttrList {
    ghost use Rattle.std.specs.Prelude.{List};
    ghost use Rattle.auc_attr.specs.declared.attr.Attr.{Attr};

    ghost Value = { List Attr };

    ghost view = { λ l. l.attrs };
}

impl AttrList {
    /// The empty list. It takes no memory yet.
    pub fn new(alloc: Global) -> AttrList
        ensures { result ≡ [] }
    {
        AttrList {
            attrs: Items::new(alloc),
        }
    }

    /// The list of the attributes that were put into places.
    pub fn from_places(places: Places<Attr>) -> AttrList
        ensures { result ≡ places.written }
    {
        AttrList {
            attrs: places.into_items(),
        }
    }

    /// The list of one attribute, in a place that was taken before.
    pub fn one(attr: Attr, places: Places<Attr>) -> AttrList
        requires empty { places.written ≡ [] }
        requires left { 1 ≤ places.left }
        ensures { result ≡ attr ∷ [] }
    {
        let mut places = places;
        places.put(attr);
        AttrList::from_places(places)
    }

    /// Appends an attribute. If memory runs out, the attribute is dropped and the list stays as it was.
    pub fn push(&mut self, attr: Attr) -> Result<(), NoMemory>
        ensures pushed { OnOk result (self.new ≡ self.old ++ attr ∷ []) }
        ensures kept { OnErr result (self.new ≡ self.old) }
    {
        self.attrs.push(attr)
    }

    /// How many attributes there are.
    pub fn len(&self) -> usize
        ensures { result ≡ length self.now }
    {
        self.attrs.len()
    }

    /// The attribute at a place, counted from 0, or `None` past the last.
    pub fn get(&self, place: usize) -> Option<&Attr>
        ensures { option_copied result ≡ slice_get self.now place }
    {
        self.attrs.get(place)
    }

    /// Whether there is an attribute of a type.
    pub fn has(&self, kind: u8) -> bool
        ensures { result ≡ has self.now kind }
    {
        self.as_slice().iter().any(|attr| attr.kind() == kind)
    }

    /// The attributes.
    pub fn as_slice(&self) -> &[Attr]
        ensures { result.now ≡ self.now }
    {
        self.attrs.as_slice()
    }
}
