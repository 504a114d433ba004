//! Lists of attributes.

ghost use Rattle.std.specs.Prelude.{◌≡◌, ◌++◌, [], ◌∷◌, length, OnOk, OnErr, slice_get};
ghost use Rattle.std.specs.Option.{option_copied};

use crate::attr::SimAttr;
use auc_memory::{Items, NoMemory};
use std::alloc::Global;
use std::marker::Model;

/// Attributes in their order. Contracts see the list of them.
#[derive(Drop)]
pub struct SimList {
    attrs: Items<SimAttr>,
}

impl Model for SimList {
    ghost use Rattle.std.specs.Prelude.{List};
    ghost use Rattle.auc_sim_packet.specs.declared.attr.SimAttr.{SimAttr};

    ghost Value = { List SimAttr };

    ghost view = { λ l. l.attrs };
}

impl SimList {
    /// The empty list. It takes no memory yet.
    pub fn new(alloc: Global) -> SimList
        ensures { result ≡ [] }
    {
        SimList {
            attrs: Items::new(alloc),
        }
    }

    /// Appends an attribute. If memory runs out, the attribute is dropped and the list stays as it was.
    pub fn push(&mut self, attr: SimAttr) -> Result<(), NoMemory>
        ensures pushed { OnOk result (self.new ≡ self.old ++ attr ∷ []) }
        ensures kept { OnErr result (self.new ≡ self.old) }
    {
        self.attrs.push(attr)
    }

    /// How many attributes there are.
    pub fn len(&self) -> usize
        ensures { result ≡ length self.now }
    {
        self.attrs.len()
    }

    /// The attribute at a place, counted from 0, or `None` past the last.
    pub fn get(&self, place: usize) -> Option<&SimAttr>
        ensures { option_copied result ≡ slice_get self.now place }
    {
        self.attrs.get(place)
    }

    /// The attributes.
    pub fn as_slice(&self) -> &[SimAttr]
        ensures { result.now ≡ self.now }
    {
        self.attrs.as_slice()
    }
}
