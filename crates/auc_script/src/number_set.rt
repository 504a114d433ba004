//! Different numbers, which are looked up fast.

ghost use Rattle.std.specs.Prelude.{◌≡◌, ◌++◌, [], ◌∷◌, false, length, OnOk};
ghost use Rattle.auc_script.specs.Session.{is_among};

use auc_memory::NoMemory;
use indexmap::IndexSet;
use std::alloc::Global;
use std::marker::Model;

/// Different numbers in the order in which they came. Contracts see their list.
#[derive(Drop)]
pub struct NumberSet {
    numbers: IndexSet<u32>,
}

impl Model for NumberSet {
    ghost use Rattle.std.specs.Prelude.{List, ℕ};

    ghost Value = { List ℕ };

    ghost view = { λ set. set.numbers.keys };
}

impl NumberSet {
    /// No numbers. It takes no memory yet.
    pub fn new(alloc: Global) -> NumberSet
        ensures { result ≡ [] }
    {
        NumberSet {
            numbers: IndexSet::new(alloc),
        }
    }

    /// How many numbers there are.
    pub fn len(&self) -> usize
        ensures { result ≡ length self.now }
    {
        self.numbers.len()
    }

    /// Whether a number is among them.
    pub fn has(&self, number: u32) -> bool
        ensures { result ≡ is_among number self.now }
    {
        self.numbers.contains(&number)
    }

    /// Puts a new number behind the last.
    pub fn add(&mut self, number: u32) -> Result<(), NoMemory>
        requires { is_among number self.old ≡ false }
        ensures { OnOk result (self.new ≡ self.old ++ number ∷ []) }
    {
        self.numbers.insert(number)?;
        Ok(())
    }
}
