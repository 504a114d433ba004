//! Which types of attributes stood before.

ghost use Rattle.std.specs.Prelude.{◌≡◌, ℕ, List, [], ◌∷◌, ◌++◌};
ghost use Rattle.auc_attr.specs.Seen.{Marks};
ghost use Rattle.auc_attr.specs.Spelling.{stands_in};

use std::marker::Model;

/// The types of the attributes that stood before. Contracts see a mark for each type.
#[derive(Drop)]
pub struct Seen {
    marks: [bool; 256],
}

impl Model for Seen {
    ghost use Rattle.std.specs.Prelude.{Bool, List};

    ghost Value = { List Bool };

    ghost view = { λ s. s.marks };
}

impl Seen {
    /// No type stood before.
    pub fn new() -> Seen
        ensures { Marks result [] }
    {
        Seen {
            marks: [false; 256],
        }
    }

    /// Whether a type stood before.
    pub fn is_marked(&self, kind: u8) -> bool
        ensures { (kinds : List ℕ) → Marks self.now kinds → result ≡ stands_in kinds kind }
    {
        self.marks[kind as usize]
    }

    /// Notes a type.
    pub fn mark(&mut self, kind: u8)
        ensures { (kinds : List ℕ) → Marks self.old kinds → Marks self.new (kinds ++ kind ∷ []) }
    {
        self.marks[kind as usize] = true;
    }
}
