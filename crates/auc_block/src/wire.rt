//! Wires, over which a conversation goes.

ghost use Rattle.std.specs.Prelude.{◌≡◌, ◌≤◌, ◌<◌, ◌⊎◌, ◌↔◌, ℕ, Bool, List, [], ◌∷◌, Option, length, take, IfOk, OnOk, OnErr, IsTrue};
ghost use Rattle.auc_memory.specs.Faults.{Rose};
ghost use Rattle.auc_block.specs.Turns.{Turns};
ghost use Rattle.auc_block.specs.declared.turn.Turn.{Turn};
ghost use Rattle.auc_block.specs.declared.turn.Turn.TheVariants as turn;

use auc_memory::Failed;

/// An input and an output, whose calls have one order.
pub trait Wire {
    /// What was heard and said since the wire was made, in order, if the wire reveals it.
    ghost turns: { Self → Option (List Turn) };

    /// Whether the end of the input was heard.
    ghost ended: { Self → Bool };

    /// How often a call has failed. The count never falls.
    ghost faults: { Self → ℕ };

    /// Hears bytes into the front of a buffer that isn't empty, and answers how many. It answers 0 only at
    /// the end of the input, and after that always. If it fails, nothing was heard.
    fn hear(&mut self, buf: &mut [u8]) -> Result<usize, Failed>
        requires { 0 < length buf.old }

        ensures bound { IfOk result (λ count. count ≤ length buf.new) }
        ensures heard { IfOk result (λ count.
            Turns (turns self.old) (turns self.new) (turn.Heard (take count buf.new) ∷ [])) }
        ensures untouched { OnErr result (turns self.new ≡ turns self.old) }

        // The end of the input stays.
        ensures end { IfOk result (λ count. (count ≡ 0) ↔ IsTrue (ended self.new)) }
        ensures stays { IsTrue (ended self.old) → IsTrue (ended self.new) }
        ensures same { OnErr result (ended self.new ≡ ended self.old) }

        // If it fails, the count rose; otherwise the count stays.
        ensures later { faults self.old ≤ faults self.new }
        ensures failed { OnErr result (Rose (faults self.old) (faults self.new)) }
        ensures quiet { OnOk result (faults self.new ≡ faults self.old) };

    /// Says the first bytes, and answers how many. It is a fault to take none of bytes that aren't empty.
    /// If it fails, nothing was said.
    fn say(&mut self, bytes: &[u8]) -> Result<usize, Failed>
        ensures bound { IfOk result (λ count. count ≤ length bytes.now) }
        ensures said { IfOk result (λ count.
            Turns (turns self.old) (turns self.new) (turn.Said (take count bytes.now) ∷ [])) }
        ensures untouched { OnErr result (turns self.new ≡ turns self.old) }
        ensures same { ended self.new ≡ ended self.old }

        // If it fails or takes nothing, the count rose; otherwise the count stays.
        ensures later { faults self.old ≤ faults self.new }
        ensures failed { OnErr result (Rose (faults self.old) (faults self.new)) }
        ensures stuck { IfOk result (λ count. count ≡ 0 → 0 < length bytes.now
            → Rose (faults self.old) (faults self.new)) }
        ensures quiet { IfOk result (λ count. (0 < count) ⊎ (length bytes.now ≡ 0)
            → faults self.new ≡ faults self.old) };
}
