//! Outputs that are written.

ghost use Rattle.std.specs.Prelude.{◌≡◌, ◌≤◌, ◌<◌, ◌⊎◌, ℕ, List, [], Option, length, take, IfOk, OnErr};
ghost use Rattle.auc_memory.specs.Faults.{Rose};
ghost use Rattle.auc_edge.specs.Sink.{Appends};

use auc_memory::Failed;

/// An output, which takes bytes in order.
pub trait Sink {
    /// What was written, if the sink reveals it.
    ghost written: { Self → Option (List ℕ) };

    /// How often a write has failed. The count never falls.
    ghost faults: { Self → ℕ };

    /// Writes the first bytes, and answers how many. It is a fault to take none of bytes that aren't
    /// empty. If it fails, nothing was written.
    fn write(&mut self, bytes: &[u8]) -> Result<usize, Failed>
        ensures bound { IfOk result (λ count. count ≤ length bytes.now) }
        ensures taken { IfOk result (λ count. Appends (written self.old) (written self.new) (take count bytes.now)) }
        ensures untouched { OnErr result (Appends (written self.old) (written self.new) []) }

        // If it fails or takes nothing, the count rose; otherwise the count stays.
        ensures later { faults self.old ≤ faults self.new }
        ensures failed { OnErr result (Rose (faults self.old) (faults self.new)) }
        ensures stuck { IfOk result (λ count. count ≡ 0 → 0 < length bytes.now
            → Rose (faults self.old) (faults self.new)) }
        ensures quiet { IfOk result (λ count. (0 < count) ⊎ (length bytes.now ≡ 0)
            → faults self.new ≡ faults self.old) };
}
