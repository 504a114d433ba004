//! Files that are read.

ghost use Rattle.std.specs.Prelude.{◌≡◌, ◌≤◌, ◌^◌, ℕ, List, Option, length, IfOk, OnOk, OnErr};
ghost use Rattle.auc_memory.specs.Faults.{Rose};
ghost use Rattle.auc_edge.specs.Shelf.{File, ReadsFrom};

use auc_memory::Failed;

/// A set of files that is read. A name is a string of bytes.
pub trait Shelf {
    /// The files, if the shelf reveals them.
    ghost files: { Self → Option (List File) };

    /// How often a read of the file with this name has failed. No count ever falls.
    ghost faults: { Self → List ℕ → ℕ };

    /// Reads bytes of the file from an offset, counted in bytes from 0, into the front of a buffer, and
    /// answers how many. If the buffer isn't empty, it answers 0 only at the file's end. A missing file is
    /// a fault of its name.
    fn read(&mut self, name: &[u8], from: u64, buf: &mut [u8]) -> Result<usize, Failed>
        requires { from ≤ 2 ^ 30 }

        ensures bound { IfOk result (λ count. count ≤ length buf.new) }
        ensures read { IfOk result (λ count. ReadsFrom (files self.old) name.now from count buf.new) }
        ensures same { files self.new ≡ files self.old }

        // If it fails, the count of this name rose; if it doesn't fail, no count rose.
        ensures later { (other : List ℕ) → faults self.old other ≤ faults self.new other }
        ensures failed { OnErr result (Rose (faults self.old name.now) (faults self.new name.now)) }
        ensures quiet { OnOk result ((other : List ℕ) → faults self.new other ≡ faults self.old other) };
}
