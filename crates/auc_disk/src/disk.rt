//! One file of a disk, which a crash may cut off.

ghost use Rattle.std.specs.Prelude.{◌≡◌, ◌≤◌, ◌+◌, ◌^◌, ℕ, List, Option, Some, length, IfOk, OnOk};
ghost use Rattle.auc_disk.specs.Disk.{Elapses, Follows, HasCause, IsLength, OnlyTold, Puts, ReadsAt, Torn};

use auc_memory::Failed;

/// One file of a disk. Between two syncs a crash may leave any bytes in each written range and past the old
/// end of the file, and a length between the old and the new one. Offsets and lengths count bytes.
pub trait Disk {
    /// What a read of the whole file gives, if the disk reveals that.
    ghost seen: { Self → Option (List ℕ) };

    /// The images that a crash at this moment may leave.
    ghost may_leave: { Self → List ℕ → Type 0 };

    /// The moment, as a number that doesn't fall.
    ghost moment: { Self → ℕ };

    /// The images that a crash at some moment since that one may have left, during a call or between two.
    ghost left_since: { Self → ℕ → List ℕ → Type 0 };

    /// The last answer of `len`, or 0 before the first.
    ghost last_len: { Self → ℕ };

    /// How often a call has failed. The count never falls.
    ghost faults: { Self → ℕ };

    /// How often a method was called, as far as the disk counts that: a call counts once at most.
    ghost calls: { Self → ℕ };

    /// How many bytes the file has.
    fn len(&mut self) -> Result<u64, Failed>
        ensures told { IfOk result (λ len. IsLength (seen self.old) len) }
        ensures last { IfOk result (λ len. len ≡ last_len self.new) }
        ensures seen { seen self.new ≡ seen self.old }
        ensures crash { (image : List ℕ) → may_leave self.new image → may_leave self.old image }
        ensures time { Elapses (moment self.old) (moment self.new) (left_since self.old) (left_since self.new)
            (may_leave self.new) }
        ensures cause { HasCause (faults self.old) (faults self.new) result }
        ensures calls { calls self.new ≤ calls self.old + 1 };

    /// Reads bytes of the file from an offset on into the front of a buffer, and answers how many. If the
    /// buffer isn't empty, it answers 0 only at an offset that isn't below the last answer of `len`.
    fn read_at(&mut self, at: u64, buf: &mut [u8]) -> Result<usize, Failed>
        ensures bound { IfOk result (λ count. count ≤ length buf.new) }
        ensures read { IfOk result (λ count. ReadsAt (seen self.old) at count buf.new) }
        ensures goes_on { IfOk result (λ count. count ≡ 0 → 1 ≤ length buf.new → last_len self.old ≤ at) }
        ensures last { last_len self.new ≡ last_len self.old }
        ensures seen { seen self.new ≡ seen self.old }
        ensures crash { (image : List ℕ) → may_leave self.new image → may_leave self.old image }
        ensures time { Elapses (moment self.old) (moment self.new) (left_since self.old) (left_since self.new)
            (may_leave self.new) }
        ensures cause { HasCause (faults self.old) (faults self.new) result }
        ensures calls { calls self.new ≤ calls self.old + 1 };

    /// Writes bytes over those at an offset, and past the end of the file. Until the next sync a crash may
    /// leave any bytes in the range, also if the call fails; what a read gives after a failed call isn't
    /// said.
    fn write_at(&mut self, at: u64, bytes: &[u8]) -> Result<(), Failed>
        requires { at + length bytes.now ≤ 2 ^ 30 }

        ensures written { OnOk result (Puts (seen self.old) at bytes.now (seen self.new)) }
        ensures crash { Follows (Torn at (length bytes.now)) (may_leave self.old) (may_leave self.new) }
        ensures time { Elapses (moment self.old) (moment self.new) (left_since self.old) (left_since self.new)
            (may_leave self.new) }
        ensures cause { HasCause (faults self.old) (faults self.new) result }
        ensures calls { calls self.new ≤ calls self.old + 1 };

    /// Makes what was written durable: after it a crash leaves what a read gives. If it fails, a crash may
    /// leave no more than before.
    fn sync(&mut self) -> Result<(), Failed>
        ensures durable { OnOk result (OnlyTold (seen self.old) (may_leave self.new)) }
        ensures seen { seen self.new ≡ seen self.old }
        ensures crash { (image : List ℕ) → may_leave self.new image → may_leave self.old image }
        ensures time { Elapses (moment self.old) (moment self.new) (left_since self.old) (left_since self.new)
            (may_leave self.new) }
        ensures cause { HasCause (faults self.old) (faults self.new) result }
        ensures calls { calls self.new ≤ calls self.old + 1 };

    /// What a crash may leave now, it may have left since an earlier moment.
    ghost counts_now: { (disk : Self) (t : ℕ) (image : List ℕ) → t ≤ moment disk → may_leave disk image → left_since disk t image };

    /// What a crash may have left since this moment, it may leave now.
    ghost only_now: { (disk : Self) (image : List ℕ) → left_since disk (moment disk) image → may_leave disk image };

    /// A crash may leave what a read gives.
    ghost as_it_reads: { (disk : Self) (file : List ℕ) → seen disk ≡ Some file → may_leave disk file };
}
