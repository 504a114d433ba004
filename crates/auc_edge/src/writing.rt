//! Writing a whole text.

ghost use Rattle.std.specs.Prelude.{◌≡◌, ◌≤◌, OnOk, OnErr};
ghost use Rattle.auc_memory.specs.Faults.{Rose};
ghost use Rattle.auc_edge.specs.Sink.{Appends, AppendsFront};

use crate::sink::Sink;
use auc_memory::Failed;

/// Writes all the bytes. If it fails, the first of them may have been written.
pub fn write_whole<K: Sink>(out: &mut K, bytes: &[u8]) -> Result<(), Failed>
    ensures written { OnOk result (Appends (K.written out.old) (K.written out.new) bytes.now) }
    ensures quiet { OnOk result (K.faults out.new ≡ K.faults out.old) }

    // If it fails, the count rose.
    ensures front { OnErr result (AppendsFront (K.written out.old) (K.written out.new) bytes.now) }
    ensures failed { OnErr result (Rose (K.faults out.old) (K.faults out.new)) }
    ensures later { K.faults out.old ≤ K.faults out.new }
{
    let mut rest = bytes;
    while !rest.is_empty() {
        let count = out.write(rest)?;
        if count == 0 {
            return Err(Failed);
        }
        rest = &rest[count..];
    }
    Ok(())
}
