//! Saying a whole text.

ghost use Rattle.std.specs.Prelude.{◌≡◌, ◌≤◌, OnOk, OnErr};
ghost use Rattle.auc_memory.specs.Faults.{Rose};
ghost use Rattle.auc_block.specs.Turns.{Says, SaysFront};

use crate::wire::Wire;
use auc_memory::Failed;

/// Says all the bytes. If it fails, the first of them may have been said.
pub fn say_whole<W: Wire>(wire: &mut W, bytes: &[u8]) -> Result<(), Failed>
    ensures said { OnOk result (Says (W.turns wire.old) (W.turns wire.new) bytes.now) }
    ensures quiet { OnOk result (W.faults wire.new ≡ W.faults wire.old) }
    ensures same { W.ended wire.new ≡ W.ended wire.old }

    // If it fails, the count rose.
    ensures front { OnErr result (SaysFront (W.turns wire.old) (W.turns wire.new) bytes.now) }
    ensures failed { OnErr result (Rose (W.faults wire.old) (W.faults wire.new)) }
    ensures later { W.faults wire.old ≤ W.faults wire.new }
{
    let mut rest = bytes;
    while !rest.is_empty() {
        let count = wire.say(rest)?;
        if count == 0 {
            return Err(Failed);
        }
        rest = &rest[count..];
    }
    Ok(())
}
