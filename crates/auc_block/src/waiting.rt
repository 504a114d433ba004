//! The bytes that wait for the end of their block.

ghost use Rattle.std.specs.Prelude.{◌≡◌, ◌≤◌, ◌<◌, ◌↔◌, ◌++◌, [], ◌∷◌, length, take, drop, IsTrue, IfOk, IfErr, OnOk, OnErr};
ghost use Rattle.auc_block.specs.Hearing.{IsTrouble};
ghost use Rattle.auc_block.specs.Turns.{Turns};
ghost use Rattle.auc_block.specs.declared.turn.Turn.TheVariants as turn;

use crate::trouble::Trouble;
use crate::wire::Wire;

// Hears a piece behind the bytes that wait, and answers how many bytes it has. The memory is taken before, so
// that no byte that was heard is lost.
pub(crate) fn hear_more<W: Wire>(
    wire: &mut W,
    waiting: &mut Vec<u8>,
    room: &mut [u8],
) -> Result<usize, Trouble>
    requires { 0 < length room.old }

    ensures bound { IfOk result (λ count. count ≤ length room.new) }
    ensures turns { IfOk result (λ count.
        Turns (W.turns wire.old) (W.turns wire.new) (turn.Heard (take count room.new) ∷ [])) }
    ensures waits { IfOk result (λ count. waiting.new.items ≡ waiting.old.items ++ take count room.new) }
    ensures end { IfOk result (λ count. (count ≡ 0) ↔ IsTrue (W.ended wire.new)) }
    ensures quiet { OnOk result (W.faults wire.new ≡ W.faults wire.old) }
    ensures untouched { OnErr result (W.turns wire.new ≡ W.turns wire.old) }
    ensures kept { OnErr result (waiting.new.items ≡ waiting.old.items) }
    ensures trouble { IfErr result (λ why. IsTrouble why [] (W.faults wire.old) (W.faults wire.new)) }
{
    waiting.reserve(room.len())?;
    let count = wire.hear(room)?;
    waiting.extend_from_slice(&room[..count])?;
    Ok(count)
}

// Drops the first bytes.
pub(crate) fn drop_front(waiting: &mut Vec<u8>, count: usize)
    requires { count ≤ length waiting.old.items }
    ensures { waiting.new.items ≡ drop count waiting.old.items }
{
    waiting.drain(..count);
}
