//! Blocks that are heard.

ghost use Rattle.std.specs.Prelude.{◌≡◌, ◌≤◌, ◌<◌, [], ℕ, List, length, take, drop, IfOk, IfErr, OnOk, OnErr, MatchResult, None};
ghost use Rattle.auc_block.specs.Block.{first_block};
ghost use Rattle.auc_block.specs.Hearing.{HasNoBlock, IsHeard, IsNext, IsTrouble, Waits};
ghost use Rattle.auc_block.specs.InnerHearing.{IsGathered, IsLeft, IsSearched, IsSkipped, IsTaken};

use crate::next_block::NextBlock;
use crate::search::{Found, find_end};
use crate::trouble::Trouble;
use crate::waiting::{drop_front, hear_more};
use crate::wire::Wire;
use auc_memory::{NoMemory, Octets};
use std::alloc::Global;

/// How many bytes a block has at most, without its line `end`.
pub const LIMIT: usize = 1_048_576;

// How many bytes a text without a whole block has at most, if its block may be one of the limit: those of the
// block and of a line `end` with a CR and without its LF.
const MOST: usize = LIMIT + 4;

// How many bytes show that a line isn't `end`.
const FRONT: usize = 5;

// What gathering ends with: where the first line `end` begins and where the bytes after it begin, where the
// present line of a block begins that is too long, or the end of the input.
pub(crate) enum Gathered {
    Block(usize, usize),
    Long(usize),
    AtEnd,
}

/// Hears until a whole block waits, and answers it; the bytes after its line `end` wait for the next call. A
/// piece is heard only while no whole block waits, and nothing is said. If the block is longer than [`LIMIT`],
/// its bytes are dropped as they are heard. If it fails, all bytes that were heard wait, unless the block is
/// longer; and no whole block was heard, unless memory ran out. `room` is what one call of the wire fills.
pub fn hear_block<W: Wire>(
    alloc: Global,
    wire: &mut W,
    waiting: &mut Vec<u8>,
    room: &mut [u8],
) -> Result<NextBlock, Trouble>
    requires { 0 < length room.old }

    ensures heard { (text : List ℕ)
        × IsHeard (W.turns wire.old) (W.turns wire.new) waiting.old.items text
        × MatchResult result
        (λ next. IsNext next text waiting.new.items (W.ended wire.new))
        (λ why. IsTrouble why text (W.faults wire.old) (W.faults wire.new)
        × Waits waiting.new.items text
        × HasNoBlock why text) }
    ensures quiet { OnOk result (W.faults wire.new ≡ W.faults wire.old) }
{
    match gather(wire, waiting, room)? {
        Gathered::Block(begin, behind) => Ok(take_block(alloc, waiting, begin, behind)?),
        Gathered::Long(begin) => Ok(skip_block(wire, waiting, begin, room)?),
        Gathered::AtEnd => Ok(left_of(waiting)),
    }
}

// Hears until a whole block waits, the bytes that wait are too many, or the input ends.
fn gather<W: Wire>(
    wire: &mut W,
    waiting: &mut Vec<u8>,
    room: &mut [u8],
) -> Result<Gathered, Trouble>
    requires { 0 < length room.old }

    ensures heard { IsHeard (W.turns wire.old) (W.turns wire.new) waiting.old.items waiting.new.items }
    ensures gathered { IfOk result (λ found. IsGathered found waiting.new.items (W.ended wire.new)) }
    ensures quiet { OnOk result (W.faults wire.new ≡ W.faults wire.old) }
    ensures trouble { IfErr result (λ why. IsTrouble why [] (W.faults wire.old) (W.faults wire.new)) }
    ensures none { OnErr result (first_block waiting.new.items ≡ None) }
{
    let mut begin = 0;
    let mut place = 0;
    loop {
        match find_end(waiting.as_slice(), begin, place) {
            Found::End(begin, behind) => return Ok(Gathered::Block(begin, behind)),
            Found::Open(line) => begin = line,
        }
        if waiting.len() > MOST {
            return Ok(Gathered::Long(begin));
        }
        place = waiting.len();
        if hear_more(wire, waiting, room)? == 0 {
            return Ok(Gathered::AtEnd);
        }
    }
}

// Takes a whole block out of the bytes that wait.
fn take_block(
    alloc: Global,
    waiting: &mut Vec<u8>,
    begin: usize,
    behind: usize,
) -> Result<NextBlock, NoMemory>
    requires begin { begin ≤ length waiting.old.items }
    requires behind { behind ≤ length waiting.old.items }

    ensures taken { IfOk result (λ next. IsTaken next (take begin waiting.old.items)) }
    ensures rest { OnOk result (waiting.new.items ≡ drop behind waiting.old.items) }
    ensures kept { OnErr result (waiting.new.items ≡ waiting.old.items) }
{
    if begin > LIMIT {
        drop_front(waiting, behind);
        return Ok(NextBlock::TooLong);
    }
    let block = Octets::copied_from(alloc, &waiting[..begin])?;
    drop_front(waiting, behind);
    Ok(NextBlock::Whole(block))
}

// What waits at the end of the input.
fn left_of(waiting: &mut Vec<u8>) -> NextBlock
    ensures { IsLeft result waiting.old.items waiting.new.items }
{
    if waiting.len() > LIMIT {
        waiting.clear();
        return NextBlock::EndedTooLong;
    }
    NextBlock::Ended
}

// Hears the rest of a block that is too long, and keeps only so much of its present line as shows whether it
// is `end`.
fn skip_block<W: Wire>(
    wire: &mut W,
    waiting: &mut Vec<u8>,
    begin: usize,
    room: &mut [u8],
) -> Result<NextBlock, Trouble>
    requires room { 0 < length room.old }
    requires searched { IsSearched waiting.old.items begin (length waiting.old.items) }

    ensures heard { (text : List ℕ)
        × IsHeard (W.turns wire.old) (W.turns wire.new) waiting.old.items text
        × MatchResult result
        (λ next. IsSkipped next text waiting.new.items (W.ended wire.new))
        (λ why. IsTrouble why text (W.faults wire.old) (W.faults wire.new) × (first_block text ≡ None)) }
    ensures quiet { OnOk result (W.faults wire.new ≡ W.faults wire.old) }
{
    keep_front(waiting, begin);
    for _ in 0..u64::MAX {
        if hear_more(wire, waiting, room)? == 0 {
            waiting.clear();
            return Ok(NextBlock::EndedTooLong);
        }
        match find_end(waiting.as_slice(), 0, 0) {
            Found::End(_, behind) => {
                drop_front(waiting, behind);
                return Ok(NextBlock::TooLong);
            }
            Found::Open(line) => keep_front(waiting, line),
        }
    }
    Err(Trouble::Endless)
}

// Keeps the front of the present line.
fn keep_front(waiting: &mut Vec<u8>, begin: usize)
    requires { begin ≤ length waiting.old.items }
    ensures { waiting.new.items ≡ take 5 (drop begin waiting.old.items) }
{
    drop_front(waiting, begin);
    waiting.truncate(FRONT);
}
