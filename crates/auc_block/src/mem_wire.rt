//! Wires in memory.

ghost use Rattle.std.specs.Prelude.{◌≡◌, ◌≤◌, ◌<◌, ◌⊎◌, ◌+◌, ◌++◌, ◌↔◌, ◌==◌, [], ◌∷◌, ℕ, Some, false, length, take, min, OnOk, OnErr, IfOk, IsOk, IsErr, IsTrue, MatchResult};
ghost use Rattle.auc_memory.specs.Faults.{Rose, raised};
ghost use Rattle.auc_block.specs.Turns.{Turns};
ghost use Rattle.auc_block.specs.MemWire.{first_above, is_failing, next_end, next_piece, after_hear, after_say, after_fault};
ghost use Rattle.auc_block.specs.declared.turn.Turn.TheVariants as turn;

use crate::turn::Turn;
use crate::wire::Wire;
use auc_memory::{Failed, Items, NoMemory, Octets};
use std::alloc::Global;
use std::marker::Model;

/// A wire in memory. It hears pieces that it was given, one or a part of one in a call, and says at most a
/// number of bytes in a call. A call fails if it was told to, or if memory runs out.
#[derive(Drop)]
pub struct MemWire {
    input: Octets,
    ends: Vec<usize>,
    place: usize,
    ended: bool,
    most: usize,
    turns: Items<Turn>,
    calls: u64,
    failing: Vec<u64>,
    faults: u64,
}

impl Model for MemWire {
    ghost use Rattle.std.specs.Prelude.{◌≤◌, length};
    ghost use Rattle.auc_block.specs.MemWire.{WireState};

    ghost Value = { WireState };

    ghost view = { λ w. record { input = w.input; ends = w.ends.items; place = w.place; ended = w.ended; most = w.most; turns = w.turns; calls = w.calls; failing = w.failing.items; faults = w.faults } };

    ghost invariant = { λ w. w.place ≤ length w.input };
}

impl MemWire {
    /// A wire with nothing to be heard, which says at most so many bytes in a call.
    pub fn new(alloc: Global, most: usize) -> MemWire
        ensures { result ≡ record {
          input = [];
          ends = [];
          place = 0;
          ended = false;
          most = most;
          turns = [];
          calls = 0;
          failing = [];
          faults = 0;
        } }
    {
        MemWire {
            input: Octets::new(alloc),
            ends: Vec::new(alloc),
            place: 0,
            ended: false,
            most,
            turns: Items::new(alloc),
            calls: 0,
            failing: Vec::new(alloc),
            faults: 0,
        }
    }

    /// Adds a piece to be heard. An empty one is passed over. If memory runs out, nothing is added.
    pub fn add(&mut self, piece: &[u8]) -> Result<(), NoMemory>
        ensures added { OnOk result (self.new ≡ record self.old {
          input = self.old.input ++ piece.now;
          ends = self.old.ends ++ (length self.old.input + length piece.now) ∷ [];
        }) }
        ensures kept { OnErr result (self.new ≡ self.old) }
    {
        self.ends.reserve(1)?;
        self.input.append(piece)?;
        self.ends.push(self.input.len())?;
        Ok(())
    }

    /// Makes a call fail, by its place among all calls, the first being 1. If memory runs out, nothing
    /// changes.
    pub fn fail(&mut self, ordinal: u64) -> Result<(), NoMemory>
        ensures told { OnOk result (self.new ≡ record self.old { failing = self.old.failing ++ ordinal ∷ [] }) }
        ensures kept { OnErr result (self.new ≡ self.old) }
    {
        self.failing.push(ordinal)?;
        Ok(())
    }

    /// What was heard and said, in order.
    pub fn turns(&self) -> &[Turn]
        ensures { result.now ≡ self.now.turns }
    {
        self.turns.as_slice()
    }

    // Whether the next call is to fail.
    fn is_failing(&self) -> bool
        ensures { result ≡ is_failing self.now }
    {
        self.failing.contains(&self.calls.saturating_add(1))
    }

    // Where the piece ends that is heard next.
    fn next_end(&self) -> usize
        ensures value { result ≡ next_end self.now }
        ensures within { (self.now.place ≤ result) × (result ≤ length self.now.input) }
    {
        if self.ended {
            return self.place;
        }
        first_above(self.ends.as_slice(), self.place).min(self.input.len())
    }

    // Ends a call that gives a turn, if it isn't to fail and there is memory.
    fn end_call(&mut self, fails: bool, turn: Result<Turn, NoMemory>) -> Result<(), Failed>
        ensures state { MatchResult result
            (λ _. IsOk turn × IfOk turn (λ turn. self.new
            ≡ record self.old { turns = self.old.turns ++ turn ∷ []; calls = raised self.old.calls }))
            (λ _. self.new ≡ after_fault self.old) }
        ensures told { IsTrue fails → IsErr result }
    {
        self.calls = self.calls.saturating_add(1);
        if let Ok(turn) = turn {
            if !fails && self.turns.push(turn).is_ok() {
                return Ok(());
            }
        }
        self.faults = self.faults.saturating_add(1);
        Err(Failed)
    }
}

impl Wire for MemWire {
    ghost turns = { λ w. Some w.turns };

    ghost ended = { λ w. w.ended };

    ghost faults = { λ w. w.faults };

    fn hear(&mut self, buf: &mut [u8]) -> Result<usize, Failed>
        requires { 0 < length buf.old }

        ensures bound { IfOk result (λ count. count ≤ length buf.new) }
        ensures heard { IfOk result (λ count.
            Turns (Some self.old.turns) (Some self.new.turns) (turn.Heard (take count buf.new) ∷ [])) }
        ensures untouched { OnErr result (Some self.new.turns ≡ Some self.old.turns) }
        ensures end { IfOk result (λ count. (count ≡ 0) ↔ IsTrue self.new.ended) }
        ensures stays { IsTrue self.old.ended → IsTrue self.new.ended }
        ensures same { OnErr result (self.new.ended ≡ self.old.ended) }
        ensures later { self.old.faults ≤ self.new.faults }
        ensures failed { OnErr result (Rose self.old.faults self.new.faults) }
        ensures quiet { OnOk result (self.new.faults ≡ self.old.faults) }

        // It hears the front of the next piece or fails, and fails if it was told to.
        ensures piece { IfOk result (λ count. take count buf.new ≡ take (length buf.new) (next_piece self.old)) }
        ensures told { IsTrue (is_failing self.old) → IsErr result }
        ensures state { MatchResult result
            (λ count. self.new ≡ after_hear self.old (take count buf.new)) (λ _. self.new ≡ after_fault self.old) }
    {
        let fails = self.is_failing();
        let end = self.next_end();
        let count = copy_front(&self.input.as_slice()[self.place..end], buf);
        let bytes = Octets::copied_from(*self.failing.allocator(), &buf[..count]);
        self.end_call(fails, bytes.map(Turn::Heard))?;
        self.place += count;
        self.ended = count == 0;
        Ok(count)
    }

    fn say(&mut self, bytes: &[u8]) -> Result<usize, Failed>
        ensures bound { IfOk result (λ count. count ≤ length bytes.now) }
        ensures said { IfOk result (λ count.
            Turns (Some self.old.turns) (Some self.new.turns) (turn.Said (take count bytes.now) ∷ [])) }
        ensures untouched { OnErr result (Some self.new.turns ≡ Some self.old.turns) }
        ensures same { self.new.ended ≡ self.old.ended }
        ensures later { self.old.faults ≤ self.new.faults }
        ensures failed { OnErr result (Rose self.old.faults self.new.faults) }
        ensures stuck { IfOk result (λ count. count ≡ 0 → 0 < length bytes.now
            → Rose self.old.faults self.new.faults) }
        ensures quiet { IfOk result (λ count. (0 < count) ⊎ (length bytes.now ≡ 0)
            → self.new.faults ≡ self.old.faults) }

        // It takes as many as it may or fails, and fails if it was told to or may take none.
        ensures whole { IfOk result (λ count. count ≡ min (length bytes.now) self.old.most) }
        ensures told { IsTrue (is_failing self.old) → IsErr result }
        ensures state { MatchResult result
            (λ count. self.new ≡ after_say self.old (take count bytes.now)) (λ _. self.new ≡ after_fault self.old) }
    {
        let fails = self.is_failing() || self.most < bytes.len().min(1);
        let count = bytes.len().min(self.most);
        let said = Octets::copied_from(*self.failing.allocator(), &bytes[..count]);
        self.end_call(fails, said.map(Turn::Said))?;
        Ok(count)
    }
}

// The first number above another one, or that one if there is none.
fn first_above(numbers: &[usize], least: usize) -> usize
    ensures value { result ≡ first_above numbers.now least }
    ensures above { least ≤ result }
{
    for number in numbers {
        if least < *number {
            return *number;
        }
    }
    least
}

// Copies the first bytes into the front of a buffer, and answers how many.
fn copy_front(bytes: &[u8], buf: &mut [u8]) -> usize
    ensures count { result ≡ min (length bytes.now) (length buf.new) }
    ensures copied { take result buf.new ≡ take (length buf.new) bytes.now }
{
    let count = bytes.len().min(buf.len());
    buf[..count].copy_from_slice(&bytes[..count]);
    count
}
