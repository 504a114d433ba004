//! The core.

ghost use Rattle.std.specs.Prelude.{◌≡◌, ◌<◌, ◌≤◌, ◌+◌, ℕ, All, length, IfOk, slice_index};
ghost use Rattle.auc_core.specs.Step.{IsCore, Knows, Steps};
ghost use Rattle.auc_sqn.specs.Number.{max_seq};

use crate::event::{Event, Reply};
use auc_memory::NoMemory;
use std::alloc::Global;
use std::marker::Model;

// How far above the SEQ that a USIM reported the next number is accepted (TS 33.102 Annex C.2.1).
const RANGE: u64 = 1 << 28;

/// The subscribers' numbers. Contracts see each subscriber's word, which is the last number that was drawn or passed over,
/// or `top + 1` after a draw was refused, and its top, which is its greatest number.
#[derive(Drop)]
pub struct Core {
    words: Vec<u64>,
    tops: Vec<u64>,
}

impl Model for Core {
    ghost use Rattle.auc_core.specs.Step.{CoreState, IsCore};

    ghost Value = { CoreState };

    ghost view = { λ core. record { words = core.words.items; tops = core.tops.items } };

    ghost invariant = { λ core. IsCore (record { words = core.words.items; tops = core.tops.items }) };
}

impl Core {
    /// A core whose subscribers have drawn their numbers up to `openings`, one for each subscriber, and have these greatest
    /// numbers. If memory runs out, there is no core.
    pub fn new(alloc: Global, openings: &[u64], tops: &[u64]) -> Result<Core, NoMemory>
        requires count { length openings.now ≤ 65536 }
        requires each { length tops.now ≡ length openings.now }
        requires tops { All (λ top. top ≤ max_seq) tops.now }
        requires numbers { (sub : ℕ) → sub < length openings.now
            → slice_index openings.now sub ≤ slice_index tops.now sub }
        ensures { IfOk result (λ core. core ≡ record { words = openings.now; tops = tops.now }) }
    {
        let words = openings.to_vec(alloc)?;
        let tops = tops.to_vec(alloc)?;
        Ok(Core { words, tops })
    }

    /// Answers an event of one of the subscribers; a SEQ is at most the subscriber's top. A refused draw answers
    /// `Exhausted(top)`. After it the number counts as the top, and no SEQ moves it.
    pub fn apply(&mut self, e: Event) -> Reply
        requires { Knows self.old e }
        ensures step { Steps self.old e result self.new }

        // No word is ever above its mark.
        ensures core { IsCore self.old }
    {
        // The check knows what stands of the fields once one is read.
        let _ = &self.words;
        match e {
            Event::Draw(sub) => self.draw(sub),
            Event::Resync(sub, seq_ms) => self.resync(sub, seq_ms),
        }
    }

    /// The subscriber's word: the last number that was drawn or passed over, or `top + 1` after a refused draw.
    pub fn word(&self, sub: u32) -> u64
        requires { sub < length self.now.words }
        ensures value { result ≡ slice_index self.now.words sub }
        ensures bound { result ≤ slice_index self.now.tops sub + 1 }
    {
        self.words[sub as usize]
    }

    // The subscriber's greatest number.
    fn top(&self, sub: u32) -> u64
        requires { sub < length self.now.words }
        ensures value { result ≡ slice_index self.now.tops sub }
        ensures bound { result ≤ max_seq }
    {
        self.tops[sub as usize]
    }

    fn draw(&mut self, sub: u32) -> Reply
        requires { Knows self.old (Event.Draw sub) }
        ensures { Steps self.old (Event.Draw sub) result self.new }
    {
        let top = self.top(sub);
        let word = &mut self.words[sub as usize];
        if *word < top {
            *word += 1;
            Reply::Number(*word)
        } else {
            *word = top + 1;
            Reply::Exhausted(top)
        }
    }

    fn resync(&mut self, sub: u32, seq_ms: u64) -> Reply
        requires { Knows self.old (Event.Resync sub seq_ms) }
        ensures { Steps self.old (Event.Resync sub seq_ms) result self.new }
    {
        let top = self.top(sub);
        let word = &mut self.words[sub as usize];
        let seen = (*word).min(top);
        if seen < seq_ms {
            *word = seq_ms;
            Reply::Moved(seen, seq_ms)
        } else if seen - seq_ms < RANGE {
            Reply::InRange(seen, seq_ms)
        } else {
            Reply::Beyond(seen, seq_ms)
        }
    }
}
