//! The index array.

ghost use Rattle.std.specs.Prelude.{◌≡◌, ℕ, ◌≤◌, ◌<◌, ◌-◌, ◌^◌, slice_index};
ghost use Rattle.std.specs.List.{IsFirstMaxByKey};
ghost use Rattle.auc_sqn.specs.Number.{top_of, most_bits, seq_of, ind_of};
ghost use Rattle.auc_sqn.specs.Number.{indices as indices_of};
ghost use Rattle.auc_sqn.specs.Past.{Past, Remembers, opening_past, verdict_of, past_after, IsSqnMs};
ghost use Rattle.auc_sqn.specs.Past.{is_aged as is_aged_by};
ghost use Rattle.auc_sqn.specs.Inner.{verdict_at, IsLastNumber};

use crate::number::{indices, spell, split};
use crate::verdict::Verdict;
use std::marker::Model;

/// How far above the greatest accepted SEQ an SQN may be: 2^28.
const REACH: u64 = 1 << 28;

/// What a USIM remembers of the SQNs that it has accepted: the greatest SEQ for each IND. Contracts
/// speak of its index length and age limit, and of the past, the list of all that was accepted, which
/// the array remembers.
#[derive(Clone, Copy, PartialEq, Eq)]
pub struct SqnArray {
    bits: u8,
    age: Option<u64>,
    // Those past the last index stay 0.
    entries: [u64; 64],
}

impl Model for SqnArray {
    ghost use Rattle.auc_sqn.specs.Past.{ArrayValue};
    ghost use Rattle.auc_sqn.specs.Inner.{IsArray};

    ghost Value = { ArrayValue };

    ghost view = { λ array. record { bits = array.bits; age = array.age; entries = array.entries } };

    ghost invariant = { IsArray };

    ghost inverse = { λ value. record { bits = value.bits; age = value.age; entries = value.entries } };
}

impl SqnArray {
    /// The array of a USIM for which the numbers 1 to `v` count as accepted, with the subscriber's index
    /// length, and with its age limit if it has one.
    #[tactic(auto, using(crate::proofs::BitLemmas::indices_within, crate::proofs::BitLemmas::top_within))]
    pub fn opening(v: u64, bits: u8, age: Option<u64>) -> SqnArray
        requires bits { bits ≤ most_bits }
        requires number { v ≤ top_of bits }
        ensures remembers { Remembers result (opening_past bits v) }
        ensures bits { result.bits ≡ bits }
        ensures age { result.age ≡ age }
    {
        let count = indices(bits);
        let mut entries = [0; 64];
        for (ind, entry) in entries.iter_mut().enumerate() {
            if (ind as u64) < count {
                *entry = last_number(v, ind as u64, bits);
            }
        }
        SqnArray { bits, age, entries }
    }

    /// Accepts an SQN, or says why it is refused; a refusal changes nothing (TS 33.102 Annex C.2). Index
    /// length and age limit stay.
    #[tactic(auto, using(crate::proofs::BitLemmas::indices_within))]
    pub fn check(&mut self, sqn: [u8; 6]) -> Verdict
        ensures verdict { (past : Past) → Remembers self.old past
            → result ≡ verdict_of self.old.age past (seq_of self.old.bits sqn) (ind_of self.old.bits sqn) }
        ensures past { (past : Past) → Remembers self.old past
            → Remembers self.new (past_after past (seq_of self.old.bits sqn) (ind_of self.old.bits sqn) result) }
        ensures bits { self.new.bits ≡ self.old.bits }
        ensures age { self.new.age ≡ self.old.age }
    {
        let (seq, ind) = split(sqn, self.bits);
        let verdict = self.verdict(seq, ind);
        if let Verdict::Fresh = verdict {
            self.entries[ind as usize] = seq;
        }
        verdict
    }

    /// SQN_MS: the highest SQN that was accepted, by SEQ and among equal SEQs by the least IND
    /// (TS 33.102 Annex C.2.2), as 6 bytes.
    pub fn highest(&self) -> [u8; 6]
        ensures { (past : Past) → Remembers self.now past → IsSqnMs self.now.bits past result }
    {
        let ind = self.top();
        spell(self.entry(ind), ind as u64, self.bits)
    }

    fn verdict(&self, seq: u64, ind: u8) -> Verdict
        requires index { ind < indices_of self.now.bits }
        requires within { ind < 64 }
        ensures { (top : ℕ) × IsFirstMaxByKey (λ entry. entry) self.now.entries (indices_of self.now.bits) top
            × (result ≡ verdict_at self.now.age (slice_index self.now.entries ind) (slice_index self.now.entries top) seq) }
    {
        let entry = self.entry(ind as usize);
        let greatest = self.entry(self.top());
        if seq <= entry {
            Verdict::Old(entry)
        } else if seq > greatest + REACH {
            Verdict::Far(greatest)
        } else if is_aged(self.age, greatest, seq) {
            Verdict::Aged(greatest)
        } else {
            Verdict::Fresh
        }
    }

    /// The entry for an IND.
    #[tactic(auto, using(crate::proofs::BitLemmas::indices_within, crate::proofs::BitLemmas::seqs_whole))]
    fn entry(&self, ind: usize) -> u64
        requires index { ind < indices_of self.now.bits }
        requires within { ind < 64 }
        ensures value { result ≡ slice_index self.now.entries ind }
        ensures seq { result < 2 ^ (48 - self.now.bits) }
        ensures small { result < 2 ^ 48 }
    {
        self.entries[ind]
    }

    /// The least IND whose entry is the greatest.
    #[tactic(auto, using(crate::proofs::BitLemmas::indices_within))]
    fn top(&self) -> usize
        ensures within { result < indices_of self.now.bits }
        ensures small { result < 64 }
        ensures top { IsFirstMaxByKey (λ entry. entry) self.now.entries (indices_of self.now.bits) result }
    {
        let mut top = 0;
        for ind in 1..indices(self.bits) as usize {
            if self.entries[ind] > self.entries[top] {
                top = ind;
            }
        }
        top
    }
}

/// Whether the greatest SEQ is above another by the age limit or more, if there is such a limit.
fn is_aged(age: Option<u64>, greatest: u64, seq: u64) -> bool
    ensures { result ≡ is_aged_by age greatest seq }
{
    match age {
        None => false,
        Some(limit) => greatest >= seq && greatest - seq >= limit,
    }
}

/// The last number up to `v` whose lower bits are `ind`, or 0 if there is none.
fn last_number(v: u64, ind: u64, bits: u8) -> u64
    requires bits { bits ≤ most_bits }
    requires number { v ≤ top_of bits }
    requires index { ind < indices_of bits }
    ensures { IsLastNumber bits v ind result }
{
    let count = indices(bits);
    let round = v / count * count;
    if ind <= v % count {
        round + ind
    } else {
        (round + ind).saturating_sub(count)
    }
}
