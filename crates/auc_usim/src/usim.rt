//! The USIM.

ghost use Rattle.std.specs.Prelude.{◌≡◌, ◌≤◌};
ghost use Rattle.auc_sqn.specs.Past.{Past, Remembers, opening_past};
ghost use Rattle.auc_usim.specs.Usim.{IsAnswer, IsSyncFailure, past_after_answer};
ghost use Rattle.auc_sqn.specs.Number.{most_bits, top_of};

use crate::answer::Answer;
use crate::autn::Autn;
use auc_aes::xor;
use auc_milenage::{Four, Secret, f1, f2345, make_auts};
use auc_sqn::{SqnArray, Verdict};
use std::marker::Model;

/// A subscriber's USIM. Contracts speak of its secret, of its index length and age limit, and of the
/// past, the list of all that it has accepted, which its index array remembers.
#[derive(Clone, Copy, PartialEq, Eq)]
pub struct Usim {
    secret: Secret,
    array: SqnArray,
}

impl Model for Usim {
    ghost use Rattle.auc_usim.specs.Usim.{Memory};

    ghost Value = { Memory };

    ghost view = { λ usim. record { secret = usim.secret; array = usim.array } };

    ghost inverse = { λ memory. record { secret = memory.secret; array = memory.array } };
}

impl Usim {
    /// The USIM of a subscriber's secret, for which the numbers 1 to `opening` count as accepted, with the
    /// subscriber's index length, and with its age limit if it has one.
    pub fn new(s: Secret, opening: u64, bits: u8, age: Option<u64>) -> Usim
        requires bits { bits ≤ most_bits }
        requires number { opening ≤ top_of bits }
        ensures secret { result.secret ≡ s }
        ensures bits { result.array.bits ≡ bits }
        ensures age { result.array.age ≡ age }
        ensures past { Remembers result.array (opening_past bits opening) }
    {
        Usim {
            secret: s,
            array: SqnArray::opening(opening, bits, age),
        }
    }

    /// Answers RAND, and AUTN of SQN masked by AK, 6 bytes, AMF, 2 bytes, and the MAC, 8 bytes (TS 33.102
    /// §6.3.3). The MAC is checked first, and then the SQN; an answer other than Accepted changes nothing.
    pub fn challenge(&mut self, rand: [u8; 16], autn: [u8; 16]) -> Answer
        ensures answer { (past : Past) → Remembers self.old.array past
            → IsAnswer self.old.secret self.old.array.bits self.old.array.age past rand autn result }
        ensures past { (past : Past) → Remembers self.old.array past
            → Remembers self.new.array (past_after_answer self.old.array.bits past result) }
        ensures secret { self.new.secret ≡ self.old.secret }
        ensures bits { self.new.array.bits ≡ self.old.array.bits }
        ensures age { self.new.array.age ≡ self.old.array.age }
    {
        let Autn { masked, amf, mac } = Autn::read(autn);
        let Four { res, ck, ik, ak } = f2345(&self.secret, rand);
        let sqn = xor(masked, ak);
        if f1(&self.secret, rand, sqn, amf) != mac {
            return Answer::WrongMac;
        }
        match self.array.check(sqn) {
            Verdict::Fresh => Answer::Accepted {
                res,
                ck,
                ik,
                ak,
                amf,
                sqn,
            },
            Verdict::Old(_) | Verdict::Far(_) | Verdict::Aged(_) => self.sync_failure(rand),
        }
    }

    /// A synchronisation failure, with SQN_MS and its AUTS.
    fn sync_failure(&self, rand: [u8; 16]) -> Answer
        ensures { (past : Past) → Remembers self.now.array past
            → IsSyncFailure self.now.secret self.now.array.bits past rand result }
    {
        let sqn = self.array.highest();
        Answer::SyncFailure {
            auts: make_auts(&self.secret, rand, sqn),
            sqn,
        }
    }
}
