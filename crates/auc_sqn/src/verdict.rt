//! The verdict on an SQN.

/// What a USIM's index array says of an SQN (TS 33.102 Annex C.2).
#[derive(Clone, Copy, PartialEq, Eq)]
pub enum Verdict {
    /// The SQN is accepted.
    Fresh,
    /// The SEQ is no greater than this one, the greatest that was accepted with the same IND.
    Old(u64),
    /// The SEQ is more than 2^28 above this one, the greatest that was accepted.
    Far(u64),
    /// This one, the greatest SEQ that was accepted, is above the SEQ by the age limit or more.
    Aged(u64),
}
