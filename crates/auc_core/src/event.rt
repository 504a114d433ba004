//! What happens at the authentication centre, and what it answers.

/// An event of one subscriber. Subscribers are counted from 0, in the order of the openings.
#[derive(Clone, Copy)]
pub enum Event {
    /// The next number is drawn for the subscriber.
    Draw(u32),
    /// The subscriber's number is resynchronised with this SEQ, which its USIM reported under a right MAC-S.
    Resync(u32, u64),
}

/// The answer to an event.
#[derive(Clone, Copy, PartialEq, Eq)]
pub enum Reply {
    /// This number was drawn, for the first time.
    Number(u64),
    /// The subscriber has no further number; the greatest one was drawn or passed over before.
    Exhausted(u64),
    /// The number moved from the first to the second, which is the SEQ that the USIM reported.
    Moved(u64, u64),
    /// The number stands, and the USIM accepts the next one: the number, then the SEQ that the USIM reported.
    InRange(u64, u64),
    /// The number stands, and the next one is too far above the SEQ for the USIM: the number, then the SEQ that the
    /// USIM reported.
    Beyond(u64, u64),
}
