//! What one turn of an end of a session did besides its step.

use auc_memory::Stop;

/// What the centre made of the AUTS that a peer sent (TS 33.102 §6.3.5). The first three name the number that stood at
/// the centre, then the SEQ that the USIM reported.
#[derive(Clone, Copy, PartialEq, Eq)]
pub enum ResyncNote {
    /// The number was below the SEQ, and moved to it.
    Moved(u64, u64),
    /// The number stands, and the USIM accepts the next one.
    InRange(u64, u64),
    /// The number is too far above the SEQ, and stands.
    Beyond(u64, u64),
    /// MAC-S isn't right, or the SEQ is above the subscriber's greatest number. The centre wasn't asked.
    BadAuts,
}

/// What the centre answered if a number was asked for.
#[derive(Clone, Copy, PartialEq, Eq)]
pub enum NumberNote {
    /// This number was drawn and released.
    Drew(u64),
    /// The subscriber has no further number: this word stood there.
    Exhausted(u64),
    /// This number was drawn and isn't released, because reservations ended for this reason.
    Withheld(u64, Stop),
}

/// What the USIM answered if it was asked (TS 33.102 §6.3.3). An SQN has 6 bytes, most significant first.
#[derive(Clone, Copy)]
pub enum UsimNote {
    /// It accepted this SQN.
    Accepted([u8; 6]),
    /// The SQN is out of range; this is SQN_MS.
    Sync([u8; 6]),
    /// The MAC of AUTN isn't right.
    WrongMac,
}

/// What became of the counter of a fast re-authentication (RFC 4187 §5.5).
#[derive(Clone, Copy)]
pub enum CounterNote {
    /// The peer accepted this counter.
    Taken(u16),
    /// The peer found this counter too small.
    Small(u16),
}

/// What one turn of an end did besides its step.
#[derive(Clone, Copy)]
pub struct Notes {
    /// What became of a synchronisation failure, at a server.
    pub resync: Option<ResyncNote>,
    /// What became of a request for a number, at a server.
    pub number: Option<NumberNote>,
    /// The counter of the context that was taken up again, at a server.
    pub resumed: Option<u16>,
    /// What the USIM answered, at a peer.
    pub usim: Option<UsimNote>,
    /// What became of a counter, at a peer.
    pub counter: Option<CounterNote>,
}
