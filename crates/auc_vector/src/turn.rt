//! What an end of a session does with what it received.

use crate::notes::Notes;
use auc_hmac::KeySet;
use auc_memory::Octets;

/// Why what was received is ignored. The tests are made in the order of the variants, but for the last.
#[derive(Clone, Copy, PartialEq, Eq)]
pub enum Reason {
    /// The session has ended.
    Closed,
    /// The bytes are no packet, go the other way, or answer another request.
    NotForMe,
    /// The packet has another type than is expected.
    OtherType,
    /// The Subtype is unknown, the attributes have a fault, or one of them doesn't belong there.
    Malformed,
    /// The message doesn't belong there.
    Unexpected,
    /// An attribute that the message must have is missing.
    Missing,
    /// There is no context for a fast re-authentication.
    NoContext,
}

/// How a session ended at one end. A failure has a cause of that end's own.
#[derive(Clone, Copy, PartialEq, Eq)]
pub enum Outcome<W> {
    /// The peer is authenticated, under these keys.
    Success(KeySet),
    /// It isn't, for this cause.
    Failure(W),
}

/// What an end did.
#[derive(Drop)]
pub enum Step<W> {
    /// It sent these bytes.
    Sent(Octets),
    /// It ended, and sent these bytes, or none if they are empty.
    Ended(Outcome<W>, Octets),
    /// It did nothing.
    Ignored(Reason),
}

/// One turn of an end.
#[derive(Drop)]
pub struct Turn<W> {
    /// What was done besides the step.
    pub notes: Notes,
    /// What the end did.
    pub step: Step<W>,
    /// Whether the received message had to have a right AT_MAC (RFC 4187 §10.15) and had it, also if a later test of it
    /// failed.
    pub checked: bool,
}
