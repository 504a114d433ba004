//! Why the numbers' reservations ended.

/// Why no further number is reserved: the store failed, or it is full.
#[derive(Clone, Copy, PartialEq, Eq)]
pub enum Stop {
    /// A call of the store failed.
    Fault,
    /// The store has no room for another reservation.
    Full,
}
