//! Entries of a history.

/// What one atomic step did to a subscriber's number.
#[derive(Clone, Copy)]
pub enum Entry {
    /// The number was drawn. Above the subscriber's greatest number it is no number but a mark, which
    /// says that a draw was refused.
    Drawn(u64),
    /// A resynchronisation moved the number from the first to the second, so that the numbers between
    /// them and the second itself are never drawn.
    Moved(u64, u64),
    /// A resynchronisation found this number, which stands.
    Look(u64),
}
