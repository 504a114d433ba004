//! What comes next on a wire.

use auc_memory::Octets;

/// What was heard up to the end of a block, or up to the end of the input.
#[derive(Drop)]
pub enum NextBlock {
    /// A whole block: the bytes of its lines as they were heard, without the line `end`.
    Whole(Octets),
    /// A whole block above the limit. Its bytes are dropped.
    TooLong,
    /// The input ended. What was heard and is no whole block still waits: nothing, or an unfinished block.
    Ended,
    /// The input ended in a block above the limit. Its bytes are dropped.
    EndedTooLong,
}
