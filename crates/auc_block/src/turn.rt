//! Turns of a conversation.

use auc_memory::Octets;

/// What one call of a wire moved.
#[derive(Drop)]
pub enum Turn {
    /// Bytes that were heard. None were heard at the end of the input.
    Heard(Octets),
    /// Bytes that were said.
    Said(Octets),
}
