//! Calls that change what a crash may leave.

use auc_memory::Octets;

/// A write of bytes at a place, with whether it succeeded; or a sync that succeeded.
#[derive(Drop)]
pub(crate) enum Call {
    Wrote(u64, Octets, bool),
    Synced,
}
