//! What is kept of a subscriber from job to job.

use crate::device_store::DeviceStore;
use crate::server_store::ServerStore;
use auc_ident::Ordinals;

/// What is kept of a subscriber's names and contexts, at its home and on its device.
#[derive(Clone, Copy)]
pub struct Kept {
    /// The ordinals of the names that its home gave.
    pub ordinals: Ordinals,
    /// The contexts of its home.
    pub home: ServerStore,
    /// The pseudonyms and contexts of its device.
    pub device: DeviceStore,
}
