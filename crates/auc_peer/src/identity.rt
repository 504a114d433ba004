//! Which identity a peer sends.

use auc_memory::Octets;

/// What answers the Identity request of EAP (RFC 3748 §5.1).
#[derive(Drop)]
pub enum FirstIdentity {
    /// The identity that the device holds: that of its context if it has one, else its pseudonym, else the permanent identity.
    Held,
    /// The permanent identity.
    Permanent,
    /// This text, at most 255 bytes.
    Text(Octets),
}
