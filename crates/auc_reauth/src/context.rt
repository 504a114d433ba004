//! What a full authentication leaves behind.

use auc_hmac::Master;
use auc_ident::Name;

/// What a fast re-authentication starts from (RFC 4187 §5.1).
#[derive(Clone, Copy, PartialEq, Eq)]
pub struct Context {
    /// Which of the subscriber's full authentications it comes from: at a server the number of the vector; on a device the
    /// SQN that its USIM accepted, as a number.
    pub origin: u64,
    /// The identity of the next re-authentication, without its realm (RFC 4187 §5.3).
    pub identity: Name,
    /// K_encr of the full authentication, which the re-authentications use again.
    pub k_encr: [u8; 16],
    /// K_aut of the full authentication, which the re-authentications use again.
    pub k_aut: [u8; 32],
    /// The key that the keys of the re-authentications are derived from.
    pub master: Master,
    /// At a server the counter of the next re-authentication; on a device the least counter that is accepted.
    pub counter: u16,
}
