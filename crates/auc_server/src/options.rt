//! What the server of a session is told of it.

use auc_hmac::Method;
use auc_memory::Octets;

/// What the server of a session is told of it when it starts. None of it changes later.
#[derive(Drop)]
pub struct ServerOptions {
    /// The session's number, which tells its random bytes from those of other sessions.
    pub session: u32,
    /// The method.
    pub method: Method,
    /// The name of the access network, at most 255 bytes, to which the keys of EAP-AKA' are bound (RFC 9048 §3.1); empty
    /// for EAP-AKA.
    pub name: Octets,
    /// Whether a Challenge gives the peer a pseudonym (RFC 4187 §4.1.1.7).
    pub pseudonym: bool,
    /// Whether a Challenge and a Reauthentication give the peer a re-authentication identity (RFC 4187 §4.1.1.8).
    pub reauth: bool,
    /// Whether a Challenge of EAP-AKA says that the server would rather use EAP-AKA' (RFC 9048 §4).
    pub bidding: bool,
    /// Whether the server asks for any identity (RFC 4187 §10.3) before it looks at one.
    pub any: bool,
}
