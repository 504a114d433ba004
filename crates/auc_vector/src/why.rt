//! Why an end of a session fails: a server and a peer of EAP-AKA and EAP-AKA', and an end of EAP-SIM.

use auc_memory::Stop;

/// Why a server ends a session in Failure.
#[derive(Clone, Copy)]
pub enum ServerWhy {
    /// The identity is no permanent identity of a subscriber that is served (RFC 4187 §4.1.1.6).
    UnknownIdentity,
    /// AT_MAC of the response isn't right (RFC 4187 §10.15).
    WrongMac,
    /// RES isn't XRES (RFC 4187 §3).
    WrongRes,
    /// The checkcode isn't that of the session (RFC 4187 §10.13).
    WrongCheckcode,
    /// The response to a re-authentication hasn't the counter of the request (RFC 4187 §10.16).
    WrongCounter,
    /// The peer sent a second synchronisation failure (RFC 4187 §6.3.2).
    SecondSync,
    /// MAC-S of AUTS isn't right (TS 33.102 §6.3.5).
    BadAuts,
    /// The number at the centre is too far above the SEQ that the USIM reported: the number, then the SEQ.
    Beyond(u64, u64),
    /// The subscriber has no further number: this word stood there.
    Exhausted(u64),
    /// This number was drawn and isn't released, because reservations ended for this reason.
    Stopped(u64, Stop),
    /// The peer rejected the network (RFC 4187 §9.5).
    Rejected,
    /// The peer sent Client-Error with this code (RFC 4187 §9.9).
    ClientError(u16),
    /// The server gave up.
    GivenUp,
}

/// Why a session failed at its peer.
#[derive(Clone, Copy)]
pub enum PeerWhy {
    /// The request was no message that a server may send, or had an attribute that it may not have (RFC 4187 §6.3.1).
    Malformed,
    /// The request had no AT_RAND, AT_AUTN, AT_MAC or AT_NOTIFICATION where it must have one (RFC 4187 §6.3.1), or it was an
    /// AKA-Identity request that didn't ask for exactly one identity (RFC 4187 §9.1).
    Missing,
    /// A Challenge of EAP-AKA' offered no key derivation function that the peer has first (RFC 9048 §3.2).
    BadKdf,
    /// A Challenge of EAP-AKA' had no network name, or another than the peer's (RFC 9048 §3.1).
    BadName,
    /// The separation bit of AMF was clear in a Challenge of EAP-AKA' (TS 33.102 Annex H).
    NoSeparation,
    /// The server of EAP-AKA would rather use EAP-AKA', and the device has it (RFC 9048 §4).
    Downgrade,
    /// The USIM found the MAC of AUTN wrong (RFC 4187 §6.3.1 and §9.5).
    WrongAutn,
    /// The value of AT_MAC was wrong (RFC 4187 §6.3.1).
    WrongMac,
    /// AT_CHECKCODE wasn't that of the AKA-Identity packets that the peer received and sent (RFC 4187 §10.13).
    WrongCheckcode,
    /// AT_ENCR_DATA couldn't be decrypted to attributes (RFC 4187 §10.12).
    Undecryptable,
    /// The server notified a failure by this code (RFC 4187 §6.1).
    Notified(u16),
    /// The server sent EAP-Failure (RFC 4187 §6.3.3).
    FailureReceived,
    /// The peer gave up.
    GivenUp,
}

/// Why a session of EAP-SIM failed at an end.
#[derive(Clone, Copy, PartialEq, Eq)]
pub enum SimWhy {
    /// The value of AT_MAC isn't right (RFC 4186 §10.14).
    WrongMac,
    /// The peer sent this error code (RFC 4186 §10.19), at a server.
    ClientError(u16),
    /// The server doesn't offer version 1 (RFC 4186 §10.2), at a peer.
    Version,
    /// Two RANDs are equal (RFC 4186 §10.9), at a peer.
    NotFresh,
    /// A Failure was received (RFC 3748 §4.2), at a peer.
    FailureReceived,
}
