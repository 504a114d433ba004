//! An attribute.

use auc_memory::Octets;

/// An attribute, by its name in RFC 4187 §10 and RFC 9048 §3 and §4: its value, without length, reserved
/// bytes and fill.
#[derive(Drop)]
pub enum Attr {
    /// The challenge (RFC 4187 §10.6).
    Rand([u8; 16]),
    /// The authentication token (RFC 4187 §10.7).
    Autn([u8; 16]),
    /// The response to the challenge, 4 to 16 bytes (RFC 4187 §10.8).
    Res(Octets),
    /// The USIM's answer to a sequence number that is out of order (RFC 4187 §10.9).
    Auts([u8; 14]),
    /// 2, 6 or 10 zero bytes at the end of encrypted attributes (RFC 4187 §10.12).
    Padding(Octets),
    /// The permanent identity is asked for (RFC 4187 §10.2).
    PermanentIdReq,
    /// The message authentication code (RFC 4187 §10.15).
    Mac([u8; 16]),
    /// A notification code (RFC 4187 §10.19).
    Notification(u16),
    /// Any identity is asked for (RFC 4187 §10.3).
    AnyIdReq,
    /// The peer's identity, up to 1016 bytes (RFC 4187 §10.5).
    Identity(Octets),
    /// An identity for full authentication is asked for (RFC 4187 §10.4).
    FullauthIdReq,
    /// The counter of a fast re-authentication (RFC 4187 §10.16).
    Counter(u16),
    /// The counter that was received is too small (RFC 4187 §10.17).
    CounterTooSmall,
    /// The server's nonce of a fast re-authentication (RFC 4187 §10.18).
    NonceS([u8; 16]),
    /// The peer's error code (RFC 4187 §10.20).
    ClientErrorCode(u16),
    /// The network name, up to 1016 bytes (RFC 9048 §3.1).
    KdfInput(Octets),
    /// A key derivation function that is offered or chosen (RFC 9048 §3.2).
    Kdf(u16),
    /// The initialisation vector of encrypted attributes (RFC 4187 §10.12).
    Iv([u8; 16]),
    /// Encrypted attributes, up to 1016 bytes, a multiple of 4 (RFC 4187 §10.12).
    EncrData(Octets),
    /// The next pseudonym, up to 1016 bytes (RFC 4187 §10.10).
    NextPseudonym(Octets),
    /// The next re-authentication identity, up to 1016 bytes (RFC 4187 §10.11).
    NextReauthId(Octets),
    /// The hash of the AKA-Identity packets: 20 or 32 bytes, or none if there were no such packets
    /// (RFC 4187 §10.13, RFC 9048 §3.4.3).
    Checkcode(Octets),
    /// The sender supports result indications (RFC 4187 §10.14).
    ResultInd,
    /// The bit D: whether the server would rather use EAP-AKA' (RFC 9048 §4).
    Bidding(bool),
    /// An attribute of an unknown type from 128 on, with all bytes after its length
    /// (RFC 4187 §8.2).
    Skipped(u8, Octets),
}
