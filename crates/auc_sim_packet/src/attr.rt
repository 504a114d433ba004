//! An attribute.

use auc_memory::Octets;

/// An attribute, by its name in RFC 4186 §10: its value, without length, reserved bytes and fill.
#[derive(Drop)]
pub enum SimAttr {
    /// The challenges, two or three RANDs of 16 bytes one after another (RFC 4186 §10.9).
    Rand(Octets),
    /// The peer's nonce (RFC 4186 §10.4).
    NonceMt([u8; 16]),
    /// The permanent identity is asked for (RFC 4186 §10.5).
    PermanentIdReq,
    /// The message authentication code (RFC 4186 §10.14).
    Mac([u8; 16]),
    /// Any identity is asked for (RFC 4186 §10.6).
    AnyIdReq,
    /// The peer's identity, up to 1016 bytes (RFC 4186 §10.8).
    Identity(Octets),
    /// The versions that the server offers, at least one, of two bytes each (RFC 4186 §10.2).
    VersionList(Octets),
    /// The version that the peer chose (RFC 4186 §10.3).
    SelectedVersion(u16),
    /// An identity for full authentication is asked for (RFC 4186 §10.7).
    FullauthIdReq,
    /// The peer's error code (RFC 4186 §10.19).
    ClientErrorCode(u16),
    /// An attribute of an unknown type from 128 on, with all bytes after its length (RFC 4186 §8.2).
    Skipped(u8, Octets),
}
