//! The keys of an authentication.

/// The keys of a full authentication (RFC 4187 §7, RFC 9048 §3.3).
#[derive(Clone, Copy, Debug, PartialEq, Eq)]
pub struct KeySet {
    /// K_encr, which encrypts attributes: 16 bytes.
    pub k_encr: [u8; 16],
    /// K_aut, which authenticates packets: 32 bytes. EAP-AKA's has 16, followed by 16 zero bytes.
    pub k_aut: [u8; 32],
    /// K_re, from which EAP-AKA' derives the keys of a fast re-authentication: 32 bytes. EAP-AKA has
    /// none: all bytes are zero.
    pub k_re: [u8; 32],
    /// The Master Session Key, 64 bytes.
    pub msk: [u8; 64],
    /// The Extended Master Session Key, 64 bytes.
    pub emsk: [u8; 64],
}

/// The key that the keys of a fast re-authentication are derived from.
#[derive(Clone, Copy, Debug, PartialEq, Eq)]
pub enum Master {
    /// EAP-AKA's MK, 20 bytes (RFC 4187 §7).
    Aka([u8; 20]),
    /// The K_re of EAP-AKA', 32 bytes (RFC 9048 §3.3).
    Prime([u8; 32]),
}

/// The keys of a fast re-authentication (RFC 4187 §7, RFC 9048 §3.3).
#[derive(Clone, Copy, PartialEq, Eq)]
pub struct Pair {
    /// The Master Session Key, 64 bytes.
    pub msk: [u8; 64],
    /// The Extended Master Session Key, 64 bytes.
    pub emsk: [u8; 64],
}
