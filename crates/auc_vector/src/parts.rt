//! What an authentication vector has.

/// The authentication vector of a number (TS 33.102 §6.3.2).
#[derive(Clone, Copy, Debug, PartialEq, Eq)]
pub struct Vector {
    /// The number, which is SEQ.
    pub n: u64,
    /// RAND, the challenge.
    pub rand: [u8; 16],
    /// AUTN: SQN masked by AK, 6 bytes; AMF, 2 bytes; the MAC, 8 bytes.
    pub autn: [u8; 16],
    /// XRES, the response that is expected.
    pub xres: [u8; 8],
    /// CK, the cipher key; for EAP-AKA' CK'.
    pub ck: [u8; 16],
    /// IK, the integrity key; for EAP-AKA' IK'.
    pub ik: [u8; 16],
}
