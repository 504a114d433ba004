//! What a triplet has.

/// A GSM triplet.
#[derive(Clone, Copy, PartialEq, Eq)]
pub struct Triplet {
    /// RAND, the challenge.
    pub rand: [u8; 16],
    /// SRES, the response.
    pub sres: [u8; 4],
    /// Kc, the cipher key.
    pub kc: [u8; 8],
}
