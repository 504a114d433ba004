//! What the centre keeps of one subscriber.

use auc_memory::Imsi;
use auc_milenage::Secret;

/// The greatest age limit: what 48 bits hold.
pub const MAX_AGE: u64 = 281474976710655;

/// A subscriber. Byte strings have their most significant byte first.
#[derive(Clone, Copy)]
pub struct Row {
    /// The identity (TS 23.003 §2.2).
    pub imsi: Imsi,
    /// The key K and OPc, which the USIM shares (TS 35.206 §2.3 and §4.1).
    pub secret: Secret,
    /// The authentication management field of the subscriber's vectors (TS 33.102 §6.3.2).
    pub amf: [u8; 2],
    /// The number up to which the centre has drawn vectors, at most the subscriber's greatest (`top`).
    pub seq: u64,
    /// The number up to which the USIM counts numbers as accepted, at most the subscriber's greatest.
    pub usim: u64,
    /// How many bits IND has, at most `MAX_BITS` (TS 33.102 Annex C.1.1.1).
    pub bits: u8,
    /// The USIM's age limit, 1 to [`MAX_AGE`], or `None` if it has none (TS 33.102 Annex C.2).
    pub age: Option<u64>,
}
