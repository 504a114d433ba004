//! The keys of EAP-AKA' (RFC 9048 §3).
//!
//! [`prime_ck_ik`] derives CK' and IK' for one access network (TS 33.402 Annex A.2), [`prime_keys`] all
//! keys of a full authentication, and [`prime_reauth_keys`] those of a fast re-authentication. The last
//! two use PRF' (RFC 9048 §3.4.1), whose blocks are HMAC-SHA-256. Contracts give each key as bytes of the
//! RFC's MK. Nothing here takes memory, waits or fails. The tests stand in `auc_byte_tests`.
#![tactic(auto)]

mod bytes;
mod full;
mod prf;
mod primed;
mod reauth;

pub use full::prime_keys;
pub use primed::prime_ck_ik;
pub use reauth::prime_reauth_keys;
