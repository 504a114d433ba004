//! The Milenage algorithm set of the authentication and key generation functions (3GPP TS 35.206).
//!
//! A [`Secret`] is what the authentication centre and a USIM share: K, and OPc, which [`opc_of`] derives.
//! Under it [`f1`] and [`f1_star`] authenticate SQN and AMF, [`f2345`] gives RES, CK, IK and AK,
//! [`f5_star`] gives the AK of a resynchronisation, and [`make_auts`] its AUTS (TS 33.102 §6.3.3).
//! A [`Milenage`] holds the key schedule of one secret, for many vectors of a subscriber:
//! [`Milenage::f12345`] computes all that one vector needs, with five AES blocks. [`outs`] gives OUT1 to OUT5, of which
//! these functions are parts. A [`MilenageLanes`] computes OUT1 to OUT4 of many RANDs of a secret at a time.
//!
//! Contracts are the standard's equations on lists of bytes, over the AES-128 of `auc_aes`. They see a
//! `Milenage` and a `MilenageLanes` as its secret. Nothing here takes memory, waits or can fail. The tests stand in `auc_byte_tests`.
#![tactic(auto)]

mod auts;
mod functions;
mod lanes;
mod milenage;
mod secret;

pub use auts::make_auts;
pub use functions::{f1, f1_star, f5_star, f2345, outs};
pub use lanes::MilenageLanes;
pub use milenage::{Milenage, in1};
pub use secret::{Four, Outs, Secret, opc_of};
