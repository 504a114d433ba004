//! HMAC with SHA-1 and SHA-256 (RFC 2104), and the keys that an authentication over EAP yields.
//!
//! [`HmacSha1`] and [`HmacSha256`] take a message in any number of pieces: `new` with the key, an
//! `update` for each piece, and `finish`. Contracts see such a state as its key and the bytes fed so far.
//! A [`KeySet`] holds the keys of a full authentication, a [`Pair`] those of a fast re-authentication,
//! and a [`Master`] the key that the pair is derived from. [`piece_of`] cuts a key out of a string of
//! bytes. [`mac_at`] and [`mac_of`] calculate the value of AT_MAC. [`Method`] tells EAP-AKA and EAP-AKA'
//! apart, and [`method_type`] gives its EAP type. Nothing here takes memory, waits or fails. The tests stand
//! in `auc_byte_tests`.
#![tactic(auto)]

mod block;
mod hmac_sha1;
mod hmac_sha256;
mod keys;
mod mac;
mod method;
mod piece;

pub use hmac_sha1::HmacSha1;
pub use hmac_sha256::HmacSha256;
pub use keys::{KeySet, Master, Pair};
pub use mac::{MacInput, mac_at, mac_of};
pub use method::{Method, method_type};
pub use piece::piece_of;
