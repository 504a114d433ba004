//! The keys of EAP-AKA (RFC 4187 §7), and the generator that makes them.
//!
//! [`next_word`] is one step of the generator of RFC 4187 Appendix A (FIPS 186-2 with change notice 1): it
//! gives a word of 20 bytes from XKEY, and the next XKEY. [`aka_keys`] makes all keys of a full
//! authentication, [`keys_of_mk`] makes them of an MK, and [`aka_reauth_keys`] makes those of a fast
//! re-authentication. Contracts see XKEY as a number below 2^160, and the generator as a recursion on such
//! numbers; the code works on strings of 20 bytes. Nothing here takes memory, waits or fails.
//! The tests stand in `auc_byte_tests`.
#![tactic(auto)]

mod compression;
mod generator;
mod keys;
mod schedule;
mod sum;

pub use generator::next_word;
pub use keys::{aka_keys, aka_reauth_keys, keys_of_mk};
