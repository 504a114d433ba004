//! AES-128 (FIPS 197) and its CBC mode (NIST SP 800-38A §6.2).
//!
//! Start from [`Key`], which holds the key schedule: [`Key::encrypt`] and [`Key::decrypt`] take a block of
//! 16 bytes, [`Key::encrypt_many`] and [`Key::decrypt_many`] replace many blocks, and [`Key::cbc_encrypt`] and
//! [`Key::cbc_decrypt`] work in place on a string of whole blocks. A [`Lanes`] encrypts many blocks at each of many calls.
//! [`xor`] is the exclusive or of byte strings, [`rot`] rotates a block, [`block_at`] and [`put_block`] read
//! and write a block of a longer string.
//!
//! Contracts see a `Key` as the 16 bytes of the key, and not its round keys. They cite the standard's
//! functions on lists, in `specs/`; the code uses tables, and each entry is proved to follow its rule.
//! Nothing here takes memory, waits or can fail. The tests stand in `auc_byte_tests`.
#![tactic(auto)]

mod block;
mod cbc;
mod coordinates;
mod inverse_round;
mod key;
mod lane_keys;
mod lane_tables;
mod lanes;
mod law;
mod pairs;
mod round;
mod tables;
mod words;

pub use block::{block_at, put_block, rot, xor};
pub use key::Key;
pub use lanes::Lanes;
pub use law::{decryption_undoes_encryption, encryption_undoes_decryption};
