//! Authentication of the packets of EAP-AKA (RFC 4187 §10.13 and §10.15) and EAP-AKA' (RFC 9048 §3.4), and
//! encryption of attributes (RFC 4187 §10.12).
//!
//! [`seal_mac`] sets the value of a packet's AT_MAC, [`check_mac`] tells whether it is right. A
//! [`Checkcode`] hashes the packets of the AKA-Identity rounds in order, and [`IdentityPackets`] are those of an
//! exchange, each once. [`encrypt_attrs`] encrypts
//! attributes, [`put_encrypted`] does so in memory that was taken before, [`decrypt_attrs`] decrypts them, and
//! [`open_attrs`] decrypts their bytes into memory that was taken before.
//!
//! Contracts see a packet as the list of its bytes, `IdentityPackets` as the list of the packets, and a `Checkcode`
//! as its method and the packets that it was given. They see nothing of an [`EncryptionRoom`]. Only `encrypt_attrs`, `decrypt_attrs`,
//! `EncryptionRoom::new` and the additions to `IdentityPackets` take memory, and nothing waits.
#![tactic(auto)]

mod checkcode;
mod copying;
mod decryption;
mod encryption;
mod identity_packets;
mod law;
mod mac;
mod opening;
mod refusal;

pub use checkcode::{CheckValue, Checkcode};
pub use decryption::decrypt_attrs;
pub use encryption::{EncryptionRoom, encrypt_attrs, may_be_encrypted, put_encrypted};
pub use identity_packets::IdentityPackets;
pub use law::{
    decryption_has_one_answer, encrypted_attributes_are_decrypted,
    encrypted_attributes_may_be_written, lists_open_as_they_decrypt, opening_has_one_answer,
    values_of_the_mac_have_one_place,
};
pub use mac::{Mac, check_mac, seal_mac};
pub use opening::{ciphertext_size, open_attrs};
pub use refusal::SealRefusal;
