//! Packets and keys of EAP-SIM (RFC 4186), of a full authentication.
//!
//! [`read_sim`] reads bytes as a packet, or reports their first fault, and [`write_sim`] writes the one spelling of a packet
//! (RFC 4186 §8 to §10). [`receive_sim`] takes received bytes as one value, and [`is_sim_sealed`] tells whether their AT_MAC is
//! right. [`sealed_sim`] writes a message with its AT_MAC, and [`sim_keys`] makes the keys of GSM triplets (RFC 4186 §7).
//! [`start_request`] to [`client_error`] are the messages that the two ends send (RFC 4186 §9).
//!
//! `specs/Packet` relates bytes to packets and leaves reserved bytes, fill and the bytes after Length free. A written packet is
//! read as itself, whatever follows it, and a sealed one has a right AT_MAC. Contracts see a [`SimList`] as the list of its
//! attributes, and a [`SimReceived`] as its `SimSeen`. Memory that runs out is the only error besides a fault of the bytes. The
//! tests stand in `auc_sim_tests`.
#![tactic(auto)]

mod attr;
mod attr_list;
mod conversion;
mod joined;
mod keys;
mod law;
mod mac;
mod may_write;
mod messages;
mod packet;
mod parts;
mod reading;
mod received;
mod refusal;
mod sealing;
mod values;
mod writing;

pub use attr::SimAttr;
pub use attr_list::SimList;
pub use joined::all_sres;
pub use keys::sim_keys;
pub use law::{
    bytes_are_one_packet, bytes_have_one_first_fault, equal_bytes_are_received_alike,
    read_packets_may_be_written, refused_bytes_are_no_packet, sealed_messages_are_read,
    sealed_messages_are_right, written_packets_are_read, written_packets_are_received,
};
pub use mac::has_mac;
pub use messages::{
    challenge_request, challenge_response, client_error, start_request, start_response,
};
pub use packet::SimPacket;
pub use parts::Triplet;
pub use reading::read_sim;
pub use received::{SimReceived, is_sim_sealed, receive_sim};
pub use refusal::SimRefusal;
pub use sealing::{SimDraft, sealed_sim};
pub use values::{code_in, identity_in, nonce_in, rands_in, selected_in, versions_in};
pub use writing::write_sim;
