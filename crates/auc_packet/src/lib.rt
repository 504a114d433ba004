//! Packets of EAP (RFC 3748 §4), EAP-AKA (RFC 4187 §8 and §9) and EAP-AKA' (RFC 9048), read and written.
//!
//! [`read_packet`] reads bytes as a packet, or reports their first fault: each fault has a condition of its own,
//! listed in their order in `auc_attr`'s `specs/Frame` and `specs/Fault`. [`head`] reads code, Identifier and
//! type alone. [`receive`] takes bytes as one value, [`attrs_in`] gives the attributes of what was received, and
//! [`is_sealed`] tells whether its AT_MAC is right. [`packet_in`] leaves the bytes after Length out.
//! [`write_packet`] writes the one spelling of a packet, [`put_packet`] does so into memory that was taken
//! before, and [`put_sealed`] with the right AT_MAC. [`is_malformed`] and [`is_missing`] test a message's types.
//!
//! `specs/Packet` relates bytes to packets and leaves reserved bytes, fill and the bytes after Length free. A
//! written packet is read as the same packet, whatever follows it. Contracts see a [`Received`] as its `Seen`.
//! `read_packet`, `receive` and `write_packet` take memory; no other call does. The tests stand in `auc_byte_tests`.
#![tactic(auto)]

mod first_bytes;
mod law;
mod messages;
mod packet;
mod reading;
mod received;
mod refusal;
mod sealing;
mod subtype;
mod writing;

pub use first_bytes::head;
pub use law::{
    bytes_are_one_packet, bytes_have_one_first_fault, equal_bytes_are_received_alike,
    read_packets_may_be_written, refused_bytes_are_no_packet, sealed_messages_are_read,
    sealed_messages_are_right, written_packets_are_read,
};
pub use messages::{is_malformed, is_missing};
pub use packet::{Head, Packet};
pub use reading::read_packet;
pub use received::{Reading, Received, attrs_in, is_sealed, packet_in, receive};
pub use refusal::PacketRefusal;
pub use sealing::{Draft, put_sealed};
pub use subtype::Subtype;
pub use writing::{put_packet, write_packet};
