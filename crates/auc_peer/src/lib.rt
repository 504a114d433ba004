//! The peer of EAP-AKA (RFC 4187) and EAP-AKA' (RFC 9048) with pseudonyms and fast re-authentication: the end of a session
//! that has the USIM. [`PeerOptions`] say which method it takes, of which network, and which identity it sends first.
//!
//! A [`Peer`] takes the packets that it receives by [`Peer::on_bytes`], at the [`Device`] of its subscriber, and gives
//! up by [`Peer::give_up`]. Each call answers what the peer sent, or why it ended or ignored the packet.
//!
//! Contracts see a `Peer` as a `PeerEnd` and a `Device` as a `DeviceState` (`specs/Peer`, `specs/Device`). `specs/Rows` says which row of the table of states a packet
//! falls into, in the order of the tests, and `specs/Table` what each row does; `docs/sessions.md` draws the machine.
//! `on_bytes` takes all memory that it needs before it changes anything, so a call that finds none leaves peer and
//! device as they were. Nothing waits.
#![tactic(auto)]

mod challenge;
mod decrypted;
mod device;
mod identities;
mod identity;
mod law;
mod messages;
mod next;
mod options;
mod peer;
mod reading;
mod reauth;
mod rooms;
mod rows;
mod turns;

pub use auc_vector::PeerWhy;
pub use decrypted::Decrypted;
pub use device::Device;
pub use identity::FirstIdentity;
pub use law::{
    each_accepted_counter_is_of_the_context, each_turn_accepts_its_own_network,
    each_turn_adopts_at_success_alone, each_turn_keeps_contexts_of_the_method,
    each_turn_keeps_the_keys_of_its_inputs, each_turn_keeps_what_keys_are_made_from,
    each_turn_leaves_the_other_method, each_turn_moves_at_most_one_context, equal_turns_are_one,
    success_needs_a_right_mac,
};
pub use next::NextContext;
pub use options::PeerOptions;
pub use peer::{Challenge, Last, Peer, PeerState, Source};
pub use rows::Row;
