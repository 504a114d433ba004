//! EAP-SIM (RFC 4186): GSM triplets, both ends of a full authentication, and whole sessions of them.
//!
//! [`triplet`] makes a triplet of an authentication vector, and [`card`] makes it as a USIM does (TS 33.102 §6.8.1.2).
//! [`SimServer`] and [`SimPeer`] are the ends: each takes received bytes, and sends bytes, ends or ignores them, by the tables of
//! `specs/Server` and `specs/Peer`, which docs/sessions.md draws. Their packets and keys are those of `auc_sim_packet`.
//! [`run_session`] runs both over a schedule of deliveries.
//!
//! Left out are pseudonyms, fast re-authentication, notifications and result indications. `specs/SessionLaws` says what holds of
//! each session: whichever packets are delivered, ends that both succeed have equal keys; and both succeed if each packet is
//! delivered once and the RANDs differ. Memory that runs out is the only error, and leaves an end as it was. The tests
//! stand in `auc_sim_tests`.
#![tactic(auto)]

mod end_law;
mod identity;
mod net;
mod peer;
mod rows;
mod server;
mod session;
mod session_law;
mod several;
mod triplets;

pub use auc_sim_packet::Triplet;
pub use auc_vector::{SimBecame, SimNote, SimWhy};
pub use end_law::each_sent_packet_leaves_fewer;
pub use identity::sim_identity;
pub use peer::{SimLast, SimPeer, SimWait};
pub use server::{SimAwait, SimServer};
pub use session::run_session;
pub use session_law::{
    each_card_has_the_triplet_of_its_vector, each_plain_session_succeeds, each_session_agrees,
    each_session_has_one_run,
};
pub use triplets::{card, triplet};
