//! The USIMs of the subscribers with what is kept of their names, and the devices with some of them with which a job is served.
//!
//! [`Cards`] has a card for each subscriber: its USIM, which remembers what it accepted (TS 33.102 §6.3.3 and Annex C.2), and
//! what its home and its device keep of its names (RFC 4187 §4.1.1.7). A job is served with its own [`JobDevices`]: a home and
//! a device for each subscriber whose USIM it holds, with copies of the card. After the round they are put back in their
//! places; no two jobs of a round hold one USIM, so it doesn't matter who served them.
//!
//! Contracts see [`Cards`] as the list of what each USIM keeps and the list of ordinals and stores, and [`JobDevices`] as the
//! devices with their homes.
//! What makes either takes memory, which is the only refusal. Nothing here waits.
#![tactic(auto)]

mod cards;
mod devices;

pub use cards::{Card, Cards};
pub use devices::JobDevices;
