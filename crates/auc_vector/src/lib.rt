//! Authentication vectors (TS 33.102 §6.3.2) for EAP-AKA and EAP-AKA', the keys made from them, AUTS (TS 33.102 §6.3.3),
//! and the authentication centre whose numbers they are of.
//!
//! [`vector`] makes the [`Vector`] of a number with a RAND under a secret. For EAP-AKA' it has CK' and IK' in the place of CK
//! and IK, bound to the network's name, as [`keys_by`] makes them (RFC 9048 §3.3); [`keys_of`] makes the keys of a full
//! authentication by either method, [`master_of`] and [`reauth_keys`] those of the fast re-authentications after it. For
//! many vectors of one subscriber for EAP-AKA, [`Vectors`] makes them with one key schedule and one generator. [`vectors`]
//! makes those of consecutive numbers, sixteen at a time.
//! [`read_auts`] reads a USIM's AUTS.
//!
//! A [`Centre`] gives numbers and resynchronises them; its ghost members say which entries of a subscriber's history
//! each call made. [`CoreCentre`] is the one over the pure core. [`ask`] and [`report`] call a centre and note its answer;
//! a [`Turn`] is what an end of a session does with what it received, with its [`Notes`]; [`ServerWhy`], [`PeerWhy`] and
//! [`SimWhy`] are the causes for which ends fail, and a [`SimNote`] is what is said of a session of EAP-SIM.
//!
//! Contracts see a `Vectors` as what its vectors are made from (`specs/Vector`), keys as functions of bytes (`specs/Keys`),
//! and a `CoreCentre` as its subscribers' words and greatest numbers. Nothing here takes memory or can fail. A `Centre`'s
//! calls may wait, and those of `CoreCentre` wait for nobody. The tests stand in `auc_vector_tests`.
#![tactic(auto)]

mod asking;
mod auts;
mod by_number;
mod centre;
mod core_centre;
mod keys;
mod law;
mod making;
mod many;
mod notes;
mod parts;
mod sim_note;
mod turn;
mod why;

pub use asking::{ask, report};
pub use auts::{Auts, read_auts};
pub use by_number::Vectors;
pub use centre::{Centre, CentreRefusal, Resynced};
pub use core_centre::CoreCentre;
pub use keys::{keys_by, keys_of, master_of, reauth_keys};
pub use law::{
    each_autn_carries_the_sqn_of_its_number, each_autn_has_the_mac_of_its_sqn,
    each_auts_is_read_back,
};
pub use making::vector;
pub use many::vectors;
pub use notes::{CounterNote, Notes, NumberNote, ResyncNote, UsimNote};
pub use parts::Vector;
pub use sim_note::{SimBecame, SimNote};
pub use turn::{Outcome, Reason, Step, Turn};
pub use why::{PeerWhy, ServerWhy, SimWhy};
