//! The identities of subscribers in EAP-AKA (RFC 4187 §4.1) and EAP-AKA' (RFC 9048).
//!
//! [`permanent`] gives the permanent identity of an IMSI, and [`permanent_in`] the IMSI of such an identity.
//! [`username`] is an identity without its realm, and [`with_realm`] adds one. [`Names`] makes pseudonyms and
//! re-authentication identities and finds the subscriber of each one; [`Ordinals`] counts those of a subscriber.
//!
//! Contracts see a [`Permanent`] as the list of its bytes, [`Names`] as a key of AES, and [`Ordinals`] as the last that was
//! given. Nothing here takes memory or waits. The tests stand in `auc_byte_tests`.
#![tactic(auto)]

mod identity;
mod law;
mod name;
mod names;
mod naming;
mod ordinals;

pub use identity::Permanent;
pub use law::{
    each_name_is_given_once, exactly_names_are_kept, exactly_the_names_are_resolved,
    permanent_identities_are_read_back,
};
pub use name::Name;
pub use names::{NameKind, Names};
pub use naming::{permanent, permanent_in, username, with_realm};
pub use ordinals::{Ordinals, Spent};
