//! What the two ends of a session keep for fast re-authentication (RFC 4187 §5, RFC 9048 §3.3).
//!
//! A [`Context`] is what a full authentication leaves behind: a re-authentication identity, keys and a counter.
//! A [`ServerStore`] is a subscriber's contexts in the home network: a context that is taken leaves it. A
//! [`DeviceStore`] is a device's pseudonyms and contexts: a counter that it accepts is never open again. Each keeps
//! at most one context for each method. [`Kept`] is what passes of both from job to job.
//!
//! Contracts see a `ServerStore` as `Contexts`, the context of each method, and a `DeviceStore` as `Keeps`, which has
//! the pseudonym of each method, too. The laws speak of every list of calls. Nothing here takes memory, waits or
//! fails. The tests stand in `auc_byte_tests`.
#![tactic(auto)]

mod context;
mod device_store;
mod kept;
mod law;
mod server_store;

pub use context::Context;
pub use device_store::DeviceStore;
pub use kept::Kept;
pub use law::{
    accepted_counters_rise, contexts_are_taken_once, identities_are_taken_once,
    no_counter_is_used_twice, no_identity_is_resumed_twice,
};
pub use server_store::ServerStore;
