//! What every list of events of sessions promises, without a scenario and without the call that serves one.
//!
//! A run is a list of events (RFC 4187 §3: a server starts, a packet is delivered again or in any order, an end gives up, or the
//! network changes a copy of a packet), each applied by `World::apply` to one network of sessions and to one `CoreCentre`. Packets
//! that are never delivered are lost. A run begins with a network in which nothing has happened, with USIMs opened at their rows,
//! and with the centre at the rows' numbers (`specs/Run`).
//!
//! The records of each run are those of a lawful transcript, by the definitions of `auc_world`: each end takes the step of its
//! table, each USIM answers by all that it had accepted, and the centre's answers are a legal history of each subscriber. So the
//! promises of lawful transcripts hold of every run (`specs/Promises`): no SQN comes twice, no USIM accepts one twice, vectors fail
//! by their places (TS 33.102 Annex C), and two ends of an authentication have equal keys.
//!
//! There is no code here but the laws.
#![tactic(auto)]

mod law;

pub use law::{
    each_job_holds_its_subscribers, each_run_is_lawful, each_run_keeps_its_promises,
    each_run_may_go_on,
};
