//! Serving a round: what its jobs ask for, by 1 to 64 workers, each in a thread of its own.
//!
//! [`serve`] opens the shared words of a [`Round`] at the words of a [`State`]. Each worker claims jobs and serves their lines
//! at its desk: it draws vectors (TS 33.102 §6.3.2), resynchronises with a USIM's AUTS (§6.3.5), presents vectors to USIMs
//! (§6.3.3), derives the key of EPS (TS 33.401 Annex A.2), authenticates devices as in 5G (TS 33.501 §6.1.3.2), runs sites
//! with leased numbers, runs sessions of EAP-SIM (RFC 4186 §3), and runs the job's sessions (RFC 4187 §3, RFC 9048 §3) in a
//! network of their own, with copies of the USIMs that the job holds and of what their homes and devices keep
//! (RFC 4187 §4.1.1.7).
//! A number is released only within the limits of the journal, which the workers share in a lock. After the words are closed
//! it answers the record of the round, the state after it, and the journal. Its contract is that the round is lawful, by the
//! definitions of `auc_world`, and that the journal's limits cover what was released (`specs/Round`). If an append is refused,
//! the round goes on within the limits. If memory runs out, which is the only refusal, the state is the one before the round,
//! and the journal is handed back all the same.
//!
//! Contracts see a [`State`] as the record of its words, of what its USIMs, homes and devices keep, and of the numbers whose
//! vectors were released (`specs/State`). A private `Worker` serves a job over any centre that is lent to it. A round is put
//! together from the pieces of its workers (docs/threads.md). Rounds by hand stand in the tests of `auc_runs`.
#![tactic(auto)]

mod claiming;
mod drawing;
mod events;
mod giving;
mod job_lines;
mod jobs;
mod preparing;
mod round;
mod round_jobs;
mod sim;
mod sites;
mod state;
mod stopping;
mod syncing;
mod systems;
mod worker;
mod workers;

pub use auc_world::Setting;
pub use round::{Ran, Round, Served, serve};
pub use state::State;
