//! One run of the authentication centre's program, [`run`], or one service of it, [`serve`]. What their clauses say of
//! contents holds for a shelf, an output and a wire that reveal what they hold, as those in memory do; of the program's own
//! files and streams they say nothing, and tests show that the same generic code runs there.
//!
//! If the status is [`Status::Done`], the bytes written are the text of exactly one lawful transcript of the
//! scenario. Within this run no two vectors of a subscriber have the same SQN, no USIM accepts an SQN twice, and
//! a vector gets a synchronisation failure exactly if its place says so, whether a `give` line or a session presents it. A
//! server and a peer that succeed over one challenge or in one fast re-authentication have equal keys if no delivery of their
//! jobs broke the premise. No counter is used twice under the keys of one full authentication, and no identity is resumed twice.
//! A session that has its `plain` line alone succeeds at both ends unless a line tells why not, or if its server takes up a
//! context again that its device has with the same counter.
//!
//! With every status a crash leaves a journal that reserves each number that was written as released, and for every identity
//! at least what the journal that was found did, also at any earlier moment of the call (`specs/Crash`). So no later run draws one of these numbers again
//! ([`no_later_run_draws_a_number_again`], `specs/Chain`). Each other status except want of memory has its cause, and each
//! cause its status; the subscribers are judged before the scenario is. All of this holds for every number of workers that serve a round, and
//! however their steps interleave. No clause says in which order the jobs of a round are served, or that a worker gets on;
//! tests of the crate `auc_runs` show that two jobs are served at the same time.
//!
//! A service hears blocks of lines and replies to each before it hears more. All that is said above of one run's output holds of
//! the rounds of all blocks that it answered (`specs/Service`).
//!
//! `specs/Outcome` says how a run ends, `auc_refusal` which status and line a refusal has, `auc_input` what words name and files
//! give, `specs/Output` what a run writes; `auc_transcript` says which transcripts are lawful. Memory is taken, the workers' threads are
//! started, and the call waits for them.
#![tactic(auto)]

mod blocks;
mod ended;
mod law;
mod load;
mod named;
mod resources;
mod rounds;
mod service;
mod telling;
mod top_call;

pub use auc_input::MAX_FILE;
pub use auc_refusal::Status;
pub use ended::Ended;
pub use law::{each_run_is_one_of_a_chain, no_later_run_draws_a_number_again};
pub use service::serve;
pub use top_call::run;
