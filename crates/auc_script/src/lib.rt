//! The scenario of a run: what the centre is asked for, round by round and job by job.
//!
//! [`Script::read`] reads a scenario's text: lines of words, each line with the first word that says what
//! it is. `randkey`, `workers`, `print`, `realm` and the scenario's own `subscriber`s come before the first
//! `round`; a round has `job`s, and a job has lines `draw`, `sync`, `give`, `eps`, `fiveg`, `sites` and `sim`, those of sessions,
//! `session`, `start`, `deliver`, `repeat`, `giveup` and `plain`, and `tamper` and `cut` for a changed packet. A `restart`
//! may stand once after each round. The first line that is none of these, or stands in a wrong place, or has a wrong field,
//! or passes a limit, is refused by its number and its first cause, a [`ScriptWhy`].
//!
//! What one line says is read by `auc_reading`, and this crate says which lines may follow which. The parts and lines of a
//! scenario are types of `auc_lines`. Contracts see the lists of a [`Script`] as lists; its subscribers go to `auc_subs`.
#![tactic(auto)]

mod form;
mod header;
mod holders;
mod law;
mod limits;
mod line_order;
mod number_set;
mod refusal;
mod round_so_far;
mod script;
mod sessions;
mod so_far;

pub use auc_lines::{
    End, FivegLine, Identity, JobPart, Line, Part, RoundPart, SessionLine, SimDelivery, SimLine,
    SimSchedule, SiteEvent, SitesLine,
};
pub use auc_reading::{
    LAST_PACKET, LAST_PLACE, LAST_SESSION, MAX_COUNT, MAX_EVENTS, MAX_LEASED, MAX_NAME, MAX_SITES,
    MAX_TEXT, MAX_TRIPLETS, MIN_TRIPLETS, ScriptWhy,
};
pub use law::{
    refused_line_is_the_first_wrong, right_text_is_read_whole, text_that_is_read_is_right,
};
pub use limits::{
    MAX_JOBS, MAX_PACKETS, MAX_REALM, MAX_ROUNDS, MAX_SESSIONS, MAX_VECTORS, MAX_WORKERS,
    PACKETS_OF_PLAIN,
};
pub use refusal::ScriptRefusal;
pub use script::{Script, read_block};
