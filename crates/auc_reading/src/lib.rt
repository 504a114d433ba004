//! The words and the fields of one line of a scenario.
//!
//! [`read_word`] tells by the first word of a line what the line is, and [`read_line`] what the fields of a job's line say: a
//! [`Line`](auc_lines::Line), or its first cause, a [`ScriptWhy`]. The order of lines, and what a line demands of those before
//! it, is `auc_script`'s, which reads the fields of the header's lines by [`one_field`], [`read_number`] and [`read_full`].
//!
//! Contracts see a line, its words and its fields as lists of bytes, and say what they say by one definition for each word,
//! `line_of` for those of a job. Only [`read_line`] takes memory, for names, texts and schedules; nothing here waits.
#![tactic(auto)]

mod field;
mod fiveg_line;
mod job_line;
mod limits;
mod refusal;
mod schedule;
mod session_line;
mod sim_line;
mod sites_line;
mod texts;
mod word;

pub use field::{no_field, one_field, read_full, read_number};
pub use job_line::read_line;
pub use limits::{
    LAST_PACKET, LAST_PLACE, LAST_SESSION, MAX_COUNT, MAX_EVENTS, MAX_LEASED, MAX_NAME, MAX_SITES,
    MAX_TEXT, MAX_TRIPLETS, MIN_TRIPLETS,
};
pub use refusal::{LineRefusal, ScriptWhy, require};
pub use texts::has_fit_texts;
pub use word::{HeaderWord, JobWord, Word, is_comment, read_word};
