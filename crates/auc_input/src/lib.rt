//! What a run begins with: its words, its input files, and the journal of its disk.
//!
//! [`input_files`], [`service_words`] and [`journal_form`] read the words. [`read_input`] reads the subscribers, if a file of them
//! is named, and then the scenario; [`read_subscribers`] reads the subscribers alone. [`open_journal`] opens the journal of a disk
//! for some subscribers, and [`openings`] gives the words at which its limits open them.
//!
//! `specs/Words` says what words name, `specs/Reading` what is read and why it is refused, and `specs/Opening` what an opened
//! journal is. Memory is taken; nothing here waits.
#![tactic(auto)]

mod forms;
mod header;
mod input;
mod opening;

pub use forms::{InputFiles, JournalForm, ServiceWords, input_files, journal_form, service_words};
pub use header::{Ear, new_ear, read_header};
pub use input::{Input, MAX_FILE, read_input, read_subscribers};
pub use opening::{open_journal, openings};
