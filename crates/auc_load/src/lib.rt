//! The form `load KEY SUBSCRIBERS JOBS WORKERS` of the program: what it serves, and what it writes.
//!
//! [`load_words`] reads the words. [`key_of`], [`subscribers`] and [`jobs`] make the input of one round: each job draws 5
//! vectors, and the jobs go round the subscribers. [`summary`] makes the five lines that are written once the round was
//! served: the numbers of the words, how many vectors were drawn, and the SHA-256 of all vectors by subscriber and
//! number. It makes the vectors in as many threads as there are workers, and returns after them. Its contract says that the
//! lines are a function of the words, so they are the same at each run and for each number of workers.
//!
//! `specs/Words` has the words and their ranges, `specs/Input` the input, `specs/Summary` the lines, and `specs/Pieces` the
//! pieces that the threads make. The tests stand in `auc_text_tests`.
#![tactic(auto)]

mod digest;
mod input;
mod lines;
mod pieces;
mod words;

pub use input::{jobs, key_of, subscribers};
pub use lines::summary;
pub use words::{LoadWords, MAX_LOAD_JOBS, MAX_LOAD_WORKERS, load_words};
