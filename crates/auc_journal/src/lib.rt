//! The journal: one file of a disk that says up to which limit each subscriber's numbers are reserved.
//!
//! The centre releases no number above its subscriber's limit, and raises a limit only after
//! [`Journal::append`] has made the new one durable. [`Journal::open`] reads the limits back, so that the
//! next run begins above every number that was released. docs/journal.md draws the format, and says what a
//! crash may leave and why.
//!
//! Contracts see a [`Journal`] as its disk, the place of its closed gate, the subscribers for which it was
//! opened and those that have places, the limit of each identity, and whether an append has failed. What is
//! read of a file is defined on its bytes (`specs/Image`); what a crash may leave, while a journal is opened
//! or appended to and after that, is said for every disk.
//!
//! An opening takes memory for the whole file and for the limits; an append takes none and makes at most
//! four calls of the disk. Nothing here waits for another thread. The tests stand in `auc_disk_tests`.
#![tactic(auto)]

mod append_refusal;
mod filling;
mod journal;
mod limit;
mod limit_list;
mod log;
mod open_refused;
mod open_why;
mod opening;
mod places;
mod reading;
mod spelling;

pub use append_refusal::AppendRefusal;
pub use journal::Journal;
pub use limit::Limit;
pub use limit_list::LimitList;
pub use open_refused::OpenRefused;
pub use open_why::OpenWhy;
