//! The outside of the authentication centre.
//!
//! A [`Shelf`] is a set of files that is read, a [`Sink`] an output that is written. Contracts see a
//! count of faults, and the contents if the object reveals them: a call fails only if the object's count
//! rose. [`MemShelf`] and [`MemSink`] reveal everything; [`FileShelf`] and [`StdSink`], the real ones,
//! no content. The layers above call [`read_all`] and [`write_whole`]. No file gets the place of a standard stream
//! ([`fill_standard_streams`]).
//!
//! The small types of `auc_memory`, and what `auc_streams` does for the standard streams, are found here too.
//!
//! A [`Gate`] is told which jobs of a round begin and end. It means nothing to a contract: [`OpenGate`] holds nobody, and
//! at a [`TurnGate`] two jobs wait for each other, which is how a test sees that they are served at the same time. Nothing
//! else here waits for another thread. The tests stand in `auc_disk_tests`.
#![tactic(auto)]

mod file_shelf;
mod gate;
mod mem_shelf;
mod mem_sink;
mod read_refusal;
mod reading;
mod shelf;
mod sink;
mod std_sink;
mod writing;

pub use auc_memory::{Failed, IdentityKey, Imsi, Items, NoMemory, Octets, Places, Room, Stop};
pub use auc_streams::{above_standard_streams, fill_standard_streams};
pub use file_shelf::FileShelf;
pub use gate::{Gate, OpenGate, TurnGate};
pub use mem_shelf::MemShelf;
pub use mem_sink::MemSink;
pub use read_refusal::ReadRefusal;
pub use reading::read_all;
pub use shelf::Shelf;
pub use sink::Sink;
pub use std_sink::StdSink;
pub use writing::write_whole;
