//! The small types that every layer uses: memory that may run out, identities, and how a call of the outside fails.
//!
//! [`Octets`] is a string of bytes and [`Items`] a list of records; contracts see both as lists. [`Room`] and [`Places`] are
//! memory that is taken before it is written. [`NoMemory`] is the answer if memory runs out, and stands for nothing else.
//!
//! [`Imsi`] is a subscriber's identity (TS 23.003 §2.2), which contracts see as the record of how many digits it has and of
//! their value; an [`IdentityKey`] is its key in a map.
//!
//! [`Failed`] is the answer of a call of the outside that failed; contracts see how often that was (`specs/Faults`), and what a
//! read gives into a buffer (`specs/Buffer`). [`Stop`] names why numbers are withheld. The tests stand in `auc_disk_tests`.
#![tactic(auto)]

mod failed;
mod identity_key;
mod imsi;
mod items;
mod law;
mod no_memory;
mod octets;
mod places;
mod room;
mod stop;

pub use failed::{Failed, counted};
pub use identity_key::IdentityKey;
pub use imsi::Imsi;
pub use items::Items;
pub use law::{each_identity_is_read_back, each_text_is_written_back};
pub use no_memory::NoMemory;
pub use octets::Octets;
pub use places::Places;
pub use room::Room;
pub use stop::Stop;
