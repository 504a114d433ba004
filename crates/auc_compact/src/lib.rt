//! The form `compact`: a journal anew, in which each identity stands once.
//!
//! A journal grows by a frame with each reservation and ends at 2^30 bytes. [`compact`] makes the bytes of one that has exactly
//! some limits: the header, a frame of kind 1 for each limit in their order, and a closed gate. Nothing stands behind that gate.
//!
//! `specs/Compact` says which word the form has and what its bytes are. If the limits are those of a file that is read as a
//! journal, the bytes are read as a journal at rest with these limits, and reserve for every identity exactly what the file does.
//! Nothing here waits; memory is taken for the bytes.
#![tactic(auto)]

mod image;
mod refusal;

pub use image::{compact, is_compact};
pub use refusal::CompactRefusal;
