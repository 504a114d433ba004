//! The places of the standard streams, which no file may get.
//!
//! [`fill_standard_streams`] fills the places of those that are closed, and [`above_standard_streams`] refuses a file that got
//! one. The program calls the first as it begins, and each object over a real file the second.
#![tactic(auto)]

mod standard_streams;

pub use standard_streams::{above_standard_streams, fill_standard_streams};
