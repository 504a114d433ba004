//! Tests of the crates of sequence numbers: of SQNs, histories, the core, the shared words, and the sets of released numbers. One
//! file for each crate.
//!
//! They stand in a crate of their own, since the tests of a crate are proved together with it.
#![tactic(auto)]

#[cfg(test)]
mod draw;
#[cfg(test)]
mod history;
#[cfg(test)]
mod pure_core;
#[cfg(test)]
mod released;
#[cfg(test)]
mod sqn;
