//! Tests of the crates of the outside, of the disk, of the journal and of its keeper: one file for each crate, one for the
//! longest journals, and one for journals some of whose subscribers have the places.
//!
//! They stand in a crate of their own, since the tests of a crate are proved together with it.
#![tactic(auto)]

#[cfg(test)]
mod disk;
#[cfg(test)]
mod edge;
#[cfg(test)]
mod journal;
#[cfg(test)]
mod keeper;
#[cfg(test)]
mod longest;
#[cfg(test)]
mod naming;
