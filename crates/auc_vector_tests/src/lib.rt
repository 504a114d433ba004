//! Tests of the crates of vectors, of USIMs, of EPS and 5G keys, of sites, and of centres, on one thread and over shared words:
//! one file for each, and for vectors one of values and one of the centre.
//!
//! They stand in a crate of their own, since the tests of a crate are proved together with it.
#![tactic(auto)]

#[cfg(test)]
mod centre;
#[cfg(test)]
mod core_centre;
#[cfg(test)]
mod fiveg;
#[cfg(test)]
mod sites;
#[cfg(test)]
mod usim;
#[cfg(test)]
mod vector;
