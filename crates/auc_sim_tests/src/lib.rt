//! Tests of EAP-SIM: its packets, and its keys and both ends.
//!
//! They stand in a crate of their own, since the tests of a crate are proved together with it.
#![tactic(auto)]

#[cfg(test)]
mod ends;
#[cfg(test)]
mod packets;
