//! Tests of `auc_run::run` and `auc_run::serve` over ends in memory: disks and outputs that fail, and jobs that run beside each other.
//!
//! They stand in a crate of their own, since the tests of a crate are proved together with it, and the proof of `auc_run`
//! is dear.
#![tactic(auto)]

#[cfg(test)]
mod compact;
#[cfg(test)]
mod faults;
#[cfg(test)]
mod gates;
#[cfg(test)]
mod outside;
#[cfg(test)]
mod reading;
#[cfg(test)]
mod service;
#[cfg(test)]
mod tests;
