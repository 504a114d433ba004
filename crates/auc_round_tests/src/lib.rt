//! Tests of the records of a round: their printed text, with the lines for sites and of EAP-SIM, and rounds of some subscribers.
//!
//! They stand in a crate of their own, since the tests of a crate are proved together with it.
#![tactic(auto)]

#[cfg(test)]
mod events;
#[cfg(test)]
mod named;
#[cfg(test)]
mod print;
#[cfg(test)]
mod printing;
#[cfg(test)]
mod sim;
