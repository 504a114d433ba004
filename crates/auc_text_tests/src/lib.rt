//! Tests of the crates that read text: lines, words and numbers, the words of `vector`, `auts` and a load with what they get, and
//! blocks heard over a wire. One file for each crate.
//!
//! They stand in a crate of their own, since the tests of a crate are proved together with it.
#![tactic(auto)]

#[cfg(test)]
mod block;
#[cfg(test)]
mod forms;
#[cfg(test)]
mod load;
#[cfg(test)]
mod text;
