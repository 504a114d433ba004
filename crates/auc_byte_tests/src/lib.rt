//! Tests of the crates of keys, names and packets: one file for each crate.
//!
//! They stand in a crate of their own, since the tests of a crate are proved together with it.
#![tactic(auto)]

#[cfg(test)]
mod aes;
#[cfg(test)]
mod digits;
#[cfg(test)]
mod hmac;
#[cfg(test)]
mod ident;
#[cfg(test)]
mod kdf;
#[cfg(test)]
mod milenage;
#[cfg(test)]
mod packet;
#[cfg(test)]
mod prf;
#[cfg(test)]
mod random;
#[cfg(test)]
mod reauth;
