//! Identities as keys of maps.

/// An identity, as a map finds what is kept of its subscriber: [`Imsi::key`](crate::Imsi::key) makes it.
#[derive(Clone, Copy, PartialEq, Eq, Hash)]
pub struct IdentityKey {
    /// How many digits the identity has.
    pub digits: u8,
    /// The number that its digits are in decimal.
    pub number: u64,
}
