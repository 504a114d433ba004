//! Bytes by their digits, as the standards print them.

use auc_text::read_octets;
use std::process::Abort;

/// The bytes that these hexadecimal digits spell.
pub(crate) fn octets<R: Abort, const N: usize>(rt: &R, digits: &[u8]) -> [u8; N] {
    read_octets::<N>(digits).expect(rt, "digits")
}
