//! The triplets of a Challenge, and the RANDs that a peer makes them of.

ghost use Rattle.std.specs.Prelude.{◌≡◌, ◌≤◌, length};
ghost use Rattle.auc_sim.specs.InnerSeveral.{listed};
ghost use Rattle.auc_sim.specs.Peer.{cards, has_equal, rands_in};

use crate::triplets::card;
use auc_hmac::piece_of;
use auc_milenage::Secret;
use auc_sim_packet::Triplet;

/// Two or three triplets.
#[derive(Clone, Copy)]
pub(crate) enum Several {
    /// Two.
    Two([Triplet; 2]),
    /// Three.
    Three([Triplet; 3]),
}

impl Several {
    /// The triplets of a list of two or three.
    pub(crate) fn of(triplets: &[Triplet]) -> Several
        requires least { 2 ≤ length triplets.now }
        requires most { length triplets.now ≤ 3 }
        ensures { listed result ≡ triplets.now }
    {
        if triplets.len() == 3 {
            let mut three = [triplets[0]; 3];
            three.copy_from_slice(triplets);
            return Several::Three(three);
        }
        let mut two = [triplets[0]; 2];
        two.copy_from_slice(triplets);
        Several::Two(two)
    }

    /// The triplets.
    pub(crate) fn as_slice(&self) -> &[Triplet]
        ensures all { result.now ≡ listed self.now }
        ensures least { 2 ≤ length result.now }
        ensures most { length result.now ≤ 3 }
    {
        match self {
            Several::Two(triplets) => triplets,
            Several::Three(triplets) => triplets,
        }
    }
}

/// The triplets that a USIM with the secret makes of two or three RANDs.
pub(crate) fn cards(s: &Secret, rands: &[u8]) -> Several
    requires { 32 ≤ length rands.now }
    ensures { listed result ≡ cards s.now (rands_in rands.now) }
{
    let first = card(s, piece_of(rands, 0));
    let second = card(s, piece_of(rands, 16));
    if rands.len() == 48 {
        let third = card(s, piece_of(rands, 32));
        return Several::Three([first, second, third]);
    }
    Several::Two([first, second])
}

/// Whether two of two or three RANDs are equal.
pub(crate) fn has_equal(rands: &[u8]) -> bool
    requires { 32 ≤ length rands.now }
    ensures { result ≡ has_equal (rands_in rands.now) }
{
    let first: [u8; 16] = piece_of(rands, 0);
    let second: [u8; 16] = piece_of(rands, 16);
    if rands.len() == 48 {
        let third: [u8; 16] = piece_of(rands, 32);
        return second == first || third == first || third == second;
    }
    second == first
}
