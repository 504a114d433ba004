//! The authentication vectors of one subscriber.

ghost use Rattle.std.specs.Prelude.{◌≡◌, ◌≤◌, []};
ghost use Rattle.auc_hmac.specs.declared.method.Method.TheVariants.{Aka};
ghost use Rattle.auc_random.specs.Random.{rand_of};
ghost use Rattle.auc_vector.specs.Vector.{vector_of};
ghost use Rattle.auc_sqn.specs.Number.{top_of, most_bits};

use crate::making::vector_under;
use crate::parts::Vector;
use auc_milenage::{Milenage, Secret};
use auc_random::RandStream;
use std::marker::Model;

/// The authentication vectors of one subscriber for EAP-AKA (TS 33.102 §6.3.2), with the key schedule of its K and the generator of
/// its RANDs kept from vector to vector. Contracts see its secret, its AMF, how many bits its index has, and its RANDs.
#[derive(Drop)]
pub struct Vectors {
    milenage: Milenage,
    amf: [u8; 2],
    bits: u8,
    rands: RandStream,
}

impl Model for Vectors {
    ghost use Rattle.std.specs.Prelude.{◌≤◌};
    ghost use Rattle.auc_sqn.specs.Number.{most_bits};
    ghost use Rattle.auc_vector.specs.Vector.{Source};

    ghost Value = { Source };

    ghost view = { λ v. record { secret = v.milenage; amf = v.amf; bits = v.bits; rands = v.rands } };

    ghost invariant = { λ v. v.bits ≤ most_bits };
}

impl Vectors {
    /// The vectors under a subscriber's secret and AMF, whose index has so many bits, with its RANDs.
    pub fn new(s: &Secret, amf: [u8; 2], bits: u8, rands: RandStream) -> Vectors
        requires { bits ≤ most_bits }
        ensures { result ≡ record { secret = s.now; amf = amf; bits = bits; rands = rands } }
    {
        Vectors {
            milenage: Milenage::new(s),
            amf,
            bits,
            rands,
        }
    }

    /// The vector of a number with its RAND.
    pub fn vector_of(&mut self, n: u64) -> Vector
        requires first { 1 ≤ n }
        requires last { n ≤ top_of self.old.bits }
        ensures value { result ≡ vector_of self.old.secret Aka self.old.amf [] self.old.bits n
            (rand_of self.old.rands.key self.old.rands.sub n) }
        ensures kept { self.new ≡ self.old }
    {
        let rand = self.rands.rand_of(n);
        vector_under(&self.milenage, self.amf, self.bits, n, rand)
    }
}
