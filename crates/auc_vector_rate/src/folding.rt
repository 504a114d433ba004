//! A digest of many vectors.

ghost use Rattle.std.specs.Prelude.{◌≤◌, ◌+◌};
ghost use Rattle.auc_sqn.specs.Number.{top_of};

use auc_hmac::Method;
use auc_milenage::Secret;
use auc_sqn::top;
use auc_vector::{Vector, vector, vectors};

// K, OPc and RAND of TS 35.208, test set 1. The RAND of a vector is this one XOR its number.
const SECRET: Secret = Secret {
    k: [
        0x46, 0x5b, 0x5c, 0xe8, 0xb1, 0x99, 0xb4, 0x9f, 0xaa, 0x5f, 0x0a, 0x2e, 0xe2, 0x38, 0xa6,
        0xbc,
    ],
    opc: [
        0xcd, 0x63, 0xcb, 0x71, 0x95, 0x4a, 0x9f, 0x4e, 0x48, 0xa5, 0x99, 0x4e, 0x37, 0xa0, 0x2b,
        0xaf,
    ],
};

const RAND: u128 = 0x2355_3cbe_9637_a89d_218a_e64d_ae47_bf35;

/// The index length of the vectors: IND has so many bits.
const BITS: u8 = 5;

/// How many vectors are made by one call.
const CALL: usize = 256;

/// What stands where a vector is made.
const EMPTY: Vector = Vector {
    n: 0,
    rand: [0; 16],
    autn: [0; 16],
    xres: [0; 8],
    ck: [0; 16],
    ik: [0; 16],
};

/// The exclusive or of the XRES of vectors, and that of their AUTN, as numbers, most significant byte first.
#[derive(Clone, Copy, Debug, PartialEq, Eq)]
pub struct Folded {
    pub xres: u64,
    pub autn: u128,
}

impl Folded {
    /// The digest of the vectors with the numbers from 1 to `count`, or to the greatest number if that is less. Each is made
    /// alone.
    pub fn of_first(count: u64) -> Folded {
        let mut folded = Folded { xres: 0, autn: 0 };
        for n in 1..=count.min(top(BITS)) {
            folded.add(&vector(&SECRET, Method::Aka, [0x80, 0], &[], BITS, n, rand_of(n)));
        }
        folded
    }

    /// The same digest, with as many vectors at each call as `CALL` says.
    pub fn of_many(count: u64) -> Folded {
        let count = count.min(top(BITS));
        let calls = count / CALL as u64;
        let mut folded = Folded { xres: 0, autn: 0 };
        for call in 0..calls {
            folded.add_call(CALL as u64 * call + 1, CALL);
        }
        folded.add_call(CALL as u64 * calls + 1, (count % CALL as u64) as usize);
        folded
    }

    /// Adds the vectors of `count` numbers from `first` on.
    fn add_call(&mut self, first: u64, count: usize)
        requires few { count ≤ 256 }
        requires first { 1 ≤ first }
        requires last { first + count ≤ top_of 5 + 1 }
    {
        let mut rands = [[0; 16]; CALL];
        for i in 0..count {
            rands[i] = rand_of(first + i as u64);
        }
        let mut made = [EMPTY; CALL];
        vectors(
            &SECRET,
            Method::Aka,
            [0x80, 0],
            &[],
            BITS,
            first,
            &rands[..count],
            &mut made[..count],
        );
        for vector in &made[..count] {
            self.add(vector);
        }
    }

    /// Adds a vector.
    fn add(&mut self, made: &Vector) {
        self.xres ^= u64::from_be_bytes(made.xres);
        self.autn ^= u128::from_be_bytes(made.autn);
    }
}

/// The RAND of a number.
fn rand_of(n: u64) -> [u8; 16] {
    (RAND ^ u128::from(n)).to_be_bytes()
}
