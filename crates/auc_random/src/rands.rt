//! Random bytes by subscriber and number.

ghost use Rattle.std.specs.Prelude.{◌≡◌};
ghost use Rattle.auc_random.specs.Random.{nonce_of as nonce_by, rand_of as rand_by, sim_nonce as sim_nonce_by, sixteen_at};

use crate::rand_stream::{RandStream, sixteen_from};
use std::marker::Model;

/// The stream of session 0, 2^32.
const FIRST_SESSION: u64 = 4294967296;

/// The stream of the EAP-SIM sessions of subscriber 0, 2^42.
const FIRST_SIM: u64 = 4398046511104;

/// The random bytes of a key: ChaCha20, of which each subscriber has a stream. The same key gives the same
/// bytes again. Contracts see the key's 32 bytes.
#[derive(Clone, Copy)]
pub struct Rands {
    key: [u8; 32],
}

impl Model for Rands {
    ghost use Rattle.std.specs.Prelude.{ℕ, List};

    ghost Value = { List ℕ };

    ghost view = { λ r. r.key };

    ghost inverse = { λ key. record { key = key } };
}

impl Rands {
    /// The random bytes of a key of 32 bytes.
    pub fn new(key: [u8; 32]) -> Rands
        ensures { result ≡ key }
    {
        Rands { key }
    }

    /// RAND of a subscriber's number: the four words from place 4 n of the subscriber's stream, each with its
    /// least significant byte first.
    pub fn rand_of(&self, sub: u32, n: u64) -> [u8; 16]
        ensures { result ≡ rand_by self.now sub n }
    {
        self.stream(sub).rand_of(n)
    }

    /// The sixteen bytes of an index of a session, for a nonce or an initialisation vector.
    #[tactic(auto, unfolding(crate::specs::Random::nonce_of))]
    pub fn nonce_of(&self, session: u32, k: u32) -> [u8; 16]
        ensures { result ≡ nonce_by self.now session k }
    {
        self.sixteen_at(FIRST_SESSION + u64::from(session), 4 * u64::from(k))
    }

    /// NONCE_MT (RFC 4186 §10.4) of the EAP-SIM session whose first vector is this number of a subscriber: sixteen bytes.
    #[tactic(auto, unfolding(crate::specs::Random::sim_nonce))]
    pub fn sim_nonce(&self, sub: u32, n: u64) -> [u8; 16]
        ensures { result ≡ sim_nonce_by self.now sub n }
    {
        sixteen_from(self.key, FIRST_SIM + u64::from(sub), 4 * u128::from(n))
    }

    /// Sixteen random bytes: the four words from a place of a stream on, each with its least significant byte
    /// first. The streams below 2^32 are those of the subscribers' RANDs, and the 2^32 after them those of sessions. Stream
    /// 2^40 has the key of the names, and 2^41 the secrets of a load. The 2^32 from 2^42 on are those of NONCE_MT, by subscriber.
    pub fn sixteen_at(&self, stream: u64, place: u64) -> [u8; 16]
        ensures { result ≡ sixteen_at self.now stream place }
    {
        sixteen_from(self.key, stream, u128::from(place))
    }

    /// The RANDs of a subscriber, with one generator for many of them.
    pub fn stream(&self, sub: u32) -> RandStream
        ensures { result ≡ record { key = self.now; sub = sub } }
    {
        RandStream::new(self.key, sub)
    }
}
