//! Random bytes of one subscriber, number by number.

ghost use Rattle.std.specs.Prelude.{◌≡◌, ◌%◌, ◌+◌, ◌^◌, ◌<◌, ◌++◌, [], ◌∷◌, slice_index};
ghost use Rattle.std.specs.Int.{w32, to_le_bytes};
ghost use Rattle.rand_chacha.specs.ChaCha.{word_at};
ghost use Rattle.auc_random.specs.Random.{rand_of as rand_by, sixteen_at};

use rand_chacha::ChaCha20Rng;
use rand_core::SeedableRng;
use rand_core::utils::NextWord;
use std::marker::Model;

/// The RANDs of one subscriber, with the generator kept from number to number. The cipher makes those of 16 numbers at a
/// time, so consecutive numbers cost least. Contracts see the key's 32 bytes and the subscriber.
#[derive(Drop)]
pub struct RandStream {
    key: [u8; 32],
    words: ChaCha20Rng,
}

impl Model for RandStream {
    ghost use Rattle.std.specs.Prelude.{◌≡◌};
    ghost use Rattle.rand_chacha.specs.ChaCha.{key_of};
    ghost use Rattle.auc_random.specs.Random.{Stream};

    ghost Value = { Stream };

    ghost view = { λ s. record { key = s.key; sub = s.words.stream } };

    ghost invariant = { λ s. s.words.key ≡ key_of s.key };
}

impl RandStream {
    /// The RANDs of a subscriber under a key of 32 bytes.
    pub(crate) fn new(key: [u8; 32], sub: u32) -> RandStream
        ensures { result ≡ record { key = key; sub = sub } }
    {
        let mut words = ChaCha20Rng::from_seed(key);
        words.set_stream(u64::from(sub));
        RandStream { key, words }
    }

    /// RAND of a number: the four words from place 4 n of the stream, each with its least significant byte first.
    #[tactic(auto, unfolding(crate::specs::Random::rand_of))]
    pub fn rand_of(&mut self, n: u64) -> [u8; 16]
        ensures value { result ≡ rand_by self.old.key self.old.sub n }
        ensures kept { self.new ≡ self.old }
    {
        seek(&mut self.words, 4 * u128::from(n));
        bytes_of(next_four(&mut self.words))
    }
}

/// The sixteen bytes of the four words from a place of a key's stream on.
pub(crate) fn sixteen_from(key: [u8; 32], stream: u64, place: u128) -> [u8; 16]
    requires { place + 4 < 2 ^ 68 }
    ensures { result ≡ sixteen_at key stream place }
{
    let mut words = ChaCha20Rng::from_seed(key);
    words.set_stream(stream);
    seek(&mut words, place);
    bytes_of(next_four(&mut words))
}

/// Goes to a place of the stream, unless it is there.
fn seek(words: &mut ChaCha20Rng, place: u128)
    requires { place < 2 ^ 68 }
    ensures { words.new ≡ record words.old { word_pos = place } }
{
    if words.get_word_pos() != place {
        words.set_word_pos(place);
    }
}

/// The next four words; the places count modulo 2^68.
fn next_four(words: &mut ChaCha20Rng) -> [u32; 4]
    ensures words { result ≡ word_at 10 words.old.key words.old.stream words.old.word_pos
        ∷ word_at 10 words.old.key words.old.stream ((words.old.word_pos + 1) % 2 ^ 68)
        ∷ word_at 10 words.old.key words.old.stream ((words.old.word_pos + 2) % 2 ^ 68)
        ∷ word_at 10 words.old.key words.old.stream ((words.old.word_pos + 3) % 2 ^ 68) ∷ [] }
    ensures key { words.new.key ≡ words.old.key }
    ensures stream { words.new.stream ≡ words.old.stream }
{
    let a = words.next_word();
    let b = words.next_word();
    let c = words.next_word();
    let d = words.next_word();
    [a, b, c, d]
}

/// The bytes of four words, of each the least significant first.
fn bytes_of(words: [u32; 4]) -> [u8; 16]
    ensures { result ≡ to_le_bytes w32 (slice_index words 0) ++ to_le_bytes w32 (slice_index words 1)
        ++ to_le_bytes w32 (slice_index words 2) ++ to_le_bytes w32 (slice_index words 3) }
{
    let [a, b, c, d] = words;
    let [a0, a1, a2, a3] = a.to_le_bytes();
    let [b0, b1, b2, b3] = b.to_le_bytes();
    let [c0, c1, c2, c3] = c.to_le_bytes();
    let [d0, d1, d2, d3] = d.to_le_bytes();
    [
        a0, a1, a2, a3, b0, b1, b2, b3, c0, c1, c2, c3, d0, d1, d2, d3,
    ]
}
