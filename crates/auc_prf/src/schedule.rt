//! The words of a block of SHA-1 (FIPS 180-4 §6.1.2, step 1).

ghost use Rattle.std.specs.Prelude.{◌≡◌, ◌≤◌, ◌<◌, ◌+◌};
ghost use Rattle.sha1.specs.Sha1.{next_word, schedule, word_at};

// W of a block: its 16 words, and 64 that are computed from them.
pub(crate) fn schedule(block: &[u8; 64]) -> [u32; 80]
    ensures { result ≡ schedule block.now 64 }
{
    let mut words = [0; 80];
    'own: for t in 0..16 {
        words[t] = word_at(block, 4 * t);
    }
    'further: for t in 16..80 {
        words[t] = following(&words, t);
    }
    words
}

// The word at byte `at` of a block, most significant byte first.
fn word_at(block: &[u8; 64], at: usize) -> u32
    requires { at + 4 ≤ 64 }
    ensures { result ≡ word_at block.now at }
{
    u32::from_be_bytes([block[at], block[at + 1], block[at + 2], block[at + 3]])
}

// W(t) from earlier words.
fn following(words: &[u32; 80], t: usize) -> u32
    requires low { 16 ≤ t }
    requires high { t < 80 }
    ensures { result ≡ next_word words.now t }
{
    (words[t - 3] ^ words[t - 8] ^ words[t - 14] ^ words[t - 16]).rotate_left(1)
}
