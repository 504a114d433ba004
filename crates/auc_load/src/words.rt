//! The words.

ghost use Rattle.std.specs.Prelude.{◌≡◌, ◌≤◌, IfSome};
ghost use Rattle.auc_load.specs.Words.{IsLoad, count_in, load_named, numbers_in};

use auc_memory::Octets;
use auc_subs::MAX_SUBSCRIBERS;
use auc_text::read_decimal;

/// How many jobs a load may have.
pub const MAX_LOAD_JOBS: u32 = 200000;
/// How many workers may serve a load.
pub const MAX_LOAD_WORKERS: u32 = 64;

/// The numbers of a load.
#[derive(Clone, Copy, PartialEq, Eq)]
pub struct LoadWords {
    /// What the key of the random bytes is made from.
    pub key: u64,
    /// How many subscribers there are, 1 to 65536.
    pub subscribers: u32,
    /// How many jobs there are, 1 to 200000.
    pub jobs: u32,
    /// How many workers serve the jobs, 1 to 64.
    pub workers: u32,
}

/// The numbers that the words `load KEY SUBSCRIBERS JOBS WORKERS` say, each 1 to 20 decimal digits, or `None` if the
/// words have no such form or a number is out of its range.
pub fn load_words(words: &[Octets]) -> Option<LoadWords>
    ensures named { result ≡ load_named words.now }
    ensures within { IfSome result IsLoad }
{
    if words.len() != 5 {
        return None;
    }
    if words[0].as_slice() != b"load".as_slice() {
        return None;
    }
    read_numbers(
        words[1].as_slice(),
        words[2].as_slice(),
        words[3].as_slice(),
        words[4].as_slice(),
    )
}

/// The numbers that four texts spell.
fn read_numbers(key: &[u8], subscribers: &[u8], jobs: &[u8], workers: &[u8]) -> Option<LoadWords>
    ensures value { result ≡ numbers_in key.now subscribers.now jobs.now workers.now }
    ensures within { IfSome result IsLoad }
{
    Some(LoadWords {
        key: read_decimal(key, 20, u64::MAX)?,
        subscribers: read_count(subscribers, MAX_SUBSCRIBERS as u32)?,
        jobs: read_count(jobs, MAX_LOAD_JOBS)?,
        workers: read_count(workers, MAX_LOAD_WORKERS)?,
    })
}

/// The number from 1 to a greatest that a text spells.
fn read_count(text: &[u8], greatest: u32) -> Option<u32>
    ensures value { result ≡ count_in greatest text.now }
    ensures least { IfSome result (λ number. 1 ≤ number) }
    ensures greatest { IfSome result (λ number. number ≤ greatest) }
{
    match read_decimal(text, 20, u64::from(greatest)) {
        Some(number) if number >= 1 => Some(number as u32),
        _ => None,
    }
}
