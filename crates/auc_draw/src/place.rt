//! Where the words stand, and what the stop word says.

ghost use Rattle.std.specs.Prelude.{◌≡◌, ◌≤◌, Some};
ghost use Rattle.auc_draw.specs.InnerLimits.{stop_at, limit_at, stop_of, stop_word};

use auc_memory::Stop;

/// The place of the stop word, after the numbers and the job word.
pub(crate) fn stop_place(subs: usize) -> usize
    requires { subs ≤ 65536 }
    ensures { result ≡ stop_at subs }
{
    subs + 1
}

/// The place of a subscriber's limit, after the stop word.
pub(crate) fn limit_place(subs: usize, sub: u32) -> usize
    requires { subs ≤ 65536 }
    ensures { result ≡ limit_at subs sub }
{
    subs + 2 + sub as usize
}

/// The word that stands for a stop.
pub(crate) fn word_of(why: Stop) -> u64
    ensures { result ≡ stop_word (Some why) }
{
    match why {
        Stop::Fault => 1,
        Stop::Full => 2,
    }
}

/// The stop that the word stands for, if it does.
pub(crate) fn stop_at(word: u64) -> Option<Stop>
    ensures { result ≡ stop_of word }
{
    match word {
        0 => None,
        1 => Some(Stop::Fault),
        _ => Some(Stop::Full),
    }
}
