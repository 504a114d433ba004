//! The notes of an event's line.

ghost use Rattle.std.specs.Prelude.{◌≡◌, ◌++◌, ◌∷◌, [], OnOk};
ghost use Rattle.auc_print.specs.EventText.{counter_words, notes_words, number_words, resumed_words, resync_words, stop_word, usim_words};
ghost use Rattle.auc_print.specs.Inner.{Prints, after_spaces, group_texts};
ghost use Rattle.auc_print.specs.Numeral.{numeral};
ghost use Rattle.auc_print.specs.OneText.{UsimFits};

use crate::word::{Group, Word, none, one, pair, sqn_after, value};
use crate::writer::print_group;
use auc_memory::{NoMemory, Octets, Stop};
use auc_vector::{CounterNote, Notes, NumberNote, ResyncNote, UsimNote};

/// Appends the words of the notes, each after a space.
pub fn print_notes(notes: &Notes, out: &mut Octets) -> Result<(), NoMemory>
    ensures text { Prints result out.old out.new (after_spaces (notes_words notes.now)) }
    ensures fits { OnOk result (UsimFits notes.now.usim) }
{
    print_group(&words_of_resync(notes.resync), out)?;
    print_group(&words_of_number(notes.number), out)?;
    print_group(&words_of_resumed(notes.resumed), out)?;
    print_group(&words_of_usim(notes.usim), out)?;
    print_group(&words_of_counter(notes.counter), out)
}

/// What the centre made of an AUTS.
fn words_of_resync(note: Option<ResyncNote>) -> Group<'static>
    ensures { group_texts result ≡ resync_words note }
{
    match note {
        None => none(),
        Some(ResyncNote::Moved(from, to)) => pair(b"moved", from, to),
        Some(ResyncNote::InRange(seen, seq_ms)) => pair(b"inrange", seen, seq_ms),
        Some(ResyncNote::Beyond(seen, seq_ms)) => pair(b"beyond", seen, seq_ms),
        Some(ResyncNote::BadAuts) => one(b"badauts"),
    }
}

/// What the centre answered to a draw.
fn words_of_number(note: Option<NumberNote>) -> Group<'static>
    ensures { group_texts result ≡ number_words note }
{
    match note {
        None => none(),
        Some(NumberNote::Drew(n)) => value(b"drew", n),
        Some(NumberNote::Exhausted(word)) => value(b"exhausted", word),
        Some(NumberNote::Withheld(n, stop)) => stopped(b"withheld", n, stop),
    }
}

/// The counter of the context that was taken up again.
fn words_of_resumed(counter: Option<u16>) -> Group<'static>
    ensures { group_texts result ≡ resumed_words counter }
{
    match counter {
        None => none(),
        Some(counter) => value(b"resumed", u64::from(counter)),
    }
}

/// What the USIM answered.
fn words_of_usim(note: Option<UsimNote>) -> Group<'static>
    ensures words { group_texts result ≡ usim_words note }
    ensures fits { UsimFits note }
{
    match note {
        None => none(),
        Some(UsimNote::Accepted(sqn)) => sqn_after(b"accepted", sqn),
        Some(UsimNote::Sync(sqn_ms)) => sqn_after(b"sync", sqn_ms),
        Some(UsimNote::WrongMac) => one(b"wrongmac"),
    }
}

/// What became of a counter.
fn words_of_counter(note: Option<CounterNote>) -> Group<'static>
    ensures { group_texts result ≡ counter_words note }
{
    match note {
        None => none(),
        Some(CounterNote::Taken(counter)) => value(b"counter", u64::from(counter)),
        Some(CounterNote::Small(counter)) => value(b"small", u64::from(counter)),
    }
}

/// A word, a number that was withheld, and the cause.
pub fn stopped(text: &'static [u8], n: u64, stop: Stop) -> Group<'static>
    ensures { group_texts result ≡ text.now ∷ numeral n ∷ stop_word stop ∷ [] }
{
    [Word::Text(text), Word::Number(n), Word::Text(word_of(stop))]
}

/// The word that says why a number was withheld.
pub fn word_of(stop: Stop) -> &'static [u8]
    ensures { result.now ≡ stop_word stop }
{
    match stop {
        Stop::Fault => b"fault",
        Stop::Full => b"full",
    }
}
