//! A test of histories, entry by entry.

ghost use Rattle.std.specs.Prelude.{◌↔◌, ◌≡◌, IsTrue};
ghost use Rattle.auc_history.specs.History.{IsLegal};
ghost use Rattle.auc_history.specs.Inner.{next_number};

use crate::entry::Entry;

/// Whether the entries are a legal history from the opening to the closing; `top` is the subscriber's
/// greatest number.
pub fn is_legal(top: u64, opening: u64, closing: u64, entries: &[Entry]) -> bool
    ensures { IsTrue result ↔ IsLegal top opening closing entries.now }
{
    let mut word = opening;
    for entry in entries {
        match after(top, word, *entry) {
            Some(next) => word = next,
            None => return false,
        }
    }
    word == closing
}

/// The number after an entry, or `None` if the entry can't come at this number.
fn after(top: u64, word: u64, entry: Entry) -> Option<u64>
    ensures { result ≡ next_number top word entry }
{
    match entry {
        Entry::Drawn(n) if n > word && n - word == 1 => Some(n),
        Entry::Moved(from, to) if from == word && from < to && to <= top => Some(to),
        Entry::Look(seen) if seen == word => Some(word),
        _ => None,
    }
}
