//! The parts of a schedule.

ghost use Rattle.std.specs.Prelude.{◌≡◌, ◌==◌, ◌≤◌, length, count_by, map, IfOk};
ghost use Rattle.std.specs.List.{list_all};
ghost use Rattle.std.specs.Option.{option_copied};
ghost use Rattle.auc_reading.specs.Schedule.{behind, is_there, parts_in};

use auc_memory::NoMemory;
use std::alloc::Global;

/// How many parts a schedule has.
pub fn part_count(schedule: &[u8]) -> usize
    ensures value { result ≡ length (parts_in schedule.now) }
    ensures some { 1 ≤ result }
{
    comma_count(schedule) + 1
}

/// How many commas a text has.
fn comma_count(text: &[u8]) -> usize
    ensures value { result ≡ count_by (λ byte. byte == 44) text.now }
    ensures few { result ≤ length text.now }
{
    text.iter().filter(|byte| **byte == b',').count()
}

/// The parts of a schedule, as they are written.
pub fn part_texts(alloc: Global, schedule: &[u8]) -> Result<Vec<&[u8]>, NoMemory>
    ensures { IfOk result (λ texts. map (λ text. text.now) texts.items ≡ parts_in schedule.now) }
{
    let texts = schedule.split(|byte| *byte == b',').collect(alloc)?;
    Ok(texts)
}

/// Whether no part is empty.
pub fn are_there(texts: &[&[u8]]) -> bool
    ensures { result ≡ list_all (λ text. is_there text.now) texts.now }
{
    texts.iter().all(|text| 1 <= text.len())
}

/// What stands behind a word at the beginning of a text, or `None` if the text begins otherwise.
pub fn behind<'a>(text: &'a [u8], word: &[u8]) -> Option<&'a [u8]>
    ensures { option_copied result ≡ behind word.now text.now }
{
    text.strip_prefix(word)
}
