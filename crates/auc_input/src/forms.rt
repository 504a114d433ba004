//! The forms of the program's words.

ghost use Rattle.std.specs.Prelude.{◌≡◌};
ghost use Rattle.std.specs.Option.{option_copied, option_map};
ghost use Rattle.auc_input.specs.Words.{files_seen, journal_named, files_named, service_named};

use auc_compact::is_compact;
use auc_forms::is_reserved;
use auc_memory::Octets;

/// The names of the files of a run, each of at least 1 byte.
#[derive(Clone, Copy)]
pub struct InputFiles<'a> {
    /// The file of the scenario.
    pub scenario: &'a [u8],
    /// The file of the subscribers with which the run begins, if one is named.
    pub subscribers: Option<&'a [u8]>,
}

/// The files that the words `run SCENARIO` or `run SCENARIO SUBSCRIBERS` name, or `None` if the words have
/// no such form.
pub fn input_files(words: &[Octets]) -> Option<InputFiles<'_>>
    ensures { option_map files_seen result ≡ files_named words.now }
{
    match words {
        [word, scenario] if word.as_slice() == b"run".as_slice() && !scenario.is_empty() => {
            Some(InputFiles {
                scenario: scenario.as_slice(),
                subscribers: None,
            })
        }
        [word, scenario, subscribers]
            if word.as_slice() == b"run".as_slice()
                && !scenario.is_empty()
                && !subscribers.is_empty() => {
            Some(InputFiles {
                scenario: scenario.as_slice(),
                subscribers: Some(subscribers.as_slice()),
            })
        }
        _ => None,
    }
}

/// What a service's words name.
#[derive(Clone, Copy)]
pub struct ServiceWords<'a> {
    /// The file of the subscribers with which the service begins, of at least 1 byte, if one is named.
    pub subscribers: Option<&'a [u8]>,
}

/// What the words `serve` or `serve SUBSCRIBERS` name, or `None` if the words have no such form.
pub fn service_words(words: &[Octets]) -> Option<ServiceWords<'_>>
    ensures { option_map (λ form. option_copied form.subscribers) result ≡ service_named words.now }
{
    match words {
        [word] if word.as_slice() == b"serve".as_slice() => {
            Some(ServiceWords { subscribers: None })
        }
        [word, file] if word.as_slice() == b"serve".as_slice() && !file.is_empty() => {
            Some(ServiceWords {
                subscribers: Some(file.as_slice()),
            })
        }
        _ => None,
    }
}

/// The forms of the words that tell the journal.
#[derive(Clone, Copy)]
pub enum JournalForm {
    /// The word `reserved`: a line for each limit.
    Reserved,
    /// The word `compact`: the bytes of a journal that has the same limits, each identity once.
    Compact,
}

/// The form that tells the journal, or `None` if the words have no such form.
pub fn journal_form(words: &[Octets]) -> Option<JournalForm>
    ensures { result ≡ journal_named words.now }
{
    if is_reserved(words) {
        return Some(JournalForm::Reserved);
    }
    if is_compact(words) {
        return Some(JournalForm::Compact);
    }
    None
}
