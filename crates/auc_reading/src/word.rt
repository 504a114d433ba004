//! How a line begins: with the `#` of a comment, or with a word.

ghost use Rattle.std.specs.Prelude.{◌≡◌};
ghost use Rattle.auc_reading.specs.Word.{header_word_of, is_comment, job_word_of, other_word_of, word_of};

use crate::field::is_text;

/// A word of a line before the first round, which stands there at most once.
#[derive(Clone, Copy)]
pub enum HeaderWord {
    /// `randkey H`
    Randkey,
    /// `workers N`
    Workers,
    /// `print brief` or `print full`
    Print,
    /// `realm TEXT`
    Realm,
}

/// A word of a line of a job.
#[derive(Clone, Copy)]
pub enum JobWord {
    /// `draw IMSI COUNT`
    Draw,
    /// `sync IMSI SEQ BIT COUNT`
    Sync,
    /// `auts IMSI AUTS RAND COUNT`
    Auts,
    /// `give IMSI N`
    Give,
    /// `eps IMSI SNID`
    Eps,
    /// `fiveg IMSI HOMENAME DEVICENAME BIT`, or with `hxresstar` as a fifth field
    Fiveg,
    /// `sites IMSI SITES SIZE SCHEDULE`
    Sites,
    /// `sim IMSI COUNT SCHEDULE`
    Sim,
    /// `session T IMSI METHOD SNAME PNAME OPTIONS IDENTITY`
    Session,
    /// `start T`
    Start,
    /// `deliver T END P`
    Deliver,
    /// `repeat T`
    Repeat,
    /// `giveup T END`
    GiveUp,
    /// `plain T`
    Plain,
    /// `tamper P PLACE BYTE`
    Tamper,
    /// `cut P LENGTH`
    Cut,
}

/// The first word of a line.
#[derive(Clone, Copy)]
pub enum Word {
    /// One of the header.
    Header(HeaderWord),
    /// `subscriber IMSI K KIND OP AMF SEQ USIM`
    Subscriber,
    /// `round`
    Round,
    /// `job`
    Job,
    /// `restart`
    Restart,
    /// One of a job's lines.
    OfJob(JobWord),
}

/// Whether a line begins with `#`.
pub fn is_comment(line: &[u8]) -> bool
    ensures { result ≡ is_comment line.now }
{
    !line.is_empty() && line[0] == b'#'
}

/// The word that a text is, or `None` if it is no word.
pub fn read_word(text: &[u8]) -> Option<Word>
    ensures { result ≡ word_of text.now }
{
    if is_text(text, b"subscriber") {
        return Some(Word::Subscriber);
    }
    if is_text(text, b"round") {
        return Some(Word::Round);
    }
    if is_text(text, b"job") {
        return Some(Word::Job);
    }
    read_other_word(text)
}

/// The word that a text is, if it is none of a subscriber, a round or a job.
fn read_other_word(text: &[u8]) -> Option<Word>
    ensures { result ≡ other_word_of text.now }
{
    if is_text(text, b"restart") {
        return Some(Word::Restart);
    }
    match read_job_word(text) {
        Some(word) => Some(Word::OfJob(word)),
        None => Some(Word::Header(read_header_word(text)?)),
    }
}

/// The word of a job's line that a text is.
fn read_job_word(text: &[u8]) -> Option<JobWord>
    ensures { result ≡ job_word_of text.now }
{
    if is_text(text, b"draw") {
        return Some(JobWord::Draw);
    }
    if is_text(text, b"sync") {
        return Some(JobWord::Sync);
    }
    if is_text(text, b"auts") {
        return Some(JobWord::Auts);
    }
    if is_text(text, b"give") {
        return Some(JobWord::Give);
    }
    if is_text(text, b"eps") {
        return Some(JobWord::Eps);
    }
    if is_text(text, b"fiveg") {
        return Some(JobWord::Fiveg);
    }
    if is_text(text, b"sites") {
        return Some(JobWord::Sites);
    }
    if is_text(text, b"sim") {
        return Some(JobWord::Sim);
    }
    if is_text(text, b"session") {
        return Some(JobWord::Session);
    }
    if is_text(text, b"start") {
        return Some(JobWord::Start);
    }
    if is_text(text, b"deliver") {
        return Some(JobWord::Deliver);
    }
    if is_text(text, b"repeat") {
        return Some(JobWord::Repeat);
    }
    if is_text(text, b"giveup") {
        return Some(JobWord::GiveUp);
    }
    if is_text(text, b"plain") {
        return Some(JobWord::Plain);
    }
    if is_text(text, b"tamper") {
        return Some(JobWord::Tamper);
    }
    if is_text(text, b"cut") {
        return Some(JobWord::Cut);
    }
    None
}

/// The word of the header that a text is.
fn read_header_word(text: &[u8]) -> Option<HeaderWord>
    ensures { result ≡ header_word_of text.now }
{
    if is_text(text, b"randkey") {
        return Some(HeaderWord::Randkey);
    }
    if is_text(text, b"workers") {
        return Some(HeaderWord::Workers);
    }
    if is_text(text, b"print") {
        return Some(HeaderWord::Print);
    }
    if is_text(text, b"realm") {
        return Some(HeaderWord::Realm);
    }
    None
}
