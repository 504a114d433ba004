//! The lines of a text and the words of a line.

ghost use Rattle.std.specs.Prelude.{◌≡◌, ◌<◌, ◌≤◌, ◌==◌, [], ◌∷◌, length, not, position, MatchOption, IfSome, IfOk};
ghost use Rattle.std.specs.List.{join_with_byte, slice_split};
ghost use Rattle.auc_text.specs.Text.{is_blank, lines_of, without_cr, words_of};

use auc_memory::{NoMemory, Octets};
use std::alloc::Global;

/// The first line of a text without its ending, and the text after that ending, or `None` if the line
/// is the last.
pub fn next_line(text: &[u8]) -> (&[u8], Option<&[u8]>)
    ensures line { MatchOption result.1
        (lines_of text.now ≡ result.0.now ∷ [])
        (λ behind. lines_of text.now ≡ result.0.now ∷ lines_of behind.now) }
    ensures shorter { IfSome result.1 (λ behind. length behind.now < length text.now) }
{
    match cut(text) {
        Some((line, behind)) => (without_cr(line), Some(behind)),
        None => (text, None),
    }
}

/// The text before the first LF and the text after it, or `None` if there is no LF.
fn cut(text: &[u8]) -> Option<(&[u8], &[u8])>
    ensures cut { MatchOption result
        (slice_split (λ byte. byte == 10) text.now ≡ text.now ∷ [])
        (λ parts. slice_split (λ byte. byte == 10) text.now
        ≡ parts.0.now ∷ slice_split (λ byte. byte == 10) parts.1.now) }
    ensures shorter { IfSome result (λ parts. length parts.1.now < length text.now) }
{
    let place = place_of_lf(text)?;
    Some((&text[..place], &text[place + 1..]))
}

/// The place of the first LF.
fn place_of_lf(text: &[u8]) -> Option<usize>
    ensures place { result ≡ position (λ byte. byte == 10) text.now }
    ensures within { IfSome result (λ place. place < length text.now) }
{
    text.iter().position(|byte| *byte == b'\n')
}

/// A line without the CR at its end, if there is one.
fn without_cr(line: &[u8]) -> &[u8]
    ensures { result.now ≡ without_cr line.now }
{
    if line.is_empty() || line[line.len() - 1] != b'\r' {
        return line;
    }
    &line[..line.len() - 1]
}

/// The first word of a text and the text after it, or `None` if there is no word.
pub fn next_word(text: &[u8]) -> Option<(&[u8], &[u8])>
    ensures word { MatchOption result
        (words_of text.now ≡ [])
        (λ parts. words_of text.now ≡ parts.0.now ∷ words_of parts.1.now) }
    ensures shorter { IfSome result (λ parts. length parts.1.now < length text.now) }
{
    let start = place_of_word(text)?;
    let text = &text[start..];
    match place_of_blank(text) {
        Some(end) => Some((&text[..end], &text[end..])),
        None => Some((text, b"")),
    }
}

/// The place of the first byte that isn't blank.
fn place_of_word(text: &[u8]) -> Option<usize>
    ensures place { result ≡ position (λ byte. not (is_blank byte)) text.now }
    ensures within { IfSome result (λ place. place < length text.now) }
{
    text.iter().position(|byte| !is_blank(*byte))
}

/// The place of the first blank.
fn place_of_blank(text: &[u8]) -> Option<usize>
    ensures place { result ≡ position is_blank text.now }
    ensures within { IfSome result (λ place. place < length text.now) }
{
    text.iter().position(|byte| is_blank(*byte))
}

/// Whether a byte is a space or a tab.
fn is_blank(byte: u8) -> bool
    ensures { result ≡ is_blank byte }
{
    byte == b' ' || byte == b'\t'
}

/// How many words a text has.
pub fn word_count(text: &[u8]) -> usize
    ensures { result ≡ length (words_of text.now) }
{
    let mut count = 0;
    let mut rest = text;
    while let Some((_, behind)) = next_word(rest) {
        count += 1;
        rest = behind;
    }
    count
}

/// The words of a text, with one space between each two.
pub fn joined(alloc: Global, text: &[u8]) -> Result<Octets, NoMemory>
    ensures { IfOk result (λ line. line ≡ join_with_byte 32 (words_of text.now)) }
{
    let mut line = Octets::new(alloc);
    let Some((word, behind)) = next_word(text) else {
        return Ok(line);
    };
    line.append(word)?;
    let mut rest = behind;
    while let Some((word, behind)) = next_word(rest) {
        line.append(b" ")?;
        line.append(word)?;
        rest = behind;
    }
    Ok(line)
}
