//! The reading of the words of a subscriber.

ghost use Rattle.std.specs.Prelude.{◌≡◌, [], ◌∷◌, length, IfOk, MatchResult, OnErr, OnOk};
ghost use Rattle.auc_text.specs.Text.{words_of};
ghost use Rattle.auc_subs.specs.Subscriber.{IsRow, line_counts, row_of, rows_with_fields};
ghost use Rattle.auc_subs.specs.declared.refusal.AddRefusal.TheVariants as refusal;

use crate::refusal::{AddRefusal, SubsWhy};
use crate::row::Row;
use crate::row_reading::read_row;
use crate::subscribers::Subscribers;
use auc_text::next_word;

impl Subscribers {
    /// Adds the subscriber of the words of a text, and answers its place, which is the last. The words are the fields of
    /// [`Subscribers::add`], with any spaces and tabs between them. It takes memory for the row alone. A refusal leaves the
    /// subscribers as they were.
    pub fn add_words(&mut self, text: &[u8]) -> Result<u32, AddRefusal>
        ensures added { OnOk result (rows_with_fields line_counts self.old (words_of text.now) ≡ Ok self.new) }
        ensures place { IfOk result (λ sub. sub ≡ length self.old) }
        ensures refused { (why : SubsWhy) → result ≡ Err (refusal.Why why)
            → rows_with_fields line_counts self.old (words_of text.now) ≡ Err why }
        ensures kept { OnErr result (self.new ≡ self.old) }
    {
        let row = read_words(text)?;
        self.admit(row)
    }
}

/// The subscriber that the seven or nine words of a text are, or the first fault.
fn read_words(text: &[u8]) -> Result<Row, SubsWhy>
    ensures value { result ≡ row_of line_counts (words_of text.now) }
    ensures row { IfOk result IsRow }
{
    let (imsi, rest) = first_word(text)?;
    let (k, rest) = first_word(rest)?;
    let (kind, rest) = first_word(rest)?;
    let (op, rest) = first_word(rest)?;
    let (amf, rest) = first_word(rest)?;
    let (seq, rest) = first_word(rest)?;
    let (usim, rest) = first_word(rest)?;
    let Some((bits, rest)) = next_word(rest) else {
        return read_row(&[imsi, k, kind, op, amf, seq, usim]);
    };
    let (age, rest) = first_word(rest)?;
    match next_word(rest) {
        None => read_row(&[imsi, k, kind, op, amf, seq, usim, bits, age]),
        Some(_) => Err(SubsWhy::FieldCount),
    }
}

/// The first word of a text, and the text after it.
fn first_word(text: &[u8]) -> Result<(&[u8], &[u8]), SubsWhy>
    ensures { MatchResult result
        (λ cut. words_of text.now ≡ cut.0.now ∷ words_of cut.1.now)
        (λ why. (words_of text.now ≡ []) × (why ≡ SubsWhy.FieldCount)) }
{
    match next_word(text) {
        Some(cut) => Ok(cut),
        None => Err(SubsWhy::FieldCount),
    }
}
