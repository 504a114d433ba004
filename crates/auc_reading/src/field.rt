//! The fields of a line.

ghost use Rattle.std.specs.Prelude.{◌≡◌, ◌≤◌, [], ◌∷◌, ◌<◌, nat_le, MatchResult, IfOk, IfSome};
ghost use Rattle.std.specs.Option.{option_copied};
ghost use Rattle.auc_memory.specs.Identity.{number_of};
ghost use Rattle.auc_text.specs.Text.{is_text, words_of};
ghost use Rattle.auc_reading.specs.Field.{bit_in, byte_in, end_in, four_fields, full_in, is_number, no_field, number_between, one_field, optional_field, three_fields, two_fields};
ghost use Rattle.auc_reading.specs.declared.refusal.ScriptWhy.TheVariants as cause;

use crate::refusal::ScriptWhy;
use auc_lines::End;
use auc_text::{are_digits, next_word, read_decimal, read_octets};

/// The last of the 112 bits of an AUTS (TS 33.102 §6.3.3).
pub const LAST_BIT: u8 = 111;
/// The last of the 128 bits of RES* (TS 33.501 Annex A.4).
pub const LAST_STAR_BIT: u8 = 127;

/// Whether a line has no field, else the cause.
pub fn no_field(fields: &[u8]) -> Result<(), ScriptWhy>
    ensures { result ≡ no_field (words_of fields.now) }
{
    match next_word(fields) {
        None => Ok(()),
        Some(_) => Err(ScriptWhy::Fields),
    }
}

/// The first field of a line, and the fields behind it.
pub fn first_field(fields: &[u8]) -> Result<(&[u8], &[u8]), ScriptWhy>
    ensures { MatchResult result
        (λ f. words_of fields.now ≡ f.0.now ∷ words_of f.1.now)
        (λ why. (words_of fields.now ≡ []) × (why ≡ cause.Fields)) }
{
    match next_word(fields) {
        Some(cut) => Ok(cut),
        None => Err(ScriptWhy::Fields),
    }
}

/// The one field of a line.
pub fn one_field(fields: &[u8]) -> Result<&[u8], ScriptWhy>
    ensures { MatchResult result
        (λ field. one_field (words_of fields.now) ≡ Ok field.now)
        (λ why. one_field (words_of fields.now) ≡ Err why) }
{
    let (first, rest) = first_field(fields)?;
    match next_word(rest) {
        None => Ok(first),
        Some(_) => Err(ScriptWhy::Fields),
    }
}

/// The two fields of a line.
pub fn two_fields(fields: &[u8]) -> Result<(&[u8], &[u8]), ScriptWhy>
    ensures { MatchResult result
        (λ f. two_fields (words_of fields.now) ≡ Ok (f.0.now, f.1.now))
        (λ why. two_fields (words_of fields.now) ≡ Err why) }
{
    let (first, rest) = first_field(fields)?;
    Ok((first, one_field(rest)?))
}

/// The three fields of a line.
pub fn three_fields(fields: &[u8]) -> Result<(&[u8], &[u8], &[u8]), ScriptWhy>
    ensures { MatchResult result
        (λ f. three_fields (words_of fields.now) ≡ Ok (f.0.now, f.1.now, f.2.now))
        (λ why. three_fields (words_of fields.now) ≡ Err why) }
{
    let (first, rest) = first_field(fields)?;
    let (second, third) = two_fields(rest)?;
    Ok((first, second, third))
}

/// The four fields of a line.
pub fn four_fields(fields: &[u8]) -> Result<(&[u8], &[u8], &[u8], &[u8]), ScriptWhy>
    ensures { MatchResult result
        (λ f. four_fields (words_of fields.now) ≡ Ok (f.0.now, f.1.now, f.2.now, f.3.now))
        (λ why. four_fields (words_of fields.now) ≡ Err why) }
{
    let (first, rest) = first_field(fields)?;
    let (second, third, fourth) = three_fields(rest)?;
    Ok((first, second, third, fourth))
}

/// The field of a line, if it has one.
pub fn optional_field(fields: &[u8]) -> Result<Option<&[u8]>, ScriptWhy>
    ensures { MatchResult result
        (λ field. optional_field (words_of fields.now) ≡ Ok (option_copied field))
        (λ why. optional_field (words_of fields.now) ≡ Err why) }
{
    match next_word(fields) {
        None => Ok(None),
        Some((field, rest)) => {
            no_field(rest)?;
            Ok(Some(field))
        }
    }
}

/// Whether a text is these bytes.
pub fn is_text(text: &[u8], bytes: &[u8]) -> bool
    ensures { result ≡ is_text text.now bytes.now }
{
    text == bytes
}

/// Whether a field is 1 to 20 decimal digits.
pub fn is_number(text: &[u8]) -> bool
    ensures { result ≡ is_number text.now }
{
    !text.is_empty() && text.len() <= 20 && are_digits(text)
}

/// The number of a range that a field is.
pub fn read_number(text: &[u8], least: u64, greatest: u64) -> Result<u64, ScriptWhy>
    ensures value { result ≡ number_between least greatest text.now }
    ensures least { IfOk result (λ number. least ≤ number) }
    ensures greatest { IfOk result (λ number. number ≤ greatest) }
{
    if !is_number(text) {
        return Err(ScriptWhy::Fields);
    }
    match read_decimal(text, 20, greatest) {
        Some(number) if number >= least => Ok(number),
        _ => Err(ScriptWhy::Number),
    }
}

/// The bit up to the last one that a field is, or none.
pub fn read_bit(text: &[u8], last: u8) -> Result<Option<u8>, ScriptWhy>
    ensures value { result ≡ bit_in last text.now }
    ensures bit { IfOk result (λ bit. IfSome bit (λ number. number ≤ last)) }
{
    if is_text(text, b"-") {
        return Ok(None);
    }
    Ok(Some(read_number(text, 0, u64::from(last))? as u8))
}

/// The byte that a field of two hexadecimal digits is.
pub fn read_byte(text: &[u8]) -> Result<u8, ScriptWhy>
    ensures { result ≡ byte_in text.now }
{
    let octets = read_octets::<1>(text).ok_or(ScriptWhy::Hex)?;
    Ok(octets[0])
}

/// The end of a session that a field is.
pub fn read_end(text: &[u8]) -> Result<End, ScriptWhy>
    ensures { result ≡ end_in text.now }
{
    if is_text(text, b"server") {
        return Ok(End::Server);
    }
    if is_text(text, b"peer") {
        return Ok(End::Peer);
    }
    Err(ScriptWhy::Fields)
}

/// Whether a field says that vectors are printed in full.
pub fn read_full(text: &[u8]) -> Result<bool, ScriptWhy>
    ensures { result ≡ full_in text.now }
{
    if is_text(text, b"brief") {
        return Ok(false);
    }
    if is_text(text, b"full") {
        return Ok(true);
    }
    Err(ScriptWhy::Fields)
}
