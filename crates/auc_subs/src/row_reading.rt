//! What the fields of a record say of a subscriber.

ghost use Rattle.std.specs.Prelude.{◌≡◌, ◌≤◌, map, IfOk, IfSome};
ghost use Rattle.std.specs.Option.{ok_or};
ghost use Rattle.auc_aes.specs.Bytes.{IsBlock};
ghost use Rattle.auc_memory.specs.Identity.{IsIdentity, identity_of};
ghost use Rattle.auc_sqn.specs.Number.{most_bits, top_of};
ghost use Rattle.auc_text.specs.Field.{number_in};
ghost use Rattle.auc_subs.specs.Subscriber.{age_in, bits_in, limit_in, line_counts, opc_in, row_of, IsAge, IsRow};

use crate::refusal::SubsWhy;
use crate::row::{MAX_AGE, Row};
use auc_memory::Imsi;
use auc_milenage::{Secret, opc_of};
use auc_sqn::{MAX_BITS, top};
use auc_text::{read_decimal, read_octets};

/// The index length of a subscriber whose record doesn't give it.
const USUAL_BITS: u8 = 5;

/// OPc under a key, from the word of the field's kind and its digits.
fn read_opc(k: [u8; 16], kind: &[u8], text: &[u8]) -> Result<[u8; 16], SubsWhy>
    ensures value { result ≡ opc_in k kind.now text.now }
    ensures block { IfOk result IsBlock }
{
    match kind {
        b"op" => Ok(opc_of(k, read_octets(text).ok_or(SubsWhy::Op)?)),
        b"opc" => Ok(read_octets(text).ok_or(SubsWhy::Op)?),
        _ => Err(SubsWhy::Kind),
    }
}

/// The identity that a field is.
fn read_imsi(text: &[u8]) -> Result<Imsi, SubsWhy>
    ensures value { result ≡ ok_or (identity_of text.now) SubsWhy.Imsi }
    ensures identity { IfOk result (λ imsi. IsIdentity imsi.digits imsi.number) }
{
    Imsi::read(text).ok_or(SubsWhy::Imsi)
}

/// The index length in a record.
fn bits_in(fields: &[&[u8]]) -> Option<u8>
    ensures value { result ≡ bits_in (map (λ field. field.now) fields.now) }
    ensures few { IfSome result (λ bits. bits ≤ most_bits) }
{
    if fields.len() != 9 {
        return Some(USUAL_BITS);
    }
    match read_decimal(fields[7], 1, MAX_BITS as u64) {
        Some(bits) => Some(bits as u8),
        None => None,
    }
}

/// The age limit in a record, if it has one, or `None` if the field isn't one.
fn age_in(fields: &[&[u8]]) -> Option<Option<u64>>
    ensures value { result ≡ age_in (map (λ field. field.now) fields.now) }
    ensures limit { IfSome result IsAge }
{
    if fields.len() == 9 {
        limit_in(fields[8])
    } else {
        Some(None)
    }
}

/// The age limit that a text is, or `-` that there is none.
fn limit_in(text: &[u8]) -> Option<Option<u64>>
    ensures value { result ≡ limit_in text.now }
    ensures limit { IfSome result IsAge }
{
    if text == b"-".as_slice() {
        return Some(None);
    }
    match read_decimal(text, 15, MAX_AGE) {
        None | Some(0) => None,
        limit => Some(limit),
    }
}

/// The number that a field is, up to the greatest of an index of so many bits, or a fault.
fn read_number(text: &[u8], bits: u8, why: SubsWhy) -> Result<u64, SubsWhy>
    requires { bits ≤ most_bits }

    ensures value { result ≡ ok_or (number_in 15 (top_of bits) text.now) why }
    ensures within { IfOk result (λ number. number ≤ top_of bits) }
{
    read_decimal(text, 15, top(bits)).ok_or(why)
}

/// The subscriber that seven or nine fields are, or the first fault.
pub fn read_row(fields: &[&[u8]]) -> Result<Row, SubsWhy>
    ensures value { result ≡ row_of line_counts (map (λ field. field.now) fields.now) }
    ensures row { IfOk result IsRow }
{
    if fields.len() != 7 && fields.len() != 9 {
        return Err(SubsWhy::FieldCount);
    }
    let imsi = read_imsi(fields[0])?;
    let k = read_octets(fields[1]).ok_or(SubsWhy::Key)?;
    let opc = read_opc(k, fields[2], fields[3])?;
    let amf = read_octets(fields[4]).ok_or(SubsWhy::Amf)?;
    let bits = bits_in(fields).ok_or(SubsWhy::Bits)?;
    let age = age_in(fields).ok_or(SubsWhy::Age)?;
    Ok(Row {
        imsi,
        secret: Secret { k, opc },
        amf,
        seq: read_number(fields[5], bits, SubsWhy::Seq)?,
        usim: read_number(fields[6], bits, SubsWhy::Usim)?,
        bits,
        age,
    })
}
