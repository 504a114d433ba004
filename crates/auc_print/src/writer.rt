//! The one writer: it appends the words of a line.

ghost use Rattle.std.specs.Prelude.{◌≡◌, ◌++◌, ◌∷◌, ◌<◌, ◌≤◌, length, drop, OnOk, OnErr};
ghost use Rattle.hex.specs.Hex.{encode_lower};
ghost use Rattle.auc_print.specs.Inner.{Prints, after_spaces, group_texts, word_texts};
ghost use Rattle.auc_print.specs.Numeral.{numeral};
ghost use Rattle.auc_print.specs.Text.{identities_of, imsi_of, spaced};

use crate::word::Word;
use auc_memory::{NoMemory, Octets};
use auc_subs::Subscribers;

/// Appends a line: its first word and the others.
pub fn print_line(first: &[u8], more: &[Word<'_>], out: &mut Octets) -> Result<(), NoMemory>
    ensures { Prints result out.old out.new (spaced (first.now ∷ group_texts more.now)) }
{
    out.append(first)?;
    print_group(more, out)?;
    out.append(b"\n")
}

/// Appends a line: its first word, the IMSI of a subscriber, and the other words.
pub fn print_named(
    first: &[u8],
    sub: u32,
    more: &[Word<'_>],
    subs: &Subscribers,
    out: &mut Octets,
) -> Result<(), NoMemory>
    requires { sub < length subs.now }

    ensures { Prints result out.old out.new
        (spaced (first.now ∷ imsi_of (identities_of subs.now) sub ∷ group_texts more.now)) }
{
    print_subject(first, sub, subs, out)?;
    print_group(more, out)?;
    out.append(b"\n")
}

/// Appends a line's first word and the IMSI of a subscriber.
fn print_subject(
    first: &[u8],
    sub: u32,
    subs: &Subscribers,
    out: &mut Octets,
) -> Result<(), NoMemory>
    requires { sub < length subs.now }

    ensures { Prints result out.old out.new
        (first.now ++ 32 ∷ imsi_of (identities_of subs.now) sub) }
{
    out.append(first)?;
    out.append(b" ")?;
    subs.row(sub).imsi.write_to(out)
}

/// Appends words, each after a space.
pub fn print_group(group: &[Word<'_>], out: &mut Octets) -> Result<(), NoMemory>
    ensures { Prints result out.old out.new (after_spaces (group_texts group.now)) }
{
    for word in group {
        print_word(*word, out)?;
    }
    Ok(())
}

/// Appends a word after a space, if it is one.
fn print_word(word: Word<'_>, out: &mut Octets) -> Result<(), NoMemory>
    ensures { Prints result out.old out.new (after_spaces (word_texts word.entry)) }
{
    match word {
        Word::Nothing => Ok(()),
        Word::Text(text) => {
            out.append(b" ")?;
            out.append(text)
        }
        Word::Number(number) => print_number(number, out),
        Word::Hex(bytes) => print_hex(bytes, out),
        Word::Sqn(sqn) => print_hex(&sqn, out),
        Word::Byte(byte) => print_hex(&[byte], out),
    }
}

/// Appends a space and a number.
fn print_number(number: u64, out: &mut Octets) -> Result<(), NoMemory>
    ensures { Prints result out.old out.new (32 ∷ numeral number) }
{
    let mut room = [0; 21];
    let start = write_number(number, &mut room);
    out.append(&room[start..])
}

/// Writes a space and the decimal digits of a number at the end of `room`. It answers where they begin.
fn write_number(number: u64, room: &mut [u8; 21]) -> usize
    ensures within { result ≤ 21 }
    ensures written { drop result room.new ≡ 32 ∷ numeral number }
{
    let mut place = 21;
    let mut rest = number;
    while rest >= 10 {
        place -= 1;
        room[place] = b'0' + (rest % 10) as u8;
        rest /= 10;
    }
    room[place - 1] = b'0' + rest as u8;
    room[place - 2] = b' ';
    place - 2
}

/// Appends a space and bytes in lower-case hexadecimal digits.
fn print_hex(bytes: &[u8], out: &mut Octets) -> Result<(), NoMemory>
    ensures { Prints result out.old out.new (32 ∷ encode_lower bytes.now) }
{
    out.append(b" ")?;
    let mut rest = bytes;
    while rest.len() > 16 {
        append_hex_digits(&rest[..16], out)?;
        rest = &rest[16..];
    }
    append_hex_digits(rest, out)
}

/// Appends up to 16 bytes in lower-case hexadecimal digits, two for each. If memory runs out, `out` stays as it was.
pub fn append_hex_digits(bytes: &[u8], out: &mut Octets) -> Result<(), NoMemory>
    requires { length bytes.now ≤ 16 }

    ensures appended { OnOk result (out.new ≡ out.old ++ encode_lower bytes.now) }
    ensures kept { OnErr result (out.new ≡ out.old) }
{
    let mut room = [0; 32];
    let digits = &mut room[..2 * bytes.len()];
    hex::encode_to_slice(bytes, &mut *digits).unwrap();
    out.append(digits)
}
