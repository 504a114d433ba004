//! The words of a line as values. They take no memory.

ghost use Rattle.std.specs.Prelude.{◌≡◌, ◌∷◌, []};
ghost use Rattle.hex.specs.Hex.{IsBytes, encode_lower};
ghost use Rattle.auc_print.specs.Inner.{group_texts, word_texts};
ghost use Rattle.auc_print.specs.Numeral.{numeral};

/// A word of a line.
#[derive(Clone, Copy)]
pub enum Word<'a> {
    /// No word: nothing is printed, no space either.
    Nothing,
    /// This text.
    Text(&'a [u8]),
    /// A number in decimal digits.
    Number(u64),
    /// Bytes in lower-case hexadecimal digits.
    Hex(&'a [u8]),
    /// An SQN in lower-case hexadecimal digits.
    Sqn([u8; 6]),
    /// A byte in two lower-case hexadecimal digits.
    Byte(u8),
}

/// Up to three words.
pub type Group<'a> = [Word<'a>; 3];

/// No words.
pub fn none() -> Group<'static>
    ensures { group_texts result ≡ [] }
{
    [Word::Nothing, Word::Nothing, Word::Nothing]
}

/// One word.
pub fn one(text: &[u8]) -> Group<'_>
    ensures { group_texts result ≡ text.now ∷ [] }
{
    [Word::Text(text), Word::Nothing, Word::Nothing]
}

/// Two words.
pub fn two<'a>(first: &'a [u8], second: &'a [u8]) -> Group<'a>
    ensures { group_texts result ≡ first.now ∷ second.now ∷ [] }
{
    [Word::Text(first), Word::Text(second), Word::Nothing]
}

/// A word and a number.
pub fn value(text: &[u8], number: u64) -> Group<'_>
    ensures { group_texts result ≡ text.now ∷ numeral number ∷ [] }
{
    [Word::Text(text), Word::Number(number), Word::Nothing]
}

/// A word and two numbers.
pub fn pair(text: &[u8], first: u64, second: u64) -> Group<'_>
    ensures { group_texts result ≡ text.now ∷ numeral first ∷ numeral second ∷ [] }
{
    [Word::Text(text), Word::Number(first), Word::Number(second)]
}

/// A word and an SQN. It brings into the proof that the SQN has bytes.
pub fn sqn_after(text: &[u8], sqn: [u8; 6]) -> Group<'_>
    ensures words { group_texts result ≡ text.now ∷ encode_lower sqn ∷ [] }
    ensures fits { IsBytes sqn }
{
    [Word::Text(text), Word::Sqn(sqn), Word::Nothing]
}

/// A number of 32 bits in decimal digits.
pub fn decimal(number: u32) -> Word<'static>
    ensures { word_texts result ≡ numeral number ∷ [] }
{
    Word::Number(u64::from(number))
}

/// Bytes in lower-case hexadecimal digits. It brings into the proof that they are bytes.
pub fn hex_word(bytes: &[u8]) -> Word<'_>
    ensures word { word_texts result ≡ encode_lower bytes.now ∷ [] }
    ensures fits { IsBytes bytes.now }
{
    Word::Hex(bytes)
}

/// A byte in two lower-case hexadecimal digits. It brings into the proof that it is a byte.
pub fn byte_word(byte: u8) -> Word<'static>
    ensures word { word_texts result ≡ encode_lower (byte ∷ []) ∷ [] }
    ensures fits { IsBytes (byte ∷ []) }
{
    Word::Byte(byte)
}
