//! The lines of a text, the words of a line, and the numbers and octets that words spell.
//!
//! [`next_line`] splits off the first line of a text; LF, CRLF or the end of the text ends a line, and a
//! CR alone doesn't. [`next_word`] splits off the first word of a line; spaces and tabs separate words,
//! and no other byte does. [`word_count`] counts the words of a line, and [`joined`] writes them with one
//! space between. [`read_decimal`] reads a number of decimal digits and [`read_octets`] octets of
//! hexadecimal digits; both answer `None` for any other text.
//!
//! Contracts see texts, lines and words as lists of bytes. Only [`joined`] takes memory; nothing here
//! waits. The tests stand in `auc_text_tests`.
#![tactic(auto)]

mod field;
mod text;

pub use field::{are_digits, read_decimal, read_octets};
pub use text::{joined, next_line, next_word, word_count};
