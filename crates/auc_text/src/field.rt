//! Words that are decimal numbers, or octets in hexadecimal digits.

ghost use Rattle.std.specs.Prelude.{◌≡◌, ◌≤◌, length, IfSome, IsTrue};
ghost use Rattle.std.specs.List.{AllPass, list_all};
ghost use Rattle.std.specs.Char.{is_ascii_digit};
ghost use Rattle.hex.specs.Hex.{IsBytes};
ghost use Rattle.auc_memory.specs.Identity.{number_of};
ghost use Rattle.auc_text.specs.Field.{number_in, octets_in};

use hex::FromHex;

/// The number that a text of 1 to `digits` decimal digits is, leading zeros included. It answers `None`
/// for any other text, and if the number is above `greatest`.
pub fn read_decimal(text: &[u8], digits: usize, greatest: u64) -> Option<u64>
    requires { digits ≤ 20 }
    ensures { result ≡ number_in digits greatest text.now }
{
    if text.is_empty() || text.len() > digits || !are_digits(text) {
        return None;
    }
    let number = value(text);
    if number <= greatest as u128 {
        Some(number as u64)
    } else {
        None
    }
}

/// Whether each byte is a decimal digit.
pub fn are_digits(text: &[u8]) -> bool
    ensures value { result ≡ list_all is_ascii_digit text.now }
    ensures digits { IsTrue result → AllPass is_ascii_digit text.now }
{
    text.iter().all(|byte| byte.is_ascii_digit())
}

/// The number of at most 20 decimal digits.
fn value(text: &[u8]) -> u128
    requires short { length text.now ≤ 20 }
    requires digits { AllPass is_ascii_digit text.now }
    ensures { result ≡ number_of text.now }
{
    let mut number = 0u128;
    for byte in text {
        number = 10 * number + (*byte - b'0') as u128;
    }
    number
}

/// The `N` bytes that `2 * N` hexadecimal digits of either case are, or `None` for any other text.
pub fn read_octets<const N: usize>(text: &[u8]) -> Option<[u8; N]>
    ensures value { result ≡ octets_in N text.now }
    ensures octets { IfSome result (λ octets. length octets ≡ N × IsBytes octets) }
{
    <[u8; N] as FromHex>::from_hex(text).ok()
}
