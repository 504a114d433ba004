//! Identities of subscribers.

ghost use Rattle.std.specs.Prelude.{◌≡◌, ◌≤◌, ◌<◌, ◌^◌, ◌++◌, length, true, IsTrue, IfSome, OnOk, OnErr};
ghost use Rattle.std.specs.List.{list_all};
ghost use Rattle.std.specs.Option.{is_some};
ghost use Rattle.std.specs.Char.{is_ascii_digit};
ghost use Rattle.auc_memory.specs.Identity.{identity_of, is_identity, is_imsi, number_of, digits_of};
ghost use Rattle.auc_memory.specs.IdentityKey.{key_of};

use crate::identity_key::IdentityKey;
use crate::no_memory::NoMemory;
use crate::octets::Octets;
use std::marker::Model;

// The greatest number of digits of an identity.
const MAX_DIGITS: usize = 15;

/// An IMSI: 6 to 15 decimal digits, leading zeros among them (TS 23.003 §2.2). Contracts see how many
/// digits it has and the number that they are.
#[derive(Clone, Copy, Debug, PartialEq, Eq)]
pub struct Imsi {
    digits: u8,
    number: u64,
}

impl Model for Imsi {
    ghost use Rattle.auc_memory.specs.Identity.{Identity, IsIdentity};

    ghost Value = { Identity };

    ghost view = { λ i. record { digits = i.digits; number = i.number } };

    ghost invariant = { λ i. IsIdentity i.digits i.number };

    ghost inverse = { λ v. record { digits = v.digits; number = v.number } };
}

impl Imsi {
    /// The identity that has so many digits and this number. [`Imsi::of`] tells whether there is one.
    pub fn new(digits: u8, number: u64) -> Imsi
        requires { is_imsi digits number ≡ true }
        ensures { result ≡ record { digits = digits; number = number } }
    {
        Imsi { digits, number }
    }

    /// The identity that has so many digits and this number, or `None` if there is none.
    pub fn of(digits: u8, number: u64) -> Option<Imsi>
        ensures value { IfSome result (λ imsi. imsi ≡ record { digits = digits; number = number }) }
        ensures exact { is_some result ≡ is_imsi digits number }
    {
        if !is_imsi(digits, number) {
            return None;
        }
        Some(Imsi { digits, number })
    }

    /// Its key in a map.
    pub fn key(&self) -> IdentityKey
        ensures { result ≡ key_of self.now }
    {
        IdentityKey {
            digits: self.digits,
            number: self.number,
        }
    }

    /// How many digits it has, from 6 to 15.
    pub fn digits(&self) -> u8
        ensures { result ≡ self.now.digits }
    {
        self.digits
    }

    /// The number that its digits are in decimal.
    pub fn number(&self) -> u64
        ensures { result ≡ self.now.number }
    {
        self.number
    }

    /// The identity that a text of 6 to 15 decimal digits is, or `None` if the text is another one.
    pub fn read(text: &[u8]) -> Option<Imsi>
        ensures { result ≡ identity_of text.now }
    {
        if !is_identity(text) {
            return None;
        }
        Some(Imsi {
            digits: text.len() as u8,
            number: number_of(text),
        })
    }

    /// Appends its digits, leading zeros among them. If memory runs out, nothing is appended.
    pub fn write_to(&self, out: &mut Octets) -> Result<(), NoMemory>
        ensures written { OnOk result (out.new ≡ out.old ++ digits_of self.now) }
        ensures kept { OnErr result (out.new ≡ out.old) }
    {
        let mut room = [0; MAX_DIGITS];
        let text = &mut room[..usize::from(self.digits)];
        self.put_digits(text);
        out.append(text)
    }

    /// Fills a text of as many bytes as there are digits with its digits, leading zeros among them.
    pub fn put_digits(&self, text: &mut [u8])
        requires { length text.old ≡ self.now.digits }
        ensures { text.new ≡ digits_of self.now }
    {
        let mut left = text.len();
        let mut rest = self.number;
        while left > 0 {
            left -= 1;
            text[left] = b'0' + (rest % 10) as u8;
            rest /= 10;
        }
    }
}

// Whether an identity has so many digits and this number.
fn is_imsi(digits: u8, number: u64) -> bool
    ensures { result ≡ is_imsi digits number }
{
    6 <= digits && usize::from(digits) <= MAX_DIGITS && number < 10u64.pow(u32::from(digits))
}

// Whether a text is 6 to 15 decimal digits.
fn is_identity(text: &[u8]) -> bool
    ensures { result ≡ is_identity text.now }
{
    6 <= text.len() && text.len() <= MAX_DIGITS && are_digits(text)
}

// Whether each byte is a decimal digit.
fn are_digits(text: &[u8]) -> bool
    ensures { result ≡ list_all is_ascii_digit text.now }
{
    text.iter().all(|digit| digit.is_ascii_digit())
}

// The number that a text of decimal digits is.
fn number_of(text: &[u8]) -> u64
    requires length { length text.now ≤ 15 }
    requires digits { IsTrue (list_all is_ascii_digit text.now) }
    ensures value { result ≡ number_of text.now }
    ensures fits { result < 10 ^ length text.now }
{
    let mut number = 0;
    for digit in text {
        number = 10 * number + u64::from(*digit - b'0');
    }
    number
}
