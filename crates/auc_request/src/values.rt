//! The attributes that a peer looks for in a message.

ghost use Rattle.std.specs.Prelude.{◌≡◌};
ghost use Rattle.std.specs.Option.{option_copied};
ghost use Rattle.auc_request.specs.Request.{autn_of, bids, checkcode_of, code_of, first_code, first_kdf, first_value, is_bid, kdf_of, name_in, name_of, rand_of};

use auc_attr::Attr;
use auc_memory::Octets;

/// The value of the first AT_RAND.
pub fn rand_in(list: &[Attr]) -> Option<[u8; 16]>
    ensures { result ≡ first_value rand_of list.now }
{
    for attr in list {
        if let Some(rand) = rand_of(attr) {
            return Some(rand);
        }
    }
    None
}

fn rand_of(attr: &Attr) -> Option<[u8; 16]>
    ensures { result ≡ rand_of attr.now }
{
    match attr {
        Attr::Rand(rand) => Some(*rand),
        _ => None,
    }
}

/// The value of the first AT_AUTN.
pub fn autn_in(list: &[Attr]) -> Option<[u8; 16]>
    ensures { result ≡ first_value autn_of list.now }
{
    for attr in list {
        if let Some(autn) = autn_of(attr) {
            return Some(autn);
        }
    }
    None
}

fn autn_of(attr: &Attr) -> Option<[u8; 16]>
    ensures { result ≡ autn_of attr.now }
{
    match attr {
        Attr::Autn(autn) => Some(*autn),
        _ => None,
    }
}

/// The code of the first AT_NOTIFICATION.
pub fn code_in(list: &[Attr]) -> Option<u16>
    ensures { result ≡ first_code list.now }
{
    for attr in list {
        if let Some(code) = code_of(attr) {
            return Some(code);
        }
    }
    None
}

fn code_of(attr: &Attr) -> Option<u16>
    ensures { result ≡ code_of attr.now }
{
    match attr {
        Attr::Notification(code) => Some(*code),
        _ => None,
    }
}

/// The number of the first AT_KDF.
pub fn kdf_in(list: &[Attr]) -> Option<u16>
    ensures { result ≡ first_kdf list.now }
{
    for attr in list {
        if let Some(kdf) = kdf_of(attr) {
            return Some(kdf);
        }
    }
    None
}

fn kdf_of(attr: &Attr) -> Option<u16>
    ensures { result ≡ kdf_of attr.now }
{
    match attr {
        Attr::Kdf(kdf) => Some(*kdf),
        _ => None,
    }
}

/// The name in the first AT_KDF_INPUT, empty if there is none.
pub fn name_in(list: &[Attr]) -> &[u8]
    ensures { result.now ≡ name_in list.now }
{
    for attr in list {
        if let Some(name) = name_of(attr) {
            return name.as_slice();
        }
    }
    &[]
}

fn name_of(attr: &Attr) -> Option<&Octets>
    ensures { option_copied result ≡ name_of attr.now }
{
    match attr {
        Attr::KdfInput(name) => Some(name),
        _ => None,
    }
}

/// Whether there is an AT_BIDDING with D set.
pub fn bids(list: &[Attr]) -> bool
    ensures { result ≡ bids list.now }
{
    list.iter().any(|attr| is_bid(attr))
}

fn is_bid(attr: &Attr) -> bool
    ensures { result ≡ is_bid attr.now }
{
    match attr {
        Attr::Bidding(d) => *d,
        _ => false,
    }
}

/// The value of the first AT_CHECKCODE.
pub fn checkcode_in(list: &[Attr]) -> Option<&Octets>
    ensures { option_copied result ≡ first_value checkcode_of list.now }
{
    for attr in list {
        if let Some(code) = checkcode_of(attr) {
            return Some(code);
        }
    }
    None
}

fn checkcode_of(attr: &Attr) -> Option<&Octets>
    ensures { option_copied result ≡ checkcode_of attr.now }
{
    match attr {
        Attr::Checkcode(code) => Some(code),
        _ => None,
    }
}
