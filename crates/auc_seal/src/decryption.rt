//! Decryption of attributes (RFC 4187 §10.12).

ghost use Rattle.std.specs.Prelude.{◌≡◌, ◌≢◌, ◌%◌, ℕ, List, Err, length, IfOk};
ghost use Rattle.std.specs.Option.{option_copied};
ghost use Rattle.auc_aes.specs.Cbc.{cbc_decrypted};
ghost use Rattle.auc_attr.specs.declared.attr.Attr.{Attr};
ghost use Rattle.auc_attr.specs.declared.refusal.AttrRefusal.TheVariants as attr_refusal;
ghost use Rattle.auc_seal.specs.Encrypted.{iv_of, data_of, first_value, is_ciphertext, IsFaulty, Decrypts};

use crate::copying::without_padding;
use crate::refusal::SealRefusal;
use auc_aes::Key;
use auc_attr::{Attr, AttrList, AttrRefusal, read_attrs};
use auc_memory::{NoMemory, Octets};
use std::alloc::Global;

/// Decrypts the AT_ENCR_DATA of a list under K_encr, and gives its attributes without their padding; none if
/// the list has no AT_ENCR_DATA. If several refusals apply, the first in the order of [`SealRefusal`] is
/// given.
pub fn decrypt_attrs(
    alloc: Global,
    k_encr: [u8; 16],
    list: &AttrList,
) -> Result<AttrList, SealRefusal>
    ensures { Decrypts k_encr list.now result }
{
    let Some(ciphertext) = first_data(list.as_slice()) else {
        return Ok(AttrList::new(alloc));
    };
    let Some(iv) = first_iv(list.as_slice()) else {
        return Err(SealRefusal::NoIv);
    };
    if !is_ciphertext(ciphertext.as_slice()) {
        return Err(SealRefusal::BadSize);
    }
    let bytes = decrypted(alloc, k_encr, iv, ciphertext.as_slice())?;
    match read_attrs(alloc, bytes.as_slice()) {
        Ok(whole) => Ok(without_padding(alloc, &whole)?),
        Err(fault) => Err(refusal_of(fault)),
    }
}

/// The value of the first AT_ENCR_DATA.
pub(crate) fn first_data(list: &[Attr]) -> Option<&Octets>
    ensures { option_copied result ≡ first_value data_of list.now }
{
    for attr in list {
        if let Some(ciphertext) = data_of(attr) {
            return Some(ciphertext);
        }
    }
    None
}

/// The value of an AT_ENCR_DATA.
fn data_of(attr: &Attr) -> Option<&Octets>
    ensures { option_copied result ≡ data_of attr.now }
{
    match attr {
        Attr::EncrData(ciphertext) => Some(ciphertext),
        _ => None,
    }
}

/// The value of the first AT_IV.
pub(crate) fn first_iv(list: &[Attr]) -> Option<[u8; 16]>
    ensures { result ≡ first_value iv_of list.now }
{
    for attr in list {
        if let Some(iv) = iv_of(attr) {
            return Some(iv);
        }
    }
    None
}

/// The value of an AT_IV.
fn iv_of(attr: &Attr) -> Option<[u8; 16]>
    ensures { result ≡ iv_of attr.now }
{
    match attr {
        Attr::Iv(iv) => Some(*iv),
        _ => None,
    }
}

/// Whether bytes are one or more whole blocks.
pub(crate) fn is_ciphertext(bytes: &[u8]) -> bool
    ensures { result ≡ is_ciphertext bytes.now }
{
    !bytes.is_empty() && bytes.len() % 16 == 0
}

/// The decrypted bytes of whole blocks.
fn decrypted(
    alloc: Global,
    k_encr: [u8; 16],
    iv: [u8; 16],
    ciphertext: &[u8],
) -> Result<Vec<u8>, NoMemory>
    requires { length ciphertext.now % 16 ≡ 0 }
    ensures { IfOk result (λ bytes. bytes.items ≡ cbc_decrypted k_encr iv ciphertext.now) }
{
    let mut bytes = ciphertext.to_vec(alloc)?;
    Key::new(k_encr).cbc_decrypt(iv, &mut bytes);
    Ok(bytes)
}

/// The refusal for a fault of the decrypted bytes.
fn refusal_of(fault: AttrRefusal) -> SealRefusal
    ensures { (k_encr : List ℕ) (list : List Attr) → (fault ≢ attr_refusal.NoMemory → IsFaulty k_encr list fault) → Decrypts k_encr list (Err result) }
{
    match fault {
        AttrRefusal::NoMemory => SealRefusal::NoMemory,
        _ => SealRefusal::Attr(fault),
    }
}
