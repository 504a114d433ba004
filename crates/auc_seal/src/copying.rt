//! Copies of attributes.

ghost use Rattle.std.specs.Prelude.{◌≡◌, ◌++◌, [], ◌∷◌, IfOk, OnOk};
ghost use Rattle.std.specs.List.{list_any};
ghost use Rattle.auc_seal.specs.Encrypted.{is_padding, without_padding};

use auc_attr::{Attr, AttrList};
use auc_memory::{NoMemory, Octets};
use std::alloc::Global;

/// A copy of a list.
pub(crate) fn copied(alloc: Global, list: &AttrList) -> Result<AttrList, NoMemory>
    ensures { IfOk result (λ copy. copy ≡ list.now) }
{
    let mut copy = AttrList::new(alloc);
    for attr in list.as_slice() {
        copy.push(copy_of(alloc, attr)?)?;
    }
    Ok(copy)
}

/// A copy of a list, without its padding.
pub(crate) fn without_padding(alloc: Global, list: &AttrList) -> Result<AttrList, NoMemory>
    ensures { IfOk result (λ rest. rest ≡ without_padding list.now) }
{
    let mut rest = AttrList::new(alloc);
    for attr in list.as_slice() {
        push_unpadded(alloc, attr, &mut rest)?;
    }
    Ok(rest)
}

/// Pushes a copy of an attribute, unless it is padding.
fn push_unpadded(alloc: Global, attr: &Attr, rest: &mut AttrList) -> Result<(), NoMemory>
    ensures { OnOk result (rest.new ≡ rest.old ++ without_padding (attr.now ∷ [])) }
{
    if is_padding(attr) {
        return Ok(());
    }
    rest.push(copy_of(alloc, attr)?)
}

/// Whether a list has padding.
pub(crate) fn has_padding(list: &AttrList) -> bool
    ensures { result ≡ list_any is_padding list.now }
{
    list.as_slice().iter().any(is_padding)
}

/// Whether an attribute is padding.
fn is_padding(attr: &Attr) -> bool
    ensures { result ≡ is_padding attr.now }
{
    matches!(attr, Attr::Padding(_))
}

/// A copy of an attribute.
fn copy_of(alloc: Global, attr: &Attr) -> Result<Attr, NoMemory>
    ensures { IfOk result (λ copy. copy ≡ attr.now) }
{
    match attr {
        Attr::Rand(v) => Ok(Attr::Rand(*v)),
        Attr::Autn(v) => Ok(Attr::Autn(*v)),
        Attr::Res(v) => Ok(Attr::Res(Octets::copied_from(alloc, v.as_slice())?)),
        Attr::Auts(v) => Ok(Attr::Auts(*v)),
        Attr::Padding(v) => Ok(Attr::Padding(Octets::copied_from(alloc, v.as_slice())?)),
        Attr::PermanentIdReq => Ok(Attr::PermanentIdReq),
        Attr::Mac(v) => Ok(Attr::Mac(*v)),
        Attr::Notification(n) => Ok(Attr::Notification(*n)),
        Attr::AnyIdReq => Ok(Attr::AnyIdReq),
        Attr::Identity(v) => Ok(Attr::Identity(Octets::copied_from(alloc, v.as_slice())?)),
        Attr::FullauthIdReq => Ok(Attr::FullauthIdReq),
        Attr::Counter(n) => Ok(Attr::Counter(*n)),
        Attr::CounterTooSmall => Ok(Attr::CounterTooSmall),
        Attr::NonceS(v) => Ok(Attr::NonceS(*v)),
        Attr::ClientErrorCode(n) => Ok(Attr::ClientErrorCode(*n)),
        Attr::KdfInput(v) => Ok(Attr::KdfInput(Octets::copied_from(alloc, v.as_slice())?)),
        Attr::Kdf(n) => Ok(Attr::Kdf(*n)),
        Attr::Iv(v) => Ok(Attr::Iv(*v)),
        Attr::EncrData(v) => Ok(Attr::EncrData(Octets::copied_from(alloc, v.as_slice())?)),
        Attr::NextPseudonym(v) => Ok(Attr::NextPseudonym(Octets::copied_from(
            alloc,
            v.as_slice(),
        )?)),
        Attr::NextReauthId(v) => Ok(Attr::NextReauthId(Octets::copied_from(alloc, v.as_slice())?)),
        Attr::Checkcode(v) => Ok(Attr::Checkcode(Octets::copied_from(alloc, v.as_slice())?)),
        Attr::ResultInd => Ok(Attr::ResultInd),
        Attr::Bidding(d) => Ok(Attr::Bidding(*d)),
        Attr::Skipped(kind, v) => Ok(Attr::Skipped(
            *kind,
            Octets::copied_from(alloc, v.as_slice())?,
        )),
    }
}
