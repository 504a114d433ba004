//! MACs, checkcodes and encrypted attributes.

use auc_attr::{Attr, AttrList, mac_place, read_attrs, write_attrs};
use auc_hmac::Method;
use auc_memory::{Octets, Places, Room};
use auc_seal::{
    CheckValue, Checkcode, EncryptionRoom, SealRefusal, check_mac, ciphertext_size, decrypt_attrs,
    encrypt_attrs, may_be_encrypted, open_attrs, put_encrypted, seal_mac,
};
use std::alloc::{AllocError, Global};

/// 0x20, 0x21, .. 0x3f.
fn k_aut() -> [u8; 32] {
    let mut key = [0; 32];
    for i in 0..32 {
        key[i] = 0x20 + i as u8;
    }
    key
}

/// 0x40, 0x41, .. 0x4f.
const K_ENCR: [u8; 16] = [
    0x40, 0x41, 0x42, 0x43, 0x44, 0x45, 0x46, 0x47, 0x48, 0x49, 0x4a, 0x4b, 0x4c, 0x4d, 0x4e, 0x4f,
];

/// 0x80, 0x81, .. 0x8f.
const IV: [u8; 16] = [
    0x80, 0x81, 0x82, 0x83, 0x84, 0x85, 0x86, 0x87, 0x88, 0x89, 0x8a, 0x8b, 0x8c, 0x8d, 0x8e, 0x8f,
];

/// A packet's AT_MAC after it was set, and what a check of the packet says; and what a check says with each byte of
/// AT_MAC turned in its lowest bit, if that isn't that it is wrong.
pub fn sealed(
    alloc: Global,
    method: Method,
    packet: &[u8],
    extra: &[u8],
) -> Result<String, AllocError> {
    let mut packet = packet.to_vec(alloc)?;
    let packet = packet.as_mut_slice();
    let Some(place) = mac_place(packet) else {
        return String::from_str(alloc, "no AT_MAC");
    };
    seal_mac(method, &k_aut(), packet, extra);
    let mac = hex::encode(alloc, &packet[place..place + 16])?;
    let check = check_mac(method, &k_aut(), packet, extra);
    let mut text = format!(in alloc; "{mac} {check:?}")?;
    for at in place..place + 16 {
        packet[at] ^= 1;
        let check = check_mac(method, &k_aut(), packet, extra);
        packet[at] ^= 1;
        let turned = format!(in alloc; " {check:?}")?;
        text.push_str(turned.as_str())?;
    }
    Ok(text)
}

/// What a check of AT_MAC says.
pub fn checked(
    alloc: Global,
    method: Method,
    packet: &[u8],
    extra: &[u8],
) -> Result<String, AllocError> {
    let check = check_mac(method, &k_aut(), packet, extra);
    format!(in alloc; "{check:?}")
}

/// The checkcode before any packet and after two.
pub fn checkcode(
    alloc: Global,
    method: Method,
    first: &[u8],
    second: &[u8],
) -> Result<String, AllocError> {
    let mut code = Checkcode::new(method);
    let before = text_of_checkcode(alloc, code.value())?;
    if code.update(first).is_err() || code.update(second).is_err() {
        return Err(AllocError);
    }
    let after = text_of_checkcode(alloc, code.value())?;
    format!(in alloc; "{before} {after}")
}

fn text_of_checkcode(alloc: Global, value: CheckValue) -> Result<String, AllocError> {
    match value {
        CheckValue::Empty => String::from_str(alloc, "empty"),
        CheckValue::Sha1(hash) => hex::encode(alloc, hash),
        CheckValue::Sha256(hash) => hex::encode(alloc, hash),
    }
}

/// AT_IV and AT_ENCR_DATA of attributes, made in both ways.
pub fn encrypted(alloc: Global, plain: &[u8]) -> Result<String, AllocError> {
    let Ok(inner) = read_attrs(alloc, plain) else {
        return String::from_str(alloc, "no attributes");
    };
    if !may_be_encrypted(&inner) {
        return String::from_str(alloc, "may not be encrypted");
    }
    let mut pushed = AttrList::new(alloc);
    if encrypt_attrs(alloc, K_ENCR, IV, &inner, &mut pushed).is_err() {
        return Err(AllocError);
    }
    let (Ok(room), Ok(mut places)) = (EncryptionRoom::new(alloc), Places::new(alloc, 2)) else {
        return Err(AllocError);
    };
    put_encrypted(K_ENCR, IV, &inner, room, &mut places);
    let pushed = text_of_encrypted(alloc, &pushed)?;
    let put = text_of_encrypted(alloc, &AttrList::from_places(places))?;
    format!(in alloc; "{pushed}\n{put}")
}

/// AT_IV and AT_ENCR_DATA, if a list has just them.
fn text_of_encrypted(alloc: Global, list: &AttrList) -> Result<String, AllocError> {
    match list.as_slice() {
        [Attr::Iv(iv), Attr::EncrData(data)] => {
            let (iv, data) = (
                hex::encode(alloc, iv)?,
                hex::encode(alloc, data.as_slice())?,
            );
            format!(in alloc; "{iv} {data}")
        }
        _ => String::from_str(alloc, "another list"),
    }
}

/// The attributes that AT_ENCR_DATA has, as bytes, and all bytes to which it opens; or the cause of each refusal.
pub fn decrypted(alloc: Global, has_iv: bool, data: &[u8]) -> Result<String, AllocError> {
    let mut list = AttrList::new(alloc);
    if has_iv {
        push(&mut list, Attr::Iv(IV))?;
    }
    match Octets::copied_from(alloc, data) {
        Ok(data) => push(&mut list, Attr::EncrData(data))?,
        Err(_) => return Err(AllocError),
    }
    let opened = opened(alloc, list.as_slice())?;
    let decrypted = match decrypt_attrs(alloc, K_ENCR, &list) {
        Ok(inner) => text_of_attrs(alloc, &inner)?,
        Err(SealRefusal::NoMemory) => return Err(AllocError),
        Err(why) => format!(in alloc; "{why:?}")?,
    };
    format!(in alloc; "{decrypted}\n{opened}")
}

/// The bytes to which AT_ENCR_DATA opens, or the cause of the refusal.
fn opened(alloc: Global, list: &[Attr]) -> Result<String, AllocError> {
    let Ok(room) = Room::new(alloc, ciphertext_size(list)) else {
        return Err(AllocError);
    };
    match open_attrs(K_ENCR, list, room) {
        Ok(bytes) => hex::encode(alloc, bytes.as_slice()),
        Err(why) => format!(in alloc; "{why:?}"),
    }
}

fn push(list: &mut AttrList, attr: Attr) -> Result<(), AllocError> {
    match list.push(attr) {
        Ok(()) => Ok(()),
        Err(_) => Err(AllocError),
    }
}

fn text_of_attrs(alloc: Global, attrs: &AttrList) -> Result<String, AllocError> {
    let mut text = Octets::new(alloc);
    if attrs.writable() {
        if write_attrs(attrs, &mut text).is_err() {
            return Err(AllocError);
        }
    }
    hex::encode(alloc, text.as_slice())
}
