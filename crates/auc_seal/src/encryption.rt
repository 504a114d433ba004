//! Encryption of attributes (RFC 4187 §10.12).

ghost use Rattle.std.specs.Prelude.{◌≡◌, ◌%◌, ◌≤◌, ◌↔◌, ◌++◌, IsTrue, List, length, Ok, IfOk, OnOk, OnErr};
ghost use Rattle.auc_aes.specs.Bytes.{IsBlock};
ghost use Rattle.auc_aes.specs.Cbc.{cbc_encrypted};
ghost use Rattle.auc_attr.specs.declared.attr.Attr.{Attr};
ghost use Rattle.auc_attr.specs.Laws.{AreBytes};
ghost use Rattle.auc_attr.specs.Spelling.{spelling};
ghost use Rattle.auc_memory.specs.Reserved.{wrote};
ghost use Rattle.auc_seal.specs.Encrypted.{padding_for, padded, encrypted, MayBeEncrypted, HasNoneEncrypted, Decrypts};

use crate::copying::{copied, has_padding};
use auc_aes::Key;
use auc_attr::{Attr, AttrList, put_attrs};
use auc_memory::{NoMemory, Octets, Places, Room};
use std::alloc::Global;
use std::marker::Model;

/// The greatest size of a spelling that is encrypted, in bytes.
const MOST: usize = 992;

/// Memory for one encryption, taken before it; enough for all attributes that may be encrypted. Contracts see
/// no value of it.
#[derive(Drop)]
pub struct EncryptionRoom {
    plain: Room,
    ciphertext: Room,
}

impl Model for EncryptionRoom {
    ghost use Rattle.auc_seal.specs.Inner.{IsFresh};

    ghost Value = { Unit {0} };

    ghost view = { λ _. tt };

    ghost invariant = { λ r. IsFresh r.plain × IsFresh r.ciphertext };
}

impl EncryptionRoom {
    /// Memory for the attributes and for their ciphertext.
    pub fn new(alloc: Global) -> Result<EncryptionRoom, NoMemory> {
        Ok(EncryptionRoom {
            plain: Room::new(alloc, MOST)?,
            ciphertext: Room::new(alloc, MOST)?,
        })
    }
}

/// Whether attributes may be encrypted: there is at least one, none is padding, and they have a spelling of
/// at most 992 bytes.
pub fn may_be_encrypted(inner: &AttrList) -> bool
    ensures { IsTrue result ↔ MayBeEncrypted inner.now }
{
    inner.len() > 0 && !has_padding(inner) && inner.writable() && inner.is_within(MOST)
}

/// Encrypts attributes under K_encr and pushes AT_IV and AT_ENCR_DATA. If the spelling of `inner` is no
/// multiple of 16 bytes, it is filled up to one by AT_PADDING of 4, 8 or 12 bytes. If memory runs out,
/// `out` stays as it was.
pub fn encrypt_attrs(
    alloc: Global,
    k_encr: [u8; 16],
    iv: [u8; 16],
    inner: &AttrList,
    out: &mut AttrList,
) -> Result<(), NoMemory>
    requires inner { MayBeEncrypted inner.now }
    requires out { HasNoneEncrypted out.old }

    ensures encrypted { OnOk result (out.new ≡ out.old ++ encrypted k_encr iv inner.now) }
    ensures decrypts { OnOk result (Decrypts k_encr out.new (Ok inner.now)) }
    ensures kept { OnErr result (out.new ≡ out.old) }
{
    // A copy is extended, so that `out` gets both attributes or none.
    let mut list = copied(alloc, out)?;
    list.push(Attr::Iv(iv))?;
    let room = EncryptionRoom::new(alloc)?;
    list.push(Attr::EncrData(encrypted_data(k_encr, iv, inner, room)))?;
    *out = list;
    Ok(())
}

/// Encrypts attributes as `encrypt_attrs` does, in memory and places that were taken before.
pub fn put_encrypted(
    k_encr: [u8; 16],
    iv: [u8; 16],
    inner: &AttrList,
    room: EncryptionRoom,
    out: &mut Places<Attr>,
)
    requires inner { MayBeEncrypted inner.now }
    requires places { 2 ≤ out.old.left }
    requires out { HasNoneEncrypted out.old.written }

    ensures encrypted { out.new ≡ wrote out.old (encrypted k_encr iv inner.now) }
    ensures decrypts { Decrypts k_encr out.new.written (Ok inner.now) }
{
    out.put(Attr::Iv(iv));
    out.put(Attr::EncrData(encrypted_data(k_encr, iv, inner, room)));
}

/// The value of AT_ENCR_DATA.
fn encrypted_data(k_encr: [u8; 16], iv: [u8; 16], inner: &AttrList, room: EncryptionRoom) -> Octets
    requires { MayBeEncrypted inner.now }
    ensures value { result ≡ cbc_encrypted k_encr iv (spelling (padded inner.now)) }
    ensures decrypts { (out : List Attr) → HasNoneEncrypted out
        → Decrypts k_encr (out ++ encrypted k_encr iv inner.now) (Ok inner.now) }
{
    let EncryptionRoom {
        mut plain,
        mut ciphertext,
    } = room;
    put_padded(inner, &mut plain);
    put_ciphertext(k_encr, iv, plain.as_slice(), &mut ciphertext);
    ciphertext.into_octets()
}

/// Writes attributes and their padding.
fn put_padded(inner: &AttrList, room: &mut Room)
    requires inner { MayBeEncrypted inner.now }
    requires room { length (spelling (padded inner.now)) ≤ room.old.left }
    ensures { room.new ≡ wrote room.old (spelling (padded inner.now)) }
{
    put_attrs(inner, room);
    room.put(padding_for(inner.size()));
}

/// Writes the ciphertext of whole blocks. The last three clauses say that arguments are bytes, as the law that
/// decryption undoes encryption requires.
fn put_ciphertext(k_encr: [u8; 16], iv: [u8; 16], plain: &[u8], room: &mut Room)
    requires whole { length plain.now % 16 ≡ 0 }
    requires small { length plain.now ≤ 992 }
    requires room { length plain.now ≤ room.old.left }
    ensures written { room.new ≡ wrote room.old (cbc_encrypted k_encr iv plain.now) }
    ensures key { IsBlock k_encr }
    ensures iv { IsBlock iv }
    ensures plain { AreBytes plain.now }
{
    let mut longest = [0; MOST];
    let blocks = &mut longest[..plain.len()];
    blocks.copy_from_slice(plain);
    Key::new(k_encr).cbc_encrypt(iv, blocks);
    room.put(blocks);
}

/// The spelling of the padding after `size` bytes.
fn padding_for(size: usize) -> &'static [u8]
    requires { size % 4 ≡ 0 }
    ensures { result.now ≡ spelling (padding_for size) }
{
    match size / 4 % 4 {
        1 => &[6, 3, 0, 0, 0, 0, 0, 0, 0, 0, 0, 0],
        2 => &[6, 2, 0, 0, 0, 0, 0, 0],
        3 => &[6, 1, 0, 0],
        _ => &[],
    }
}
