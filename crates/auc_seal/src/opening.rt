//! Opening of encrypted attributes (RFC 4187 §10.12): decryption into memory that was taken before.

ghost use Rattle.std.specs.Prelude.{◌≡◌, ◌%◌, ◌≤◌, [], length};
ghost use Rattle.auc_aes.specs.Cbc.{cbc_decrypted};
ghost use Rattle.auc_memory.specs.Reserved.{wrote};
ghost use Rattle.auc_seal.specs.Encrypted.{ciphertext_of, Opens};

use crate::decryption::{first_data, first_iv, is_ciphertext};
use crate::refusal::SealRefusal;
use auc_aes::{Key, block_at, xor};
use auc_attr::{Attr, first_fault};
use auc_memory::{Octets, Room};

/// How many bytes the value of a list's AT_ENCR_DATA has; 0 if the list has none.
pub fn ciphertext_size(list: &[Attr]) -> usize
    ensures { result ≡ length (ciphertext_of list.now) }
{
    match first_data(list) {
        None => 0,
        Some(ciphertext) => ciphertext.len(),
    }
}

/// Decrypts the AT_ENCR_DATA of a list under K_encr, and gives the decrypted bytes if they are attributes; no bytes if
/// the list has no AT_ENCR_DATA. `decrypt_attrs` refuses the same lists for the same reasons. It takes no memory, so
/// it never refuses with `NoMemory`.
pub fn open_attrs(k_encr: [u8; 16], list: &[Attr], room: Room) -> Result<Octets, SealRefusal>
    requires empty { room.written ≡ [] }
    requires room { length (ciphertext_of list.now) ≤ room.left }
    ensures { Opens k_encr list.now result }
{
    let Some(ciphertext) = first_data(list) else {
        return Ok(room.into_octets());
    };
    let Some(iv) = first_iv(list) else {
        return Err(SealRefusal::NoIv);
    };
    if !is_ciphertext(ciphertext.as_slice()) {
        return Err(SealRefusal::BadSize);
    }
    let bytes = opened(k_encr, iv, ciphertext.as_slice(), room);
    match first_fault(bytes.as_slice()) {
        None => Ok(bytes),
        Some(fault) => Err(SealRefusal::Attr(fault)),
    }
}

/// The decrypted bytes of whole blocks.
fn opened(k_encr: [u8; 16], iv: [u8; 16], ciphertext: &[u8], room: Room) -> Octets
    requires whole { length ciphertext.now % 16 ≡ 0 }
    requires empty { room.written ≡ [] }
    requires room { length ciphertext.now ≤ room.left }
    ensures { result ≡ cbc_decrypted k_encr iv ciphertext.now }
{
    let mut room = room;
    put_plain(&Key::new(k_encr), iv, ciphertext, &mut room);
    room.into_octets()
}

/// Writes the decrypted bytes of whole blocks.
fn put_plain(key: &Key, iv: [u8; 16], ciphertext: &[u8], room: &mut Room)
    requires whole { length ciphertext.now % 16 ≡ 0 }
    requires room { length ciphertext.now ≤ room.old.left }
    ensures { room.new ≡ wrote room.old (cbc_decrypted key.now iv ciphertext.now) }
{
    let mut last = iv;
    let mut at = 0;
    while at < ciphertext.len() {
        let block = block_at(ciphertext, at);
        room.put(&xor(key.decrypt(block), last));
        last = block;
        at += 16;
    }
}
