//! Bytes in a line.
//!
//! They are pieces with `|` between them. A piece is hexadecimal digits, `'` and a text, or `$` and the name of bytes that
//! many lines have; in a text `\n`, `\r` and `\t` are LF, CR and HT. `-` is no byte, `%` and a number are that many
//! records of a file of subscribers, with the identities of 15 digits from 0 on, and `&` and a number are that many lines
//! of a scenario that open sessions of the identity I, with the numbers from 1 on. A number and `*` before a piece repeat it.

use std::alloc::{AllocError, Global};

/// The rest of a record of a file of subscribers after its IMSI: K and OPc of TS 35.208 §4.3, test set 1.
const REST: &[u8] =
    b",465b5ce8b199b49faa5f0a2ee238a6bc,opc,cd63cb71954a9f4e48a5994e37a02baf,8000,0,0";

/// The bytes, or `None` if a piece isn't understood.
pub fn bytes_of(alloc: Global, text: &str) -> Result<Option<Vec<u8>>, AllocError> {
    let mut all = Vec::new(alloc);
    for piece in text.split('|') {
        if !push_piece(alloc, &mut all, piece)? {
            return Ok(None);
        }
    }
    Ok(Some(all))
}

/// Appends a piece as often as it says.
fn push_piece(alloc: Global, all: &mut Vec<u8>, piece: &str) -> Result<bool, AllocError> {
    let (count, once) = match piece.split_once('*') {
        Some((count, once)) => (count.parse::<u32>().unwrap_or(1), once),
        None => (1, piece),
    };
    let Some(bytes) = once_of(alloc, once)? else {
        return Ok(false);
    };
    for _ in 0..count {
        all.extend_from_slice(bytes.as_slice())?;
    }
    Ok(true)
}

/// The bytes of a piece without its number.
fn once_of(alloc: Global, piece: &str) -> Result<Option<Vec<u8>>, AllocError> {
    if let Some(text) = piece.strip_prefix('\'') {
        return Ok(Some(unescaped(alloc, text.as_bytes())?));
    }
    if let Some(count) = piece.strip_prefix('%') {
        return match count.parse::<u32>() {
            Ok(count) => Ok(Some(records(alloc, count)?)),
            Err(_) => Ok(None),
        };
    }
    if let Some(count) = piece.strip_prefix('&') {
        return match count.parse::<u32>() {
            Ok(count) => Ok(Some(sessions(alloc, count)?)),
            Err(_) => Ok(None),
        };
    }
    if piece == "-" {
        return Ok(Some(Vec::new(alloc)));
    }
    if let Some(name) = piece.strip_prefix('$') {
        return match named(name) {
            Some(bytes) => Ok(Some(bytes.to_vec(alloc)?)),
            None => Ok(None),
        };
    }
    match hex::decode(alloc, piece) {
        Ok(bytes) => Ok(Some(bytes)),
        Err(hex::FromHexError::OutOfMemory) => Err(AllocError),
        Err(_) => Ok(None),
    }
}

/// So many records of a file of subscribers.
fn records(alloc: Global, count: u32) -> Result<Vec<u8>, AllocError> {
    let mut all = Vec::new(alloc);
    for number in 0..count {
        let imsi = format!(in alloc; "{number:015}")?;
        all.extend_from_slice(imsi.as_bytes())?;
        all.extend_from_slice(REST)?;
        all.push(b'\n')?;
    }
    Ok(all)
}

/// So many lines that open sessions of the identity I.
fn sessions(alloc: Global, count: u32) -> Result<Vec<u8>, AllocError> {
    let mut all = Vec::new(alloc);
    for before in 0..count {
        let number = before + 1;
        let line = format!(in alloc; "session {number} 001010000000001 aka - - - held\n")?;
        all.extend_from_slice(line.as_bytes())?;
    }
    Ok(all)
}

fn unescaped(alloc: Global, text: &[u8]) -> Result<Vec<u8>, AllocError> {
    let mut all = Vec::new(alloc);
    let mut is_escape = false;
    for byte in text {
        match (is_escape, *byte) {
            (false, b'\\') => is_escape = true,
            (true, byte) => {
                all.push(escaped(byte))?;
                is_escape = false;
            }
            (false, byte) => all.push(byte)?,
        }
    }
    Ok(all)
}

fn escaped(byte: u8) -> u8 {
    match byte {
        b'n' => b'\n',
        b'r' => b'\r',
        b't' => b'\t',
        byte => byte,
    }
}

/// Bytes that many lines have: the identities I and J, the header of a file of subscribers, K, OP and OPc of TS 35.208
/// §4.3, test set 1, the rest of a record after its IMSI, two subscribers, a round and a job, and the end of a line that
/// opens a session.
fn named(name: &str) -> Option<&'static [u8]> {
    match name {
        "I" => Some(b"001010000000001".as_slice()),
        "J" => Some(b"001010000000002".as_slice()),
        "header" => Some(b"imsi,k,kind,op,amf,seq,usim".as_slice()),
        "K" => Some(b"465b5ce8b199b49faa5f0a2ee238a6bc".as_slice()),
        "OP" => Some(b"cdc202d5123e20f62b6d676ac72cb318".as_slice()),
        "OPc" => Some(b"CD63CB71954A9F4E48A5994E37A02BAF".as_slice()),
        "rest" => Some(REST),
        "aka" => Some(b" aka - - - held\n".as_slice()),
        "two" => Some(
            b"subscriber 001010000000001 465b5ce8b199b49faa5f0a2ee238a6bc op cdc202d5123e20f62b6d676ac72cb318 b9b9 0 0\nsubscriber\t001010000000002  465B5CE8B199B49FAA5F0A2EE238A6BC opc CD63CB71954A9F4E48A5994E37A02BAF B9B9 0000000000007 8796093022207 \r\nround\njob\n".as_slice(),
        ),
        _ => None,
    }
}
