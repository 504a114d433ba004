//! The words with which the program was called.

use auc_memory::{Items, NoMemory, Octets};
use std::alloc::Global;
use std::env::{Env, FillError};
use std::str;

/// The words after the program's own name.
pub fn read_words<E: Env>(rt: &E, alloc: Global) -> Result<Items<Octets>, NoMemory> {
    let mut words = Items::new(alloc);
    for place in 1..usize::MAX {
        match read_word(rt, alloc, place)? {
            Some(word) => words.push(word)?,
            None => return Ok(words),
        }
    }
    Ok(words)
}

/// The word at a place, if there is one. It is read into more and more memory until it fits.
fn read_word<E: Env>(rt: &E, alloc: Global, place: usize) -> Result<Option<Octets>, NoMemory> {
    for bits in 8u32..31 {
        let mut buffer = vec![in alloc; 0u8; 1usize << bits]?;
        match rt.arg(place, buffer.as_mut_slice()) {
            Ok(count) => return Ok(Some(text_of(alloc, &buffer[..count])?)),
            Err(FillError::NotPresent) => return Ok(None),
            Err(FillError::TooLong) => {}
        }
    }
    Ok(Some(Octets::new(alloc)))
}

/// A word's bytes if they are UTF-8, else the empty word.
fn text_of(alloc: Global, bytes: &[u8]) -> Result<Octets, NoMemory> {
    let mut word = Octets::new(alloc);
    if str::from_utf8(bytes).is_ok() {
        word.append(bytes)?;
    }
    Ok(word)
}
