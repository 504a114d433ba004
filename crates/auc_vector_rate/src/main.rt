//! Makes the authentication vectors of one subscriber with the numbers 1, 2, 3 and so on, as many as the
//! argument says, and prints the exclusive or of their XRES and that of their AUTN. Each vector is made alone, or many
//! at a call if a second argument is `bulk`. Measurements of speed run it; only a digest of all vectors is printed.
#![tactic(auto)]

mod folding;

use folding::Folded;
use std::env::Env;
use std::{io, str};

fn main(rt: HostRuntime) -> io::Result<()> {
    let mut digits = [0u8; 20];
    let count = match rt.arg(1, &mut digits) {
        Ok(length) => read_count(&digits[..length]),
        Err(_) => 0,
    };
    let mut word = [0u8; 4];
    let bulk = match rt.arg(2, &mut word) {
        Ok(length) => word[..length] == b"bulk"[..],
        Err(_) => false,
    };
    let folded = if bulk {
        Folded::of_many(count)
    } else {
        Folded::of_first(count)
    };
    println!(rt; "vectors {count}")?;
    println!(rt; "xres {:016x}", folded.xres)?;
    println!(rt; "autn {:032x}", folded.autn)
}

/// The number that decimal digits spell, or 0 if the text is no number.
fn read_count(digits: &[u8]) -> u64 {
    match str::from_utf8(digits) {
        Ok(text) => text.parse::<u64>().unwrap_or(0),
        Err(_) => 0,
    }
}
