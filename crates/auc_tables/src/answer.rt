//! What is printed of a line.

use crate::bytes::bytes_of;
use crate::{attrs, seals, texts};
use auc_hmac::Method;
use std::alloc::{AllocError, Global};

/// What is printed of a line.
pub fn answer_of(alloc: Global, line: &str) -> Result<String, AllocError> {
    let Some((word, rest)) = line.split_once(' ') else {
        return not_understood(alloc);
    };
    match word {
        "#" => String::from_str(alloc, line),
        "mac" | "check" | "checkcode" => answer_of_method(alloc, word, rest),
        _ => match bytes_of(alloc, rest)? {
            Some(bytes) => answer_of_bytes(alloc, word, bytes.as_slice()),
            None => not_understood(alloc),
        },
    }
}

fn not_understood(alloc: Global) -> Result<String, AllocError> {
    String::from_str(alloc, "not understood")
}

fn answer_of_bytes(alloc: Global, word: &str, bytes: &[u8]) -> Result<String, AllocError> {
    match word {
        "attrs" => attrs::written(alloc, bytes),
        "encrypt" => seals::encrypted(alloc, bytes),
        "decrypt" => seals::decrypted(alloc, true, bytes),
        "bare" => seals::decrypted(alloc, false, bytes),
        "script" => texts::script(alloc, bytes),
        "file" => texts::file(alloc, bytes),
        "record" => texts::record(alloc, bytes),
        _ => not_understood(alloc),
    }
}

/// The answer to a word and a method with two strings of bytes.
fn answer_of_method(alloc: Global, word: &str, rest: &str) -> Result<String, AllocError> {
    let Some((method, rest)) = rest.split_once(' ') else {
        return not_understood(alloc);
    };
    let method = match method {
        "prime" => Method::Prime,
        _ => Method::Aka,
    };
    let Some((first, second)) = rest.split_once(' ') else {
        return not_understood(alloc);
    };
    match (bytes_of(alloc, first)?, bytes_of(alloc, second)?) {
        (Some(first), Some(second)) => {
            let (first, second) = (first.as_slice(), second.as_slice());
            match word {
                "mac" => seals::sealed(alloc, method, first, second),
                "check" => seals::checked(alloc, method, first, second),
                _ => seals::checkcode(alloc, method, first, second),
            }
        }
        _ => not_understood(alloc),
    }
}
