//! A text that is printed.

use std::alloc::{AllocError, Global};

/// A text that is printed. It takes further words after memory ran out, and tells that at the end.
#[derive(Drop)]
pub struct Text {
    alloc: Global,
    text: String,
    is_whole: bool,
}

impl Text {
    /// No text.
    pub fn new(alloc: Global) -> Text {
        Text {
            alloc,
            text: String::new(alloc),
            is_whole: true,
        }
    }

    /// Appends a text.
    pub fn put(&mut self, text: &str) {
        if self.text.push_str(text).is_err() {
            self.fail();
        }
    }

    /// Appends a number.
    pub fn put_number(&mut self, number: u64) {
        match number.to_string(self.alloc) {
            Ok(digits) => self.put(digits.as_str()),
            Err(_) => self.fail(),
        }
    }

    /// Appends bytes as hexadecimal digits.
    pub fn put_hex(&mut self, bytes: &[u8]) {
        match hex::encode(self.alloc, bytes) {
            Ok(digits) => self.put(digits.as_str()),
            Err(_) => self.fail(),
        }
    }

    /// Memory ran out.
    pub fn fail(&mut self) {
        self.is_whole = false;
    }

    /// The text, unless memory ran out.
    pub fn whole(self) -> Result<String, AllocError> {
        let Text { text, is_whole, .. } = self;
        if is_whole { Ok(text) } else { Err(AllocError) }
    }
}
