//! A closed book.

ghost use Rattle.std.specs.Prelude.{◌≡◌, ◌<◌, length, slice_index};

use crate::rule::View;
use atomic_table::Seat;
use std::marker::Model;

/// A book that was closed. Contracts see each subscriber's word, and the list of each pass.
#[derive(Drop)]
pub struct Closed {
    pub(crate) words: Vec<u64>,
    pub(crate) seat: Seat<(), View>,
}

impl Model for Closed {
    ghost use Rattle.auc_draw.specs.Values.{ClosedValue};

    ghost Value = { ClosedValue };

    ghost view = { λ c. record { words = c.words.items; lists = c.seat.me.0.shown } };
}

impl Closed {
    /// The subscriber's word: the last number that was drawn or passed over, or higher if draws were refused.
    pub fn word(&self, sub: u32) -> u64
        requires { sub < length self.now.words }
        ensures { result ≡ slice_index self.now.words sub }
    {
        self.words[sub as usize]
    }
}
