//! Standard output.

ghost use Rattle.std.specs.Prelude.{◌≡◌, ◌≤◌, ◌<◌, ◌⊎◌, None, length, IfOk};

use crate::sink::Sink;
use auc_memory::{Failed, counted};
use std::io::{self, ErrorKind, Print, Write};
use std::marker::Model;

// How often a write is tried again if a signal interrupts it.
const TRIES: u32 = 1000;

/// Standard output. A write is one call of the system and may take less than it was given; contracts
/// know nothing of what was written.
#[derive(Drop)]
pub struct StdSink<R: Print> {
    rt: R,
    faults: u64,
}

impl<R: Print> Model for StdSink<R> {
    ghost use Rattle.std.specs.Prelude.{ℕ};

    ghost Value = { ℕ };

    ghost view = { λ s. s.faults };
}

impl<R: Print> StdSink<R> {
    /// The output of a runtime. Nothing has failed yet.
    pub fn new(rt: R) -> StdSink<R>
        ensures { result ≡ 0 }
    {
        StdSink { rt, faults: 0 }
    }
}

impl<R: Print> Sink for StdSink<R> {
    ghost written = { λ _. None };

    ghost faults = { λ count. count };

    fn write(&mut self, bytes: &[u8]) -> Result<usize, Failed> {
        let answer = write_some(&self.rt, bytes);
        counted(&mut self.faults, answer)
    }
}

// It is an error if the system takes nothing of bytes that aren't empty.
fn write_some<R: Print>(rt: &R, bytes: &[u8]) -> io::Result<usize>
    ensures bound { IfOk result (λ count. count ≤ length bytes.now) }
    ensures some { IfOk result (λ count. (0 < count) ⊎ (length bytes.now ≡ 0)) }
{
    for _ in 0..TRIES {
        match io::writer(rt).write(bytes) {
            Ok(0) if !bytes.is_empty() => return Err(ErrorKind::WriteZero.into()),
            Err(error) if error.kind() == ErrorKind::Interrupted => {}
            answer => return answer,
        }
    }
    Err(ErrorKind::Interrupted.into())
}
