//! Standard input and standard output as one wire.

ghost use Rattle.std.specs.Prelude.{◌≡◌, ◌≤◌, ◌<◌, ◌⊎◌, None, false, length, IfOk, IsErr, MatchResult};
ghost use Rattle.auc_memory.specs.Faults.{raised};

use crate::wire::Wire;
use auc_memory::Failed;
use std::io::{self, ErrorKind, Input, Print, Read, Write};
use std::marker::Model;

// How often a call is tried again if a signal interrupts it.
const TRIES: u32 = 1000;

/// Standard input and standard output. A call is one call of the system: it hears what a pipe has and may
/// take less than it was given. Contracts know no byte.
#[derive(Drop)]
pub struct StdWire<R: Input + Print> {
    rt: R,
    ended: bool,
    faults: u64,
}

impl<R: Input + Print> Model for StdWire<R> {
    ghost use Rattle.auc_block.specs.StdWire.{StdState};

    ghost Value = { StdState };

    ghost view = { λ w. record { ended = w.ended; faults = w.faults } };
}

impl<R: Input + Print> StdWire<R> {
    /// The standard streams of a runtime. The input hasn't ended, and nothing has failed.
    pub fn new(rt: R) -> StdWire<R>
        ensures { result ≡ record { ended = false; faults = 0 } }
    {
        StdWire {
            rt,
            ended: false,
            faults: 0,
        }
    }
}

impl<R: Input + Print> Wire for StdWire<R> {
    ghost turns = { λ _. None };

    ghost ended = { λ w. w.ended };

    ghost faults = { λ w. w.faults };

    fn hear(&mut self, buf: &mut [u8]) -> Result<usize, Failed> {
        if self.ended {
            return Ok(0);
        }
        let answer = read_some(&self.rt, buf);
        let count = counted(&mut self.faults, answer)?;
        self.ended = count == 0;
        Ok(count)
    }

    fn say(&mut self, bytes: &[u8]) -> Result<usize, Failed> {
        let answer = write_some(&self.rt, bytes);
        counted(&mut self.faults, answer)
    }
}

fn read_some<R: Input>(rt: &R, buf: &mut [u8]) -> io::Result<usize>
    ensures { IfOk result (λ count. count ≤ length buf.new) }
{
    for _ in 0..TRIES {
        match rt.reader().read(buf) {
            Err(error) if error.kind() == ErrorKind::Interrupted => {}
            answer => return answer,
        }
    }
    Err(ErrorKind::Interrupted.into())
}

// It is an error if the system takes nothing of bytes that aren't empty.
fn write_some<R: Print>(rt: &R, bytes: &[u8]) -> io::Result<usize>
    ensures bound { IfOk result (λ count. count ≤ length bytes.now) }
    ensures some { IfOk result (λ count. (0 < count) ⊎ (length bytes.now ≡ 0)) }
{
    for _ in 0..TRIES {
        match io::writer(rt).write(bytes) {
            Ok(0) if !bytes.is_empty() => return Err(ErrorKind::WriteZero.into()),
            Err(error) if error.kind() == ErrorKind::Interrupted => {}
            answer => return answer,
        }
    }
    Err(ErrorKind::Interrupted.into())
}

// The answer of a real call. If the call failed, a fault is counted.
fn counted(faults: &mut u64, answer: io::Result<usize>) -> Result<usize, Failed>
    ensures { MatchResult answer
        (λ count. (result ≡ Ok count) × (faults.new ≡ faults.old))
        (λ _. IsErr result × (faults.new ≡ raised faults.old)) }
{
    match answer {
        Ok(count) => Ok(count),
        Err(_) => {
            *faults = faults.saturating_add(1);
            Err(Failed)
        }
    }
}
