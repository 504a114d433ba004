//! Files of the operating system.

ghost use Rattle.std.specs.Prelude.{◌≡◌, ◌≤◌, None, length, IfOk};

use crate::shelf::Shelf;
use auc_memory::{Failed, counted};
use auc_streams::above_standard_streams;
use std::fs::File;
use std::io::{self, ErrorKind};
use std::marker::Model;
use std::os::unix::fs::FileExt;
use std::rt::Files;
use std::str;

// How often a read is tried again if a signal interrupts it.
const TRIES: u32 = 1000;

/// The files of the operating system, by their paths. Each read opens its file anew and may find
/// another file than the previous read, so contracts know no content. A name that isn't UTF-8, a folder,
/// a missing file and a file that got the place of a standard stream are faults. One count serves every name.
#[derive(Drop)]
pub struct FileShelf<R: Files<File = File>> {
    rt: R,
    faults: u64,
}

impl<R: Files<File = File>> Model for FileShelf<R> {
    ghost use Rattle.std.specs.Prelude.{ℕ};

    ghost Value = { ℕ };

    ghost view = { λ s. s.faults };
}

impl<R: Files<File = File>> FileShelf<R> {
    /// The files that a runtime opens. Nothing has failed yet.
    pub fn new(rt: R) -> FileShelf<R>
        ensures { result ≡ 0 }
    {
        FileShelf { rt, faults: 0 }
    }
}

impl<R: Files<File = File>> Shelf for FileShelf<R> {
    ghost files = { λ _. None };

    ghost faults = { λ count _. count };

    fn read(&mut self, name: &[u8], from: u64, buf: &mut [u8]) -> Result<usize, Failed> {
        let answer = read_file(&self.rt, name, from, buf);
        counted(&mut self.faults, answer)
    }
}

fn read_file<R: Files<File = File>>(
    rt: &R,
    name: &[u8],
    from: u64,
    buf: &mut [u8],
) -> io::Result<usize>
    ensures { IfOk result (λ count. count ≤ length buf.new) }
{
    for _ in 0..TRIES {
        match read_once(rt, name, from, buf) {
            Err(error) if error.kind() == ErrorKind::Interrupted => {}
            answer => return answer,
        }
    }
    Err(ErrorKind::Interrupted.into())
}

fn read_once<R: Files<File = File>>(
    rt: &R,
    name: &[u8],
    from: u64,
    buf: &mut [u8],
) -> io::Result<usize>
    ensures { IfOk result (λ count. count ≤ length buf.new) }
{
    let Ok(path) = str::from_utf8(name) else {
        return Err(ErrorKind::InvalidInput.into());
    };
    let file = above_standard_streams(File::open(rt, path)?)?;
    file.read_at(buf, from)
}
