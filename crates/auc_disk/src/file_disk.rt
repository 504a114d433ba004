//! A file of the operating system as a disk.

ghost use Rattle.std.specs.Prelude.{◌≡◌, ◌≤◌, None, IsErr, MatchResult, IfOk, length};
ghost use Rattle.auc_memory.specs.Faults.{raised};

use crate::disk::Disk;
use auc_memory::{Failed, counted};
use auc_streams::above_standard_streams;
use std::fs::{File, OpenOptions};
use std::io::{self, ErrorKind};
use std::marker::Model;
use std::os::unix::fs::{FileExt, OpenOptionsExt};
use std::rt::Files;

// The file, and the folder that it stands in.
const NAME: &str = "auc.journal";

const FOLDER: &str = ".";

// Only the owner may read and write a file that is made: who reads it learns how many vectors each subscriber got.
const MODE: u32 = 0o600;

/// The file `auc.journal` in the current folder. The first call opens it, makes it with mode 0600 if it is
/// missing, locks it, and syncs it and its folder; the lock stands until the disk is dropped. If another
/// process holds the lock, or the file got the place of a standard stream, each call is a fault. Contracts
/// know no content.
#[derive(Drop)]
pub struct FileDisk<R: Files<File = File>> {
    rt: R,
    file: Option<File>,
    last_len: u64,
    faults: u64,
}

impl<R: Files<File = File>> Model for FileDisk<R> {
    ghost use Rattle.auc_disk.specs.FileDisk.{FileState};

    ghost Value = { FileState };

    ghost view = { λ d. record { last_len = d.last_len; faults = d.faults } };
}

impl<R: Files<File = File>> FileDisk<R> {
    /// The file that a runtime opens. Nothing is opened yet, and nothing has failed.
    pub fn new(rt: R) -> FileDisk<R>
        ensures { result ≡ record { last_len = 0; faults = 0 } }
    {
        FileDisk {
            rt,
            file: None,
            last_len: 0,
            faults: 0,
        }
    }

    fn try_len(&mut self) -> io::Result<u64>
        ensures { self.new ≡ self.old }
    {
        let file = opened(&self.rt, &mut self.file)?;
        Ok(file.metadata()?.len())
    }

    // A read that gives nothing below the last length is an error: the file was cut off meanwhile.
    fn try_read(&mut self, at: u64, buf: &mut [u8]) -> io::Result<usize>
        ensures kept { self.new ≡ self.old }
        ensures bound { IfOk result (λ count. count ≤ length buf.new) }
        ensures goes_on { IfOk result (λ count. count ≡ 0 → 1 ≤ length buf.new → self.old.last_len ≤ at) }
    {
        let file = opened(&self.rt, &mut self.file)?;
        let count = file.read_at(buf, at)?;
        if count == 0 && at < self.last_len {
            return Err(ErrorKind::UnexpectedEof.into());
        }
        Ok(count)
    }

    fn try_write(&mut self, at: u64, bytes: &[u8]) -> io::Result<()>
        ensures { self.new ≡ self.old }
    {
        opened(&self.rt, &mut self.file)?.write_all_at(bytes, at)
    }

    fn try_sync(&mut self) -> io::Result<()>
        ensures { self.new ≡ self.old }
    {
        opened(&self.rt, &mut self.file)?.sync_all()
    }
}

// The file, which is opened if it isn't open yet.
fn opened<'a, R: Files<File = File>>(rt: &R, file: &'a mut Option<File>) -> io::Result<&'a File> {
    if file.is_none() {
        *file = Some(open(rt)?);
    }
    match file {
        Some(file) => Ok(file),
        None => Err(ErrorKind::NotFound.into()),
    }
}

// The file, opened, locked and synced. Without the folder's sync a crash may take a new file away.
fn open<R: Files<File = File>>(rt: &R) -> io::Result<File> {
    let mut options = OpenOptions::new();
    options.read(true).write(true).create(true).mode(MODE);
    let file = above_standard_streams(options.open(rt, NAME)?)?;
    file.try_lock()?;
    file.sync_all()?;
    File::open(rt, FOLDER)?.sync_all()?;
    Ok(file)
}

impl<R: Files<File = File>> Disk for FileDisk<R> {
    ghost seen = { λ _. None };

    ghost may_leave = { λ _ _. Unit {0} };

    ghost moment = { λ _. 0 };

    ghost left_since = { λ _ _ _. Unit {0} };

    ghost last_len = { λ d. d.last_len };

    ghost faults = { λ d. d.faults };

    ghost calls = { λ _. 0 };

    ghost counts_now = { λ d t image early here. tt };

    ghost only_now = { λ d image since. tt };

    ghost as_it_reads = { λ d file is. tt };

    fn len(&mut self) -> Result<u64, Failed> {
        let answer = self.try_len();
        let len = counted(&mut self.faults, answer)?;
        self.last_len = len;
        Ok(len)
    }

    fn read_at(&mut self, at: u64, buf: &mut [u8]) -> Result<usize, Failed> {
        let answer = self.try_read(at, buf);
        counted(&mut self.faults, answer)
    }

    fn write_at(&mut self, at: u64, bytes: &[u8]) -> Result<(), Failed> {
        let answer = self.try_write(at, bytes);
        counted(&mut self.faults, answer)
    }

    fn sync(&mut self) -> Result<(), Failed> {
        let answer = self.try_sync();
        counted(&mut self.faults, answer)
    }
}
