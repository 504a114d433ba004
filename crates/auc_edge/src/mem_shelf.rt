//! Files in memory.

ghost use Rattle.std.specs.Prelude.{◌≡◌, ◌≤◌, ◌^◌, ◌++◌, [], ◌∷◌, ℕ, List, length, Some, None, IfOk, OnOk, OnErr};
ghost use Rattle.std.specs.Option.{option_copied};
ghost use Rattle.std.specs.List.{position};
ghost use Rattle.std.specs.Str.{bytes_eq};
ghost use Rattle.std.specs.Result.{is_err};
ghost use Rattle.auc_memory.specs.Faults.{Rose};
ghost use Rattle.auc_edge.specs.Shelf.{file_of, ReadsFrom};
ghost use Rattle.auc_memory.specs.Buffer.{GivesFrom};
ghost use Rattle.auc_edge.specs.MemShelf.{place_of, faults_of, is_failing, after_fault, after_read, is_fault};

use crate::shelf::Shelf;
use auc_memory::{Failed, NoMemory, Octets};
use std::alloc::Global;
use std::marker::Model;

// A file: its name and its bytes.
#[derive(Drop)]
struct MemFile {
    name: Octets,
    bytes: Octets,
}

impl Model for MemFile {
    ghost use Rattle.auc_edge.specs.Shelf.{File};

    ghost Value = { File };

    ghost view = { λ f. record { name = f.name; bytes = f.bytes } };
}

/// A set of files in memory. A read fails if it was told to, or if no file has the name. Each file has
/// a count of faults, and all other names share one.
#[derive(Drop)]
pub struct MemShelf {
    files: Vec<MemFile>,
    counts: Vec<u64>,
    others: u64,
    reads: u64,
    failing: Vec<u64>,
}

impl Model for MemShelf {
    ghost use Rattle.auc_edge.specs.MemShelf.{ShelfState};

    ghost Value = { ShelfState };

    ghost view = { λ s. record { files = s.files.items; counts = s.counts.items; others = s.others; reads = s.reads; failing = s.failing.items } };
}

impl MemShelf {
    /// No files.
    pub fn new(alloc: Global) -> MemShelf
        ensures { result ≡ record { files = []; counts = []; others = 0; reads = 0; failing = [] } }
    {
        MemShelf {
            files: Vec::new(alloc),
            counts: Vec::new(alloc),
            others: 0,
            reads: 0,
            failing: Vec::new(alloc),
        }
    }

    /// Adds a file, whose count of faults starts at that of all other names. If memory runs out, nothing
    /// is added.
    pub fn add(&mut self, name: &[u8], bytes: &[u8]) -> Result<(), NoMemory>
        requires { file_of self.old.files name.now ≡ None }
        ensures put { OnOk result (self.new ≡ record self.old {
          files = self.old.files ++ record { name = name.now; bytes = bytes.now } ∷ [];
          counts = self.old.counts ++ self.old.others ∷ [];
        }) }
        ensures kept { OnErr result (self.new ≡ self.old) }
    {
        let alloc = *self.files.allocator();
        self.counts.reserve(1)?;
        self.files.push(file_of(alloc, name, bytes)?)?;
        self.counts.push(self.others)?;
        Ok(())
    }

    /// Makes a read fail, by its place among all reads, the first being 1. If memory runs out, nothing
    /// changes.
    pub fn fail(&mut self, ordinal: u64) -> Result<(), NoMemory>
        ensures told { OnOk result (self.new ≡ record self.old { failing = self.old.failing ++ ordinal ∷ [] }) }
        ensures kept { OnErr result (self.new ≡ self.old) }
    {
        self.failing.push(ordinal)?;
        Ok(())
    }

    // Whether the next read is to fail.
    fn is_failing(&self) -> bool
        ensures { result ≡ is_failing self.now }
    {
        self.failing.contains(&self.reads.saturating_add(1))
    }

    // Counts a fault of a name.
    fn count_fault(&mut self, name: &[u8])
        ensures { self.new ≡ after_fault self.old (place_of self.old.files name.now) }
    {
        let place = place_of(&self.files, name);
        if place < self.counts.len() {
            self.counts[place] = self.counts[place].saturating_add(1);
        } else {
            self.others = self.others.saturating_add(1);
        }
    }
}

impl Shelf for MemShelf {
    ghost files = { λ s. Some s.files };

    ghost faults = { λ s name. faults_of s name };

    fn read(&mut self, name: &[u8], from: u64, buf: &mut [u8]) -> Result<usize, Failed>
        requires { from ≤ 2 ^ 30 }

        ensures bound { IfOk result (λ count. count ≤ length buf.new) }
        ensures read { IfOk result (λ count. ReadsFrom (Some self.old.files) name.now from count buf.new) }
        ensures same { Some self.new.files ≡ Some self.old.files }
        ensures later { (other : List ℕ) → faults_of self.old other ≤ faults_of self.new other }
        ensures failed { OnErr result (Rose (faults_of self.old name.now) (faults_of self.new name.now)) }
        ensures quiet { OnOk result ((other : List ℕ) → faults_of self.new other ≡ faults_of self.old other) }

        // Exactly when it fails, and what it leaves.
        ensures outcome { is_err result ≡ is_fault self.old name.now }
        ensures state { self.new ≡ after_read self.old (is_err result) name.now }
    {
        let fails = self.is_failing();
        self.reads = self.reads.saturating_add(1);
        match bytes_of(&self.files, name) {
            Some(bytes) if !fails => Ok(copy_from(bytes, from as usize, buf)),
            _ => {
                self.count_fault(name);
                Err(Failed)
            }
        }
    }
}

// A file of a name and bytes.
fn file_of(alloc: Global, name: &[u8], bytes: &[u8]) -> Result<MemFile, NoMemory>
    ensures { IfOk result (λ file. file ≡ record { name = name.now; bytes = bytes.now }) }
{
    let name = Octets::copied_from(alloc, name)?;
    match Octets::copied_from(alloc, bytes) {
        Ok(bytes) => Ok(MemFile { name, bytes }),
        Err(refusal) => {
            give_back(name);
            Err(refusal)
        }
    }
}

// Gives a name back.
fn give_back(_name: Octets) {}

fn is_named(file: &MemFile, name: &[u8]) -> bool
    ensures { result ≡ bytes_eq file.now.name name.now }
{
    file.name.as_slice() == name
}

// The place of the file with a name, or the number of files if there is none.
fn place_of(files: &[MemFile], name: &[u8]) -> usize
    ensures { result ≡ place_of files.now name.now }
{
    position_of(files, name).unwrap_or(files.len())
}

// The place of the file with a name.
fn position_of(files: &[MemFile], name: &[u8]) -> Option<usize>
    ensures { result ≡ position (λ file. bytes_eq file.name name.now) files.now }
{
    files.iter().position(|file| is_named(file, name))
}

// The bytes of the file with a name.
fn bytes_of<'a>(files: &'a [MemFile], name: &[u8]) -> Option<&'a [u8]>
    ensures { option_copied result ≡ file_of files.now name.now }
{
    for file in files {
        if is_named(file, name) {
            return Some(file.bytes.as_slice());
        }
    }
    None
}

// Copies bytes from a place on into the front of a buffer, and answers how many.
fn copy_from(bytes: &[u8], from: usize, buf: &mut [u8]) -> usize
    ensures { GivesFrom bytes.now from result buf.new }
{
    let rest = &bytes[from.min(bytes.len())..];
    let count = rest.len().min(buf.len());
    buf[..count].copy_from_slice(&rest[..count]);
    count
}
