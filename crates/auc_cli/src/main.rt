//! The program: `auc_run::run` over the real files, the file `auc.journal` in the current folder, and standard output; or
//! `auc_run::serve` over these files, standard input and standard output, if the first word is `serve`.
//!
//! It ends with the number of the run's status, or with 10 if memory runs out while its words are read. A
//! word that isn't UTF-8 is passed on as an empty word. If standard output is closed, it ends with 5 before it opens any
//! file.
#![tactic(auto)]

mod words;

use auc_block::StdWire;
use auc_disk::FileDisk;
use auc_edge::{FileShelf, OpenGate, StdSink};
use auc_memory::{NoMemory, Octets};
use auc_run::{Status, run, serve};
use auc_streams::fill_standard_streams;
use std::process::ExitCode;
use words::read_words;

fn main(rt: HostRuntime) -> ExitCode {
    // Before all files: one that got the place of standard output would be written by what is printed.
    if !fill_standard_streams(&rt) {
        return ExitCode::from(Status::WriteFault.number());
    }
    let status = match read_words(&rt, rt.alloc()) {
        Ok(words) => {
            let words = words.as_slice();
            let mut shelf = FileShelf::new(&rt);
            let disk = FileDisk::new(&rt);
            let gate = OpenGate::new();
            if is_service(words) {
                let mut wire = StdWire::new(&rt);
                serve(&rt, rt.alloc(), words, &mut shelf, &mut wire, disk, &gate).status
            } else {
                let mut out = StdSink::new(&rt);
                run(&rt, rt.alloc(), words, &mut shelf, &mut out, disk, &gate).status
            }
        }
        Err(NoMemory) => Status::NoMemory,
    };
    ExitCode::from(status.number())
}

/// Whether the first word is `serve`.
fn is_service(words: &[Octets]) -> bool {
    match words {
        [word, ..] => word.as_slice() == b"serve".as_slice(),
        [] => false,
    }
}
