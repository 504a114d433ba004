//! The places of the standard streams, which no file may get.

ghost use Rattle.std.specs.Prelude.{◌≡◌, ◌≤ℤ◌, pos, MatchResult};
ghost use Rattle.std.specs.Fd.{file_raw_fd};

use std::fs::File;
use std::io::{self, ErrorKind};
use std::os::fd::{AsRawFd, IntoRawFd};
use std::rt::Files;

// The descriptors of standard input, standard output and standard error are 0, 1 and 2.
const OUTPUT: i32 = 1;

const LAST: i32 = 2;

// What stands in the place of a closed stream.
const NOTHING: &str = "/dev/null";

/// Fills the place of each standard stream that is closed, and answers whether standard output is open.
///
/// The system gives a file the least descriptor that is free. If a standard stream is closed, the next file gets its place,
/// and what is written to the stream goes into that file. The places are filled with `/dev/null`, opened for reading alone,
/// until the process ends; a write to such a place fails. If `/dev/null` can't be opened, no more places are filled.
pub fn fill_standard_streams<R: Files<File = File>>(rt: &R) -> bool {
    let mut is_output_open = true;
    for _ in 0..=LAST {
        let Ok(file) = File::open(rt, NOTHING) else {
            return is_output_open;
        };
        if file.as_raw_fd() > LAST {
            return is_output_open;
        }
        // A descriptor that is taken out of its file stays open.
        if file.into_raw_fd() == OUTPUT {
            is_output_open = false;
        }
    }
    is_output_open
}

/// A file that was opened, unless it got the place of a standard stream. That is an error.
pub fn above_standard_streams(file: File) -> io::Result<File>
    ensures { MatchResult result
        (λ above. (above ≡ file) × (pos 3 ≤ℤ file_raw_fd file))
        (λ _. file_raw_fd file ≤ℤ pos 2) }
{
    if file.as_raw_fd() <= LAST {
        return Err(ErrorKind::Other.into());
    }
    Ok(file)
}
