//! Reads lines, each of which asks for a call of another crate, and prints what the call answers.
//!
//! `stdin` has the lines and `stdout` what has to be printed: values from outside, whose source is named in a line of `#`
//! above them. A table stands here and not in its crate, because a crate's tests are proved together with the crate.
//!
//! | Line | Prints |
//! |---|---|
//! | `# TEXT` | the line |
//! | `attrs BYTES` | what attributes are read, written again in both ways |
//! | `mac METHOD PACKET EXTRA` | the packet with its AT_MAC set, and what a check of it says |
//! | `check METHOD PACKET EXTRA` | what a check of AT_MAC says |
//! | `checkcode METHOD PACKET PACKET` | the checkcode of the two |
//! | `encrypt ATTRS`, `decrypt DATA`, `bare DATA` | attributes encrypted; AT_ENCR_DATA decrypted and opened, with and without AT_IV |
//! | `script TEXT` | how a scenario is read |
//! | `file TEXT`, `record TEXT` | how a file of subscribers is read, or a line of a subscriber after another one |
//!
//! METHOD is `aka` or `prime`; all others are bytes (`bytes`).
#![tactic(auto)]

mod answer;
mod attrs;
mod bytes;
mod seals;
mod texts;

use std::io;

fn main(rt: HostRuntime) -> io::Result<()> {
    for line in rt.lines(rt.alloc()) {
        let text = answer::answer_of(rt.alloc(), line?.as_str())?;
        println!(rt; "{text}")?;
    }
    Ok(())
}
