//! Reads what happens to an end of a session of EAP-AKA (RFC 4187), EAP-AKA' (RFC 9048) or EAP-SIM (RFC 4186), a line each,
//! and prints what the end does.
//!
//! | Line | What happens |
//! |---|---|
//! | `# TEXT` | nothing; the line is printed |
//! | `server WORD held`, `server WORD none` | a server begins. The subscriber's last number is WORD, and it is held or not |
//! | `peer WORD` | a peer begins, whose USIM counts the numbers up to WORD as accepted |
//! | `simserver WORD 2`, `simserver WORD 3` | a server of EAP-SIM begins, with the triplets of 2 or 3 numbers after WORD |
//! | `simpeer WORD` | a peer of EAP-SIM begins, with the NONCE_MT of the number WORD |
//! | `next` | the next session of the server, or of the peer at its device |
//! | `bytes HEX` | the end receives these bytes |
//! | `repeat`, `giveup` | the server repeats its last request; the end gives up. Ends of EAP-SIM do neither |
//!
//! After the words of `server`, `peer` and of their `next` stand options, in any order but for the last:
//!
//! | Option | What it says |
//! |---|---|
//! | `pseudonym` | the server gives pseudonyms |
//! | `reauth` | the server gives re-authentication identities |
//! | `any` | the server asks for any identity first |
//! | `bidding` | the server of EAP-AKA bids for EAP-AKA' |
//! | `hasprime` | the device of the peer has EAP-AKA' |
//! | `permanent`, `=TEXT` | the peer's first identity is the permanent one, or a text; else it is the one that the device holds |
//! | `prime NAME` | the method is EAP-AKA', with the network's name; `*` is none |
//!
//! The answers have the words of the program's transcripts: notes, then the step with the bytes that are sent. `stdin` and
//! `stdout` are what `tools/eap_rows.py` makes by an implementation of its own: each kind of message in each state of both
//! ends.
#![tactic(auto)]

mod end;
mod peer_end;
mod server_end;
mod sim_end;
mod text;
mod turn;

use end::End;
use std::alloc::Global;
use std::io;
use std::io::{Input, Print};
use std::sync::Wait;

fn main(rt: HostRuntime) -> io::Result<()> {
    let mut end = End::Neither;
    answer_all(&rt, rt.alloc(), &mut end)
}

/// Prints what an end does at each line of the input.
fn answer_all<R: Input + Print + Wait>(rt: &R, alloc: Global, end: &mut End) -> io::Result<()> {
    for line in rt.lines(alloc) {
        answer_read(rt, alloc, end, line)?;
    }
    Ok(())
}

/// Prints what an end does at a line, if it was read.
fn answer_read<R: Print + Wait>(
    rt: &R,
    alloc: Global,
    end: &mut End,
    line: io::Result<String>,
) -> io::Result<()> {
    answer_line(rt, alloc, end, line?.as_str())
}

/// Prints what an end does at a line.
fn answer_line<R: Print + Wait>(
    rt: &R,
    alloc: Global,
    end: &mut End,
    line: &str,
) -> io::Result<()> {
    let text = end.answer(rt, alloc, line)?;
    println!(rt; "{text}")
}
