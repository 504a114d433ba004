//! The lines that a full print adds after a record's, besides the bytes of a vector and an AUTS.

ghost use Rattle.std.specs.Prelude.{◌≡◌, ◌++◌, OnOk};
ghost use Rattle.auc_print.specs.EventText.{came_lines, keys_words, packet_lines, step_lines, step_sent, what_lines, what_sent};
ghost use Rattle.auc_print.specs.Inner.{Prints, lines_text};
ghost use Rattle.auc_print.specs.Text.{shown_lines, spaced};

use crate::further::print_further_lines;
use crate::word::{Word, decimal};
use crate::writer::print_line;
use auc_hmac::KeySet;
use auc_memory::{NoMemory, Octets};
use auc_record::{LineRecord, Note, NoteStep, WorldRefusal};
use auc_vector::{Outcome, Step};

/// Appends the lines that a full print adds after a record's, besides the bytes of a vector and an AUTS: K_SEAF of a confirmed
/// 5G authentication, or the packet that was sent or made in an event or a session of EAP-SIM, and the keys of its Success.
pub fn print_added(answer: &LineRecord, out: &mut Octets) -> Result<(), NoMemory>
    ensures { Prints result out.old out.new (lines_text (shown_lines answer.now)) }
{
    match answer {
        LineRecord::Further(further) => print_further_lines(further.said(), out),
        LineRecord::Event(event) => print_came_lines(&event.record().result, out),
        LineRecord::Number { .. } | LineRecord::Sync { .. } | LineRecord::Give { .. } => Ok(()),
    }
}

/// Appends the lines of what came of an event.
fn print_came_lines(came: &Result<Note, WorldRefusal>, out: &mut Octets) -> Result<(), NoMemory>
    ensures { Prints result out.old out.new (lines_text (came_lines came.now)) }
{
    match came {
        Ok(note) => {
            print_packet(note.packet, bytes_of_step(&note.step), out)?;
            print_step_lines(&note.step, out)
        }
        Err(_) => Ok(()),
    }
}

/// Appends the line of a packet, if there is one.
pub fn print_packet(packet: Option<u32>, bytes: &[u8], out: &mut Octets) -> Result<(), NoMemory>
    ensures { Prints result out.old out.new (lines_text (packet_lines packet bytes.now)) }
{
    match packet {
        None => Ok(()),
        Some(packet) => print_line(b"packet", &[decimal(packet), Word::Hex(bytes)], out),
    }
}

/// The bytes that a step sent or made, if it did.
pub fn bytes_of_step(step: &NoteStep) -> &[u8]
    ensures { result.now ≡ step_sent step.now }
{
    match step {
        NoteStep::Opened => &[],
        NoteStep::Server(what) => bytes_of(what),
        NoteStep::Peer(what) => bytes_of(what),
        NoteStep::Made(bytes) => bytes.as_slice(),
    }
}

/// The bytes that an end sent, if it did.
pub fn bytes_of<W: Drop>(what: &Step<W>) -> &[u8]
    ensures { result.now ≡ what_sent what.now }
{
    match what {
        Step::Sent(bytes) => bytes.as_slice(),
        Step::Ended(_, bytes) => bytes.as_slice(),
        Step::Ignored(_) => &[],
    }
}

/// Appends the line of the keys of Success, if a step ended so.
fn print_step_lines(step: &NoteStep, out: &mut Octets) -> Result<(), NoMemory>
    ensures { Prints result out.old out.new (lines_text (step_lines step.now)) }
{
    match step {
        NoteStep::Opened | NoteStep::Made(_) => Ok(()),
        NoteStep::Server(what) => print_what_lines(what, out),
        NoteStep::Peer(what) => print_what_lines(what, out),
    }
}

/// Appends the line of the keys of Success, if an end ended so.
pub fn print_what_lines<W: Drop>(what: &Step<W>, out: &mut Octets) -> Result<(), NoMemory>
    ensures { Prints result out.old out.new (lines_text (what_lines what.now)) }
{
    match what {
        Step::Ended(Outcome::Success(keys), _) => print_keys(keys, out),
        Step::Ended(Outcome::Failure(_), _) | Step::Sent(_) | Step::Ignored(_) => Ok(()),
    }
}

/// Appends the line of the keys of Success.
fn print_keys(keys: &KeySet, out: &mut Octets) -> Result<(), NoMemory>
    ensures { Prints result out.old out.new (spaced (keys_words keys.now)) }
{
    let words = [
        Word::Hex(&keys.k_encr),
        Word::Hex(&keys.k_aut),
        Word::Hex(&keys.k_re),
        Word::Hex(&keys.msk),
        Word::Hex(&keys.emsk),
    ];
    print_line(b"keys", &words, out)
}
