//! The line of a session of EAP-SIM: its words, and the lines that a full print adds.

ghost use Rattle.std.specs.Prelude.{◌≡◌, ◌++◌, ◌∷◌, OnOk};
ghost use Rattle.auc_print.specs.EventText.{end_word, what_words};
ghost use Rattle.auc_print.specs.Inner.{Prints, group_texts, lines_text, word_texts};
ghost use Rattle.auc_print.specs.Numeral.{numeral};
ghost use Rattle.auc_print.specs.SimText.{became_lines, became_words, sim_lines, sim_why_words, sim_words};

use crate::added::{bytes_of, print_packet, print_what_lines};
use crate::event::{word_of_end, word_of_reason};
use crate::line::word_of_verdict;
use crate::word::Word::{Nothing, Number, Text};
use crate::word::{Group, Word, decimal, one};
use auc_memory::{NoMemory, Octets};
use auc_record::End;
use auc_vector::{Outcome, SimBecame, SimNote, SimWhy, Step};

/// What happened in a session.
pub fn words_of_sim(note: &SimNote) -> [Word<'static>; 8]
    ensures { group_texts result ≡ sim_words note.now }
{
    match note {
        SimNote::Started(_) => eight([Text(b"start"), Text(b"sent"), Number(1)]),
        SimNote::Delivered {
            end,
            packet,
            became,
        } => words_of_delivery(*end, *packet, became),
        SimNote::Ended { agree } => eight(one(word_of_verdict(*agree))),
    }
}

/// The end and the number of a packet that was delivered, and what became of it.
fn words_of_delivery(end: End, packet: u32, became: &SimBecame) -> [Word<'static>; 8]
    ensures { group_texts result ≡ end_word end ∷ numeral packet ∷ became_words became.now }
{
    let [first, second, third, fourth, fifth, sixth] = words_of_became(became);
    let end = Text(word_of_end(end));
    let packet = decimal(packet);
    [end, packet, first, second, third, fourth, fifth, sixth]
}

/// What became of a packet that was delivered: the packet that the end sent, if it sent one, and what it did besides.
fn words_of_became(became: &SimBecame) -> [Word<'static>; 6]
    ensures { group_texts result ≡ became_words became.now }
{
    match became {
        SimBecame::NoSuchPacket => six(Text(b"nosuchpacket"), Nothing, [Nothing; 4]),
        SimBecame::Did { step, sent } => match *sent {
            None => six(Nothing, Nothing, words_of_did(step)),
            Some(packet) => six(Text(b"sent"), decimal(packet), words_of_did(step)),
        },
    }
}

/// What an end did besides sending.
fn words_of_did(step: &Step<SimWhy>) -> [Word<'static>; 4]
    ensures { group_texts result ≡ what_words sim_why_words step.now }
{
    match step {
        Step::Sent(_) => [Nothing; 4],
        Step::Ended(Outcome::Success(_), _) => four(b"ended", b"success", [Nothing; 2]),
        Step::Ended(Outcome::Failure(why), _) => four(b"ended", b"failure", words_of_why(*why)),
        Step::Ignored(reason) => four(b"ignored", word_of_reason(*reason), [Nothing; 2]),
    }
}

/// Why an end ended in Failure.
fn words_of_why(why: SimWhy) -> [Word<'static>; 2]
    ensures { group_texts result ≡ sim_why_words why }
{
    match why {
        SimWhy::WrongMac => [Text(b"wrongmac"), Nothing],
        SimWhy::ClientError(code) => [Text(b"clienterror"), Number(u64::from(code))],
        SimWhy::Version => [Text(b"version"), Nothing],
        SimWhy::NotFresh => [Text(b"notfresh"), Nothing],
        SimWhy::FailureReceived => [Text(b"failurereceived"), Nothing],
    }
}

/// Two words before two others.
fn four(first: &'static [u8], second: &'static [u8], more: [Word<'static>; 2]) -> [Word<'static>; 4]
    ensures { group_texts result ≡ first.now ∷ second.now ∷ group_texts more.entry }
{
    let [third, fourth] = more;
    [Text(first), Text(second), third, fourth]
}

/// The first two words before the others.
fn six(
    first: Word<'static>,
    second: Word<'static>,
    others: [Word<'static>; 4],
) -> [Word<'static>; 6]
    ensures { group_texts result ≡ word_texts first.entry ++ (word_texts second.entry ++ group_texts others.entry) }
{
    let [third, fourth, fifth, sixth] = others;
    [first, second, third, fourth, fifth, sixth]
}

/// The same words.
fn eight(words: Group<'static>) -> [Word<'static>; 8]
    ensures { group_texts result ≡ group_texts words.entry }
{
    let [first, second, third] = words;
    let none = Nothing;
    [first, second, third, none, none, none, none, none]
}

/// Appends the lines that a full print adds after the line: the packet that was sent, and the keys of Success.
pub fn print_sim_lines(note: &SimNote, out: &mut Octets) -> Result<(), NoMemory>
    ensures { Prints result out.old out.new (lines_text (sim_lines note.now)) }
{
    match note {
        SimNote::Started(bytes) => print_packet(Some(1), bytes.as_slice(), out),
        SimNote::Delivered { became, .. } => print_became_lines(became, out),
        SimNote::Ended { .. } => Ok(()),
    }
}

/// Appends the lines of what became of a packet.
fn print_became_lines(became: &SimBecame, out: &mut Octets) -> Result<(), NoMemory>
    ensures { Prints result out.old out.new (lines_text (became_lines became.now)) }
{
    match became {
        SimBecame::NoSuchPacket => Ok(()),
        SimBecame::Did { step, sent } => {
            print_packet(*sent, bytes_of(step), out)?;
            print_what_lines(step, out)
        }
    }
}
