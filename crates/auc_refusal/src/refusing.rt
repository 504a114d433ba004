//! How a refusal is told: by its line and its status.

ghost use Rattle.std.specs.Prelude.{◌≡◌, ◌≢◌, ◌++◌, OnOk, IfOk, IfErr, IsErrOf, Err, codes, decimal};
ghost use Rattle.auc_memory.specs.Faults.{Rose};
ghost use Rattle.auc_edge.specs.Sink.{Appends, AppendsFront};
ghost use Rattle.auc_refusal.specs.Told.{IsUntold, Tells};
ghost use Rattle.auc_refusal.specs.Faults.{RoseAt};
ghost use Rattle.auc_refusal.specs.Refusal.{line_of, status_of, why_word, subs_why_word};

use crate::refusal::Refusal;
use crate::status::Status;
use auc_edge::{Sink, write_whole};
use auc_memory::{NoMemory, Octets};
use auc_reading::ScriptWhy;
use auc_subs::SubsWhy;
use std::alloc::Global;

/// Writes the line of a refusal, if it has one. It answers the refusal's status, or that of what stopped the
/// line.
pub fn tell<K: Sink>(alloc: Global, refusal: Refusal, out: &mut K) -> Status
    ensures told { Tells refusal result (K.written out.old) (K.written out.new) }
    ensures front { AppendsFront (K.written out.old) (K.written out.new) (line_of refusal) }
    ensures fault { refusal ≢ Refusal.WriteFault → result ≡ Status.WriteFault
        → Rose (K.faults out.old) (K.faults out.new) }
    ensures quiet { result ≢ Status.WriteFault → K.faults out.new ≡ K.faults out.old }
    ensures silent { refusal ≡ Refusal.WriteFault → K.faults out.new ≡ K.faults out.old }
    ensures spared { result ≡ Status.NoMemory → K.written out.new ≡ K.written out.old }
{
    match write_refusal(alloc, refusal, out) {
        Ok(()) => refusal.status(),
        Err(stop) => stop.status(),
    }
}

/// Writes the line of a refusal, if it has one.
#[tactic(auto, using(crate::proofs::FrontLemmas::front_whole, crate::proofs::FrontLemmas::front_none))]
fn write_refusal<K: Sink>(alloc: Global, refusal: Refusal, out: &mut K) -> Result<(), Refusal>
    ensures written { OnOk result (Appends (K.written out.old) (K.written out.new) (line_of refusal)) }
    ensures front { AppendsFront (K.written out.old) (K.written out.new) (line_of refusal) }
    ensures refused { IfErr result (λ stop. IsUntold refusal (status_of stop)) }
    ensures spared { IsErrOf result Refusal.NoMemory → K.written out.new ≡ K.written out.old }
    ensures output { RoseAt Refusal.WriteFault result (K.faults out.old) (K.faults out.new) }
{
    match refusal {
        Refusal::Usage => Ok(write_whole(out, b"usage\n".as_slice())?),
        Refusal::Subscribers(_, _) | Refusal::Scenario(_, _) | Refusal::NotJournal(_) => {
            write_text(refusal_line(alloc, refusal)?, out)
        }
        Refusal::ReadFault
        | Refusal::WriteFault
        | Refusal::StoreFault
        | Refusal::StoreFull
        | Refusal::TooLong
        | Refusal::NoMemory => Ok(()),
    }
}

/// Writes a text, and gives its memory back.
fn write_text<K: Sink>(text: Octets, out: &mut K) -> Result<(), Refusal>
    ensures written { OnOk result (Appends (K.written out.old) (K.written out.new) text) }
    ensures front { AppendsFront (K.written out.old) (K.written out.new) text }
    ensures refused { IfErr result (λ stop. stop ≡ Refusal.WriteFault) }
    ensures output { RoseAt Refusal.WriteFault result (K.faults out.old) (K.faults out.new) }
{
    Ok(write_whole(out, text.as_slice())?)
}

/// The line of a refusal, which is empty if it has none.
pub(crate) fn refusal_line(alloc: Global, refusal: Refusal) -> Result<Octets, NoMemory>
    ensures { IfOk result (λ text. text ≡ line_of refusal) }
{
    match refusal {
        Refusal::Usage => Octets::copied_from(alloc, b"usage\n"),
        Refusal::Subscribers(row, why) => {
            refused_line(alloc, b"refused subscribers ", row, subs_why_text(why))
        }
        Refusal::Scenario(line, why) => {
            refused_line(alloc, b"refused scenario ", line, why_text(why))
        }
        Refusal::NotJournal(place) => journal_line(alloc, place),
        Refusal::ReadFault
        | Refusal::WriteFault
        | Refusal::StoreFault
        | Refusal::StoreFull
        | Refusal::TooLong
        | Refusal::NoMemory => Ok(Octets::new(alloc)),
    }
}

/// The line of a refusal: what is refused, the number of its wrong part, and the word for its fault.
fn refused_line(
    alloc: Global,
    refused: &[u8],
    number: u32,
    fault: &[u8],
) -> Result<Octets, NoMemory>
    ensures { IfOk result
        (λ text. text ≡ refused.now ++ decimal number ++ codes " " ++ fault.now ++ codes "\n") }
{
    let mut text = Octets::new(alloc);
    text.append(refused)?;
    text.append_number(u64::from(number))?;
    text.append(b" ")?;
    text.append(fault)?;
    text.append(b"\n")?;
    Ok(text)
}

/// The line of a journal that is none: the place that shows it.
fn journal_line(alloc: Global, place: u64) -> Result<Octets, NoMemory>
    ensures { IfOk result (λ text. text ≡ codes "refused journal " ++ decimal place ++ codes "\n") }
{
    let mut text = Octets::new(alloc);
    text.append(b"refused journal ")?;
    text.append_number(place)?;
    text.append(b"\n")?;
    Ok(text)
}

/// The word for what is wrong with a line of a scenario.
fn why_text(why: ScriptWhy) -> &'static [u8]
    ensures { result.now ≡ why_word why }
{
    match why {
        ScriptWhy::UnknownWord => b"unknownword",
        ScriptWhy::OutOfOrder => b"outoforder",
        ScriptWhy::Fields => b"fields",
        ScriptWhy::Number => b"number",
        ScriptWhy::Hex => b"hex",
        ScriptWhy::Subscriber(fault) => subs_why_text(fault),
        ScriptWhy::UnknownSubscriber => b"unknownsubscriber",
        ScriptWhy::UnknownSession => b"unknownsession",
        ScriptWhy::Twice => b"twice",
        ScriptWhy::UsimBusy => b"usimbusy",
        ScriptWhy::Limit => b"limit",
        ScriptWhy::NotInBlock => b"notlive",
        ScriptWhy::Unfinished => b"unfinished",
    }
}

/// The word for what is wrong with a subscriber.
fn subs_why_text(why: SubsWhy) -> &'static [u8]
    ensures { result.now ≡ subs_why_word why }
{
    match why {
        SubsWhy::Header => b"header",
        SubsWhy::FieldCount => b"fieldcount",
        SubsWhy::Imsi => b"imsi",
        SubsWhy::Key => b"key",
        SubsWhy::Kind => b"kind",
        SubsWhy::Op => b"op",
        SubsWhy::Amf => b"amf",
        SubsWhy::Bits => b"bits",
        SubsWhy::Age => b"age",
        SubsWhy::Seq => b"seq",
        SubsWhy::Usim => b"usim",
        SubsWhy::Twice => b"twice",
        SubsWhy::TooMany => b"toomany",
    }
}
