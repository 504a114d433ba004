//! The lines of a round.

ghost use Rattle.std.specs.Prelude.{◌≡◌, ◌++◌, ◌∷◌, [], ◌<◌, codes, flat_map, length, take, All, OnOk};
ghost use Rattle.auc_record.specs.Record.{IsBelow, subscriber_of};
ghost use Rattle.auc_record.specs.declared.record.LineRecord.TheVariants as record_of;
ghost use Rattle.auc_print.specs.EventText.{agree_word};
ghost use Rattle.auc_print.specs.Inner.{Prints, bytes_text, group_texts, premise_text};
ghost use Rattle.auc_print.specs.Numeral.{numeral};
ghost use Rattle.auc_print.specs.OneText.{AnswerFits, GiveFits};
ghost use Rattle.auc_print.specs.Text.{broken_words, closing_words, give_words, identities_of, record_words, session_words, spaced, sync_words};

use crate::event::{print_event, word_of_end};
use crate::further::print_further;
use crate::notes::word_of;
use crate::word::{Group, Word, decimal, one, pair};
use crate::writer::{print_line, print_named};
use auc_memory::{NoMemory, Octets};
use auc_record::{Breach, Closing, GiveVerdict, LineRecord, Premise, SessionVerdict};
use auc_subs::Subscribers;
use auc_vector::{NumberNote, ResyncNote, Vector};

/// Appends the line of a job's record.
pub fn print_record(
    answer: &LineRecord,
    subs: &Subscribers,
    out: &mut Octets,
) -> Result<(), NoMemory>
    requires { IsBelow (length subs.now) (subscriber_of answer.now) }

    ensures text { Prints result out.old out.new
        (spaced (record_words (identities_of subs.now) answer.now)) }
    ensures fits { OnOk result (AnswerFits answer.now) }
{
    match answer {
        LineRecord::Number { sub, note } => print_asked(*sub, *note, subs, out),
        LineRecord::Sync { sub, note } => {
            print_named(b"sync", *sub, &words_of_sync(*note), subs, out)
        }
        LineRecord::Give { sub, n, verdict } => {
            print_named(b"give", *sub, &words_of_give(*n, *verdict), subs, out)
        }
        LineRecord::Further(further) => print_further(further.said(), subs, out),
        LineRecord::Event(event) => print_event(event.record(), out),
    }
}

/// Appends the line of what the centre answered when it was asked for a subscriber's next number.
fn print_asked(
    sub: u32,
    note: NumberNote,
    subs: &Subscribers,
    out: &mut Octets,
) -> Result<(), NoMemory>
    requires { sub < length subs.now }
    ensures { Prints result out.old out.new
        (spaced (record_words (identities_of subs.now) (record_of.Number sub note))) }
{
    match note {
        NumberNote::Drew(n) => print_named(b"vector", sub, &[Word::Number(n)], subs, out),
        NumberNote::Exhausted(n) => print_named(b"exhausted", sub, &[Word::Number(n)], subs, out),
        NumberNote::Withheld(n, stop) => {
            let words = [Word::Number(n), Word::Text(word_of(stop))];
            print_named(b"withheld", sub, &words, subs, out)
        }
    }
}

/// What the home network made of an AUTS.
fn words_of_sync(note: ResyncNote) -> Group<'static>
    ensures { group_texts result ≡ sync_words note }
{
    match note {
        ResyncNote::Moved(seen, seq_ms) => pair(b"moved", seen, seq_ms),
        ResyncNote::InRange(seen, seq_ms) => pair(b"inrange", seen, seq_ms),
        ResyncNote::Beyond(seen, seq_ms) => pair(b"beyond", seen, seq_ms),
        ResyncNote::BadAuts => one(b"wrongmac"),
    }
}

/// The number of a vector, and what a USIM answered to it.
fn words_of_give(n: u64, verdict: GiveVerdict) -> Group<'static>
    ensures words { group_texts result ≡ numeral n ∷ give_words verdict }
    ensures fits { GiveFits verdict }
{
    match verdict {
        GiveVerdict::Accepted => [Word::Number(n), Word::Text(b"accepted"), Word::Nothing],
        GiveVerdict::Sync(sqn_ms) => [Word::Number(n), Word::Text(b"sync"), Word::Sqn(sqn_ms)],
        GiveVerdict::Absent => [Word::Number(n), Word::Text(b"absent"), Word::Nothing],
    }
}

/// Appends the lines of a round's closings.
pub fn print_closings(
    closings: &[Closing],
    subs: &Subscribers,
    out: &mut Octets,
) -> Result<(), NoMemory>
    requires { All (λ closing. closing.sub < length subs.now) closings.now }

    ensures { Prints result out.old out.new
        (flat_map (λ closing. spaced (closing_words (identities_of subs.now) closing)) closings.now) }
{
    for closing in closings {
        let words = [
            Word::Number(closing.first),
            Word::Number(closing.last),
            Word::Number(closing.drawn),
            Word::Number(closing.skipped),
            Word::Number(closing.released),
            Word::Number(closing.withheld),
        ];
        print_named(b"closed", closing.sub, &words, subs, out)?;
    }
    Ok(())
}

/// Appends the lines of the verdicts on a round's sessions.
pub fn print_sessions(sessions: &[SessionVerdict], out: &mut Octets) -> Result<(), NoMemory>
    ensures { Prints result out.old out.new
        (flat_map (λ verdict. spaced (session_words verdict)) sessions.now) }
{
    for verdict in sessions {
        let agree = Word::Text(word_of_verdict(verdict.agree));
        print_line(b"session", &[decimal(verdict.session), agree], out)?;
    }
    Ok(())
}

/// The word that says whether the keys of a session's ends are equal.
pub fn word_of_verdict(agree: bool) -> &'static [u8]
    ensures { result.now ≡ agree_word agree }
{
    if agree { b"agree" } else { b"differ" }
}

/// Appends the line of a round's premise, if the round has sessions.
pub fn print_premise(premise: Premise, out: &mut Octets) -> Result<(), NoMemory>
    ensures { Prints result out.old out.new (premise_text premise) }
{
    match premise {
        Premise::NoSession => Ok(()),
        Premise::Held => out.append(b"premise held\n"),
        Premise::Broken { job, breach } => print_broken(job, breach, out),
    }
}

/// Appends the line of the delivery that breaks the premise.
fn print_broken(job: u32, breach: Breach, out: &mut Octets) -> Result<(), NoMemory>
    ensures { Prints result out.old out.new (spaced (broken_words job breach)) }
{
    let words = [
        Word::Text(b"broken"),
        decimal(job),
        decimal(breach.session),
        Word::Text(word_of_end(breach.end)),
        decimal(breach.packet),
    ];
    print_line(b"premise", &words, out)
}

/// Appends the line of the first vector's bytes, if there is one.
pub fn print_first(vectors: &[Vector], out: &mut Octets) -> Result<(), NoMemory>
    ensures { Prints result out.old out.new (bytes_text (take 1 vectors.now)) }
{
    let [vector, ..] = vectors else {
        return Ok(());
    };
    let words = [
        Word::Hex(&vector.rand),
        Word::Hex(&vector.autn),
        Word::Hex(&vector.xres),
        Word::Hex(&vector.ck),
        Word::Hex(&vector.ik),
    ];
    print_line(b"bytes", &words, out)
}
