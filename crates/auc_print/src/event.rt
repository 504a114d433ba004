//! The line of an event.

ghost use Rattle.std.specs.Prelude.{◌≡◌, ◌++◌, ◌∷◌, [], OnOk};
ghost use Rattle.auc_print.specs.EventText.{came_words, end_word, event_words, peer_words, reason_word, refusal_words, sent_word, sent_words, server_words};
ghost use Rattle.auc_print.specs.Inner.{Prints, after_spaces, did_words, ended_words, group_texts, why_words};
ghost use Rattle.auc_print.specs.Numeral.{numeral};
ghost use Rattle.auc_print.specs.OneText.{CameFits, EventFits};
ghost use Rattle.auc_print.specs.Text.{spaced};

use crate::notes::{print_notes, stopped};
use crate::word::{Group, Word, byte_word, decimal, none, one, pair, two, value};
use crate::writer::print_group;
use auc_memory::{NoMemory, Octets};
use auc_record::{End, Event, EventRecord, Note, NoteStep, WorldRefusal};
use auc_vector::{Outcome, PeerWhy, Reason, ServerWhy, Step};

/// Appends the line of an event and of what came of it.
pub fn print_event(event: &EventRecord, out: &mut Octets) -> Result<(), NoMemory>
    ensures text { Prints result out.old out.new
        (spaced (event_words event.now.event ++ came_words event.now.result)) }
    ensures deed { OnOk result (EventFits event.now.event) }
    ensures fits { OnOk result (CameFits event.now.result) }
{
    let (first, deed) = words_of_deed(&event.event);
    out.append(first)?;
    print_group(&deed, out)?;
    print_came(&event.result, out)?;
    out.append(b"\n")
}

/// Appends what came of an event.
fn print_came(came: &Result<Note, WorldRefusal>, out: &mut Octets) -> Result<(), NoMemory>
    ensures text { Prints result out.old out.new (after_spaces (came_words came.now)) }
    ensures fits { OnOk result (CameFits came.now) }
{
    match came {
        Ok(note) => {
            print_notes(&note.notes, out)?;
            print_group(&words_of_sent(&note.step, note.packet), out)?;
            print_group(&words_of_step(&note.step), out)?;
            print_group(&words_of_why(&note.step), out)
        }
        Err(why) => print_group(&words_of_refusal(*why), out),
    }
}

/// The first word of an event, and the others.
fn words_of_deed(event: &Event) -> (&'static [u8], Group<'static>)
    ensures words { result.0.now ∷ group_texts result.1 ≡ event_words event.now }
    ensures fits { EventFits event.now }
{
    match *event {
        Event::Open(ref opening) => (
            b"session",
            [decimal(opening.session), Word::Nothing, Word::Nothing],
        ),
        Event::Start(session) => (b"start", [decimal(session), Word::Nothing, Word::Nothing]),
        Event::Deliver {
            session,
            end,
            packet,
        } => {
            let end = Word::Text(word_of_end(end));
            (b"deliver", [decimal(session), end, decimal(packet)])
        }
        Event::Repeat(session) => (b"repeat", [decimal(session), Word::Nothing, Word::Nothing]),
        Event::GiveUp { session, end } => {
            let end = Word::Text(word_of_end(end));
            (b"giveup", [decimal(session), end, Word::Nothing])
        }
        Event::Tamper {
            packet,
            place,
            byte,
        } => (
            b"tamper",
            [decimal(packet), decimal(place), byte_word(byte)],
        ),
        Event::Cut { packet, length } => {
            (b"cut", [decimal(packet), decimal(length), Word::Nothing])
        }
    }
}

/// The word of an end.
pub fn word_of_end(end: End) -> &'static [u8]
    ensures { result.now ≡ end_word end }
{
    match end {
        End::Server => b"server",
        End::Peer => b"peer",
    }
}

/// Why nothing came of an event.
fn words_of_refusal(why: WorldRefusal) -> Group<'static>
    ensures { group_texts result ≡ refusal_words why }
{
    match why {
        WorldRefusal::NoSuchPacket => one(b"nosuchpacket"),
        WorldRefusal::NoSuchEnd => one(b"nosuchend"),
        WorldRefusal::Started => one(b"started"),
        WorldRefusal::NoSuchPlace => one(b"nosuchplace"),
    }
}

/// The number of the packet that an end sent or the network made in a step, if there is one.
fn words_of_sent(step: &NoteStep, packet: Option<u32>) -> Group<'static>
    ensures { group_texts result ≡ sent_words step.now packet }
{
    match packet {
        None => none(),
        Some(packet) => value(word_of_sent(step), u64::from(packet)),
    }
}

/// The word that says that a packet was sent, or was made.
fn word_of_sent(step: &NoteStep) -> &'static [u8]
    ensures { result.now ≡ sent_word step.now }
{
    match step {
        NoteStep::Opened | NoteStep::Server(_) | NoteStep::Peer(_) => b"sent",
        NoteStep::Made(_) => b"made",
    }
}

/// What an end did besides sending, without the cause of a Failure.
fn words_of_step(step: &NoteStep) -> Group<'static>
    ensures { group_texts result ≡ did_words step.now }
{
    match step {
        NoteStep::Opened => one(b"open"),
        NoteStep::Server(what) => words_of_what(what),
        NoteStep::Peer(what) => words_of_what(what),
        NoteStep::Made(_) => none(),
    }
}

fn words_of_what<W: Drop>(what: &Step<W>) -> Group<'static>
    ensures { group_texts result ≡ ended_words what.now }
{
    match what {
        Step::Sent(_) => none(),
        Step::Ended(Outcome::Success(_), _) => two(b"ended", b"success"),
        Step::Ended(Outcome::Failure(_), _) => two(b"ended", b"failure"),
        Step::Ignored(reason) => two(b"ignored", word_of_reason(*reason)),
    }
}

/// The cause of a Failure, if an end ended so.
fn words_of_why(step: &NoteStep) -> Group<'static>
    ensures { group_texts result ≡ why_words step.now }
{
    match step {
        NoteStep::Server(Step::Ended(Outcome::Failure(why), _)) => words_of_server_why(*why),
        NoteStep::Peer(Step::Ended(Outcome::Failure(why), _)) => words_of_peer_why(*why),
        NoteStep::Opened | NoteStep::Server(_) | NoteStep::Peer(_) | NoteStep::Made(_) => none(),
    }
}

/// Why a server ended in Failure.
fn words_of_server_why(why: ServerWhy) -> Group<'static>
    ensures { group_texts result ≡ server_words why }
{
    match why {
        ServerWhy::UnknownIdentity => one(b"unknownidentity"),
        ServerWhy::WrongMac => one(b"wrongmac"),
        ServerWhy::WrongRes => one(b"wrongres"),
        ServerWhy::WrongCheckcode => one(b"wrongcheckcode"),
        ServerWhy::WrongCounter => one(b"wrongcounter"),
        ServerWhy::SecondSync => one(b"secondsync"),
        ServerWhy::BadAuts => one(b"badauts"),
        ServerWhy::Beyond(seen, seq_ms) => pair(b"beyond", seen, seq_ms),
        ServerWhy::Exhausted(word) => value(b"exhausted", word),
        ServerWhy::Stopped(n, stop) => stopped(b"stopped", n, stop),
        ServerWhy::Rejected => one(b"rejected"),
        ServerWhy::ClientError(code) => value(b"clienterror", u64::from(code)),
        ServerWhy::GivenUp => one(b"givenup"),
    }
}

/// Why a peer ended in Failure.
fn words_of_peer_why(why: PeerWhy) -> Group<'static>
    ensures { group_texts result ≡ peer_words why }
{
    match why {
        PeerWhy::Malformed => one(b"malformed"),
        PeerWhy::Missing => one(b"missing"),
        PeerWhy::BadKdf => one(b"badkdf"),
        PeerWhy::BadName => one(b"badname"),
        PeerWhy::NoSeparation => one(b"noseparation"),
        PeerWhy::Downgrade => one(b"downgrade"),
        PeerWhy::WrongAutn => one(b"wrongautn"),
        PeerWhy::WrongMac => one(b"wrongmac"),
        PeerWhy::WrongCheckcode => one(b"wrongcheckcode"),
        PeerWhy::Undecryptable => one(b"undecryptable"),
        PeerWhy::Notified(code) => value(b"notified", u64::from(code)),
        PeerWhy::FailureReceived => one(b"failurereceived"),
        PeerWhy::GivenUp => one(b"givenup"),
    }
}

/// The word that says why what was received is ignored.
pub fn word_of_reason(reason: Reason) -> &'static [u8]
    ensures { result.now ≡ reason_word reason }
{
    match reason {
        Reason::Closed => b"closed",
        Reason::NotForMe => b"notforme",
        Reason::OtherType => b"othertype",
        Reason::Malformed => b"malformed",
        Reason::Unexpected => b"unexpected",
        Reason::Missing => b"missing",
        Reason::NoContext => b"nocontext",
    }
}
