//! The words of a turn.

use crate::text::Text;
use auc_hmac::KeySet;
use auc_memory::{Octets, Stop};
use auc_peer::PeerWhy;
use auc_server::ServerWhy;
use auc_sim::SimWhy;
use auc_vector::{
    CounterNote, Notes, NumberNote, Outcome, Reason, ResyncNote, Step, Turn, UsimNote,
};

/// A turn of a server.
pub fn put_server_turn(turn: &Turn<ServerWhy>, text: &mut Text) {
    put_notes(&turn.notes, text);
    put_server_step(&turn.step, text);
}

/// A turn of a peer.
pub fn put_peer_turn(turn: &Turn<PeerWhy>, text: &mut Text) {
    put_notes(&turn.notes, text);
    put_peer_step(&turn.step, text);
}

/// A step of a server.
pub fn put_server_step(step: &Step<ServerWhy>, text: &mut Text) {
    match step {
        Step::Sent(bytes) => put_sent(bytes.as_slice(), text),
        Step::Ignored(reason) => put_ignored(*reason, text),
        Step::Ended(Outcome::Success(keys), bytes) => put_success(keys, bytes, text),
        Step::Ended(Outcome::Failure(why), bytes) => {
            text.put("ended failure ");
            put_server_why(*why, text);
            put_after(bytes, text);
        }
    }
}

/// A step of a peer.
pub fn put_peer_step(step: &Step<PeerWhy>, text: &mut Text) {
    match step {
        Step::Sent(bytes) => put_sent(bytes.as_slice(), text),
        Step::Ignored(reason) => put_ignored(*reason, text),
        Step::Ended(Outcome::Success(keys), bytes) => put_success(keys, bytes, text),
        Step::Ended(Outcome::Failure(why), bytes) => {
            text.put("ended failure ");
            put_peer_why(*why, text);
            put_after(bytes, text);
        }
    }
}

/// A step of an end of EAP-SIM.
pub fn put_sim_step(step: &Step<SimWhy>, text: &mut Text) {
    match step {
        Step::Sent(bytes) => put_sent(bytes.as_slice(), text),
        Step::Ignored(reason) => put_ignored(*reason, text),
        Step::Ended(Outcome::Success(keys), bytes) => put_success(keys, bytes, text),
        Step::Ended(Outcome::Failure(why), bytes) => {
            text.put("ended failure ");
            put_sim_why(*why, text);
            put_after(bytes, text);
        }
    }
}

/// A packet that is sent.
pub fn put_sent(bytes: &[u8], text: &mut Text) {
    text.put("sent ");
    text.put_hex(bytes);
}

fn put_ignored(reason: Reason, text: &mut Text) {
    text.put(match reason {
        Reason::Closed => "ignored closed",
        Reason::NotForMe => "ignored notforme",
        Reason::OtherType => "ignored othertype",
        Reason::Malformed => "ignored malformed",
        Reason::Unexpected => "ignored unexpected",
        Reason::Missing => "ignored missing",
        Reason::NoContext => "ignored nocontext",
    });
}

/// A space and the bytes, if there are any.
fn put_after(bytes: &Octets, text: &mut Text) {
    if !bytes.is_empty() {
        put_key(bytes.as_slice(), text);
    }
}

/// A space and the bytes.
fn put_key(bytes: &[u8], text: &mut Text) {
    text.put(" ");
    text.put_hex(bytes);
}

fn put_success(keys: &KeySet, bytes: &Octets, text: &mut Text) {
    text.put("ended success");
    put_after(bytes, text);
    text.put(" keys");
    put_key(&keys.k_encr, text);
    put_key(&keys.k_aut, text);
    put_key(&keys.k_re, text);
    put_key(&keys.msk, text);
    put_key(&keys.emsk, text);
}

/// The notes, each followed by a space.
fn put_notes(notes: &Notes, text: &mut Text) {
    put_resync(notes.resync, text);
    put_number_note(notes.number, text);
    if let Some(counter) = notes.resumed {
        put_one("resumed ", counter as u64, text);
    }
    put_usim(notes.usim, text);
    put_counter(notes.counter, text);
}

/// A word, a number and a space.
fn put_one(word: &str, number: u64, text: &mut Text) {
    text.put(word);
    text.put_number(number);
    text.put(" ");
}

/// A word, two numbers and a space.
fn put_two(word: &str, first: u64, second: u64, text: &mut Text) {
    put_one(word, first, text);
    put_one("", second, text);
}

fn put_resync(note: Option<ResyncNote>, text: &mut Text) {
    match note {
        None => {}
        Some(ResyncNote::Moved(seen, seq)) => put_two("moved ", seen, seq, text),
        Some(ResyncNote::InRange(seen, seq)) => put_two("inrange ", seen, seq, text),
        Some(ResyncNote::Beyond(seen, seq)) => put_two("beyond ", seen, seq, text),
        Some(ResyncNote::BadAuts) => text.put("badauts "),
    }
}

fn put_number_note(note: Option<NumberNote>, text: &mut Text) {
    match note {
        None => {}
        Some(NumberNote::Drew(n)) => put_one("drew ", n, text),
        Some(NumberNote::Exhausted(word)) => put_one("exhausted ", word, text),
        Some(NumberNote::Withheld(n, stop)) => {
            put_one("withheld ", n, text);
            text.put(word_of_stop(stop));
            text.put(" ");
        }
    }
}

fn word_of_stop(stop: Stop) -> &'static str {
    match stop {
        Stop::Fault => "fault",
        Stop::Full => "full",
    }
}

fn put_usim(note: Option<UsimNote>, text: &mut Text) {
    match note {
        None => {}
        Some(UsimNote::Accepted(sqn)) => put_sqn("accepted ", sqn, text),
        Some(UsimNote::Sync(sqn)) => put_sqn("sync ", sqn, text),
        Some(UsimNote::WrongMac) => text.put("wrongmac "),
    }
}

fn put_sqn(word: &str, sqn: [u8; 6], text: &mut Text) {
    text.put(word);
    text.put_hex(&sqn);
    text.put(" ");
}

fn put_counter(note: Option<CounterNote>, text: &mut Text) {
    match note {
        None => {}
        Some(CounterNote::Taken(counter)) => put_one("counter ", counter as u64, text),
        Some(CounterNote::Small(counter)) => put_one("small ", counter as u64, text),
    }
}

fn put_server_why(why: ServerWhy, text: &mut Text) {
    text.put(word_of_server_why(why));
    match why {
        ServerWhy::Beyond(seen, seq) => {
            put_one("", seen, text);
            text.put_number(seq);
        }
        ServerWhy::Exhausted(word) => text.put_number(word),
        ServerWhy::Stopped(n, stop) => {
            put_one("", n, text);
            text.put(word_of_stop(stop));
        }
        ServerWhy::ClientError(code) => text.put_number(code as u64),
        _ => {}
    }
}

/// The word of a cause, with a space if a number follows it.
fn word_of_server_why(why: ServerWhy) -> &'static str {
    match why {
        ServerWhy::UnknownIdentity => "unknownidentity",
        ServerWhy::WrongMac => "wrongmac",
        ServerWhy::WrongRes => "wrongres",
        ServerWhy::WrongCheckcode => "wrongcheckcode",
        ServerWhy::WrongCounter => "wrongcounter",
        ServerWhy::SecondSync => "secondsync",
        ServerWhy::BadAuts => "badauts",
        ServerWhy::Beyond(..) => "beyond ",
        ServerWhy::Exhausted(_) => "exhausted ",
        ServerWhy::Stopped(..) => "stopped ",
        ServerWhy::Rejected => "rejected",
        ServerWhy::ClientError(_) => "clienterror ",
        ServerWhy::GivenUp => "givenup",
    }
}

fn put_sim_why(why: SimWhy, text: &mut Text) {
    match why {
        SimWhy::WrongMac => text.put("wrongmac"),
        SimWhy::ClientError(code) => {
            text.put("clienterror ");
            text.put_number(code as u64);
        }
        SimWhy::Version => text.put("version"),
        SimWhy::NotFresh => text.put("notfresh"),
        SimWhy::FailureReceived => text.put("failurereceived"),
    }
}

fn put_peer_why(why: PeerWhy, text: &mut Text) {
    text.put(word_of_peer_why(why));
    if let PeerWhy::Notified(code) = why {
        text.put_number(code as u64);
    }
}

/// The word of a cause, with a space if a number follows it.
fn word_of_peer_why(why: PeerWhy) -> &'static str {
    match why {
        PeerWhy::Malformed => "malformed",
        PeerWhy::Missing => "missing",
        PeerWhy::BadKdf => "badkdf",
        PeerWhy::BadName => "badname",
        PeerWhy::NoSeparation => "noseparation",
        PeerWhy::Downgrade => "downgrade",
        PeerWhy::WrongAutn => "wrongautn",
        PeerWhy::WrongMac => "wrongmac",
        PeerWhy::WrongCheckcode => "wrongcheckcode",
        PeerWhy::Undecryptable => "undecryptable",
        PeerWhy::Notified(_) => "notified ",
        PeerWhy::FailureReceived => "failurereceived",
        PeerWhy::GivenUp => "givenup",
    }
}
