//! The lines of sessions.

ghost use Rattle.std.specs.Prelude.{◌≡◌, ◌<◌, ◌≤◌, ◌&&◌, true, List, Ok, Err, length, IfOk, IfSome, MatchResult};
ghost use Rattle.auc_lines.specs.Part.{held_by};
ghost use Rattle.auc_subs.specs.declared.row.Row.{Row};
ghost use Rattle.auc_text.specs.Text.{words_of};
ghost use Rattle.auc_reading.specs.InnerFields.{all_seven};
ghost use Rattle.auc_reading.specs.Refusal.{Says};
ghost use Rattle.auc_reading.specs.Ranges.{IsLine, IsSession};
ghost use Rattle.auc_reading.specs.Numbers.{last_session};
ghost use Rattle.auc_reading.specs.SessionLine.{are_letters, are_names, are_options, has_letters, identity_in, is_identity, is_one_of, method_in, name_in, peer_name_in, seven_fields};
ghost use Rattle.auc_reading.specs.Field.{number_between};
ghost use Rattle.auc_reading.specs.JobLine.{deliver_of, give_up_of, number_of_session, session_of};
ghost use Rattle.auc_reading.specs.Texts.{has_fit_texts};

use crate::field::{
    first_field, four_fields, is_text, one_field, read_end, read_number, three_fields, two_fields,
};
use crate::limits::{LAST_PACKET, LAST_SESSION};
use crate::refusal::{LineRefusal, ScriptWhy, require};
use auc_hmac::Method;
use auc_lines::{Identity, Line, SessionLine};
use auc_memory::{Imsi, NoMemory, Octets};
use auc_subs::Subscribers;
use std::alloc::Global;

/// Whether options are letters, each once.
fn has_letters(options: &[u8]) -> bool
    ensures { result ≡ has_letters options.now }
{
    !options.is_empty() && options.len() <= 5 && are_letters(options)
}

/// Whether each byte is the letter of an option, and comes once.
fn are_letters(text: &[u8]) -> bool
    requires { length text.now ≤ 5 }
    ensures { result ≡ are_letters text.now }
{
    match text {
        [] => true,
        [letter, more @ ..] => {
            b"prbad".contains(letter) && !more.contains(letter) && are_letters(more)
        }
    }
}

/// The fields `T IMSI METHOD SNAME PNAME OPTIONS IDENTITY` of a line.
fn seven_fields(
    fields: &[u8],
) -> Result<(&[u8], &[u8], &[u8], &[u8], &[u8], &[u8], &[u8]), ScriptWhy>
    ensures { MatchResult result
        (λ f. seven_fields (words_of fields.now) ≡ Ok (all_seven f.0.now f.1.now f.2.now f.3.now f.4.now f.5.now f.6.now))
        (λ why. seven_fields (words_of fields.now) ≡ Err why) }
{
    let (session, rest) = first_field(fields)?;
    let (imsi, rest) = first_field(rest)?;
    let (method, rest) = first_field(rest)?;
    let (sname, pname, options, identity) = four_fields(rest)?;
    Ok((session, imsi, method, sname, pname, options, identity))
}

/// What the fields `T IMSI METHOD SNAME PNAME OPTIONS IDENTITY` say, with texts of any length.
pub fn read_session(alloc: Global, subs: &Subscribers, fields: &[u8]) -> Result<Line, LineRefusal>
    ensures value { Says (session_of subs.now (words_of fields.now)) result }
    ensures known { IfOk result (λ line. IfSome (held_by line) (λ sub. sub < length subs.now)) }
    ensures line { IfOk result (λ line. has_fit_texts line ≡ true → IsLine subs.now line) }
{
    let (session, imsi, method, sname, pname, options, identity) = seven_fields(fields)?;
    let session = read_session_number(session)?;
    let imsi = Imsi::read(imsi).ok_or(ScriptWhy::Fields)?;
    let method = read_method(method).ok_or(ScriptWhy::Fields)?;
    require(
        are_fit(method, sname, pname, options, identity),
        ScriptWhy::Fields,
    )?;
    let sub = subs.find(imsi).ok_or(ScriptWhy::UnknownSubscriber)?;
    let (name, peer_name, identity) = read_texts(alloc, method, sname, pname, identity)?;
    Ok(Line::Session(SessionLine {
        session,
        sub,
        method,
        name,
        peer_name,
        pseudonym: has(options, b'p'),
        reauth: has(options, b'r'),
        bidding: has(options, b'b'),
        any: has(options, b'a'),
        has_prime: has(options, b'd'),
        identity,
    }))
}

/// Whether a letter is among options.
fn has(options: &[u8], letter: u8) -> bool
    ensures { result ≡ is_one_of options.now letter }
{
    options.contains(&letter)
}

/// What a session's line takes memory for: the server's name, the one that the peer expects, and the first identity.
fn read_texts(
    alloc: Global,
    method: Method,
    sname: &[u8],
    pname: &[u8],
    identity: &[u8],
) -> Result<(Octets, Option<Octets>, Identity), NoMemory>
    ensures name { IfOk result (λ texts. texts.0 ≡ name_in method sname.now) }
    ensures peer { IfOk result (λ texts. texts.1 ≡ peer_name_in method pname.now) }
    ensures identity { IfOk result (λ texts. texts.2 ≡ identity_in identity.now) }
{
    let name = read_name(alloc, method, sname)?;
    let peer_name = read_peer_name(alloc, method, pname)?;
    Ok((name, peer_name, read_identity(alloc, identity)?))
}

/// The method that a field is.
fn read_method(text: &[u8]) -> Option<Method>
    ensures { result ≡ method_in text.now }
{
    if is_text(text, b"aka") {
        return Some(Method::Aka);
    }
    if is_text(text, b"prime") {
        return Some(Method::Prime);
    }
    None
}

/// Whether two fields are the names of a session of a method.
fn are_names(method: Method, sname: &[u8], pname: &[u8]) -> bool
    ensures { result ≡ are_names method sname.now pname.now }
{
    match method {
        Method::Aka => is_text(sname, b"-") && is_text(pname, b"-"),
        Method::Prime => true,
    }
}

/// Whether names and an identity are those of a session of a method, and options are letters or none.
fn are_fit(method: Method, sname: &[u8], pname: &[u8], options: &[u8], identity: &[u8]) -> bool
    ensures { result ≡ (are_names method sname.now pname.now && are_options options.now && is_identity identity.now) }
{
    are_names(method, sname, pname)
        && (is_text(options, b"-") || has_letters(options))
        && is_identity(identity)
}

/// Whether a field says which identity the peer gives first.
fn is_identity(text: &[u8]) -> bool
    ensures { result ≡ is_identity text.now }
{
    is_text(text, b"held") || is_text(text, b"permanent") || (!text.is_empty() && text[0] == b'=')
}

/// The server's name of the network.
fn read_name(alloc: Global, method: Method, sname: &[u8]) -> Result<Octets, NoMemory>
    ensures { IfOk result (λ name. name ≡ name_in method sname.now) }
{
    match method {
        Method::Aka => Ok(Octets::new(alloc)),
        Method::Prime => Octets::copied_from(alloc, sname),
    }
}

/// The name of the network that the peer expects, if it compares names.
fn read_peer_name(alloc: Global, method: Method, pname: &[u8]) -> Result<Option<Octets>, NoMemory>
    ensures { IfOk result (λ name. name ≡ peer_name_in method pname.now) }
{
    match method {
        Method::Aka => Ok(None),
        Method::Prime if is_text(pname, b"*") => Ok(None),
        Method::Prime => Ok(Some(Octets::copied_from(alloc, pname)?)),
    }
}

/// The identity that the peer gives first.
fn read_identity(alloc: Global, text: &[u8]) -> Result<Identity, NoMemory>
    ensures { IfOk result (λ identity. identity ≡ identity_in text.now) }
{
    if is_text(text, b"held") {
        return Ok(Identity::Held);
    }
    if is_text(text, b"permanent") {
        return Ok(Identity::Permanent);
    }
    match text {
        [] => Ok(Identity::Text(Octets::new(alloc))),
        [_, behind @ ..] => Ok(Identity::Text(Octets::copied_from(alloc, behind)?)),
    }
}

/// What the fields `T END P` say.
pub fn read_deliver(fields: &[u8]) -> Result<Line, ScriptWhy>
    ensures value { result ≡ deliver_of (words_of fields.now) }
    ensures line { (rows : List Row) → IfOk result (IsLine rows) }
{
    let (session, end, packet) = three_fields(fields)?;
    let session = read_session_number(session)?;
    let end = read_end(end)?;
    let packet = read_number(packet, 0, LAST_PACKET)?;
    Ok(Line::Deliver {
        session,
        end,
        packet: packet as u32,
    })
}

/// What the fields `T END` say.
pub fn read_give_up(fields: &[u8]) -> Result<Line, ScriptWhy>
    ensures value { result ≡ give_up_of (words_of fields.now) }
    ensures line { (rows : List Row) → IfOk result (IsLine rows) }
{
    let (session, end) = two_fields(fields)?;
    let session = read_session_number(session)?;
    let end = read_end(end)?;
    Ok(Line::GiveUp { session, end })
}

/// The number of a session that the one field of a line is.
pub fn read_one_number(fields: &[u8]) -> Result<u32, ScriptWhy>
    ensures value { result ≡ number_of_session (words_of fields.now) }
    ensures within { IfOk result IsSession }
{
    read_session_number(one_field(fields)?)
}

/// The number of a session that a field is.
fn read_session_number(text: &[u8]) -> Result<u32, ScriptWhy>
    ensures value { result ≡ number_between 1 last_session text.now }
    ensures within { IfOk result IsSession }
{
    Ok(read_number(text, 1, LAST_SESSION)? as u32)
}
