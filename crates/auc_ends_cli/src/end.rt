//! The end that lines speak of.

ghost use Rattle.std.specs.Prelude.{◌≤◌, length, IfOk};
ghost use Rattle.auc_peer.specs.Identities.{IsShortFirst};
ghost use Rattle.auc_sqn.specs.Number.{top_of};

use crate::peer_end::{BITS, PeerEnd};
use crate::server_end::{ServerEnd, core_of, subscriber};
use crate::sim_end::{SimPeerEnd, SimServerEnd};
use crate::text::Text;
use auc_hmac::Method;
use auc_memory::{NoMemory, Octets};
use auc_peer::{FirstIdentity, PeerOptions};
use auc_server::ServerOptions;
use auc_sqn::top;
use auc_vector::CoreCentre;
use std::alloc::{AllocError, Global};
use std::sync::Wait;

/// The end of a session that lines speak of.
#[derive(Drop)]
pub enum End {
    /// None so far.
    Neither,
    /// A server.
    Server(ServerEnd<CoreCentre>),
    /// A peer.
    Peer(PeerEnd),
    /// A server of EAP-SIM.
    SimServer(SimServerEnd),
    /// A peer of EAP-SIM.
    SimPeer(SimPeerEnd),
}

/// What is printed of a line that is none of those above.
const NOT_UNDERSTOOD: &str = "not understood";

/// The first word of a line.
enum First {
    Remark,
    Server,
    Peer,
    SimServer,
    SimPeer,
    Next,
    Bytes,
    Repeat,
    GiveUp,
    Unknown,
}

fn first_of(word: &str) -> First {
    match word {
        "#" => First::Remark,
        "server" => First::Server,
        "peer" => First::Peer,
        "simserver" => First::SimServer,
        "simpeer" => First::SimPeer,
        "next" => First::Next,
        "bytes" => First::Bytes,
        "repeat" => First::Repeat,
        "giveup" => First::GiveUp,
        _ => First::Unknown,
    }
}

/// A text up to its first space and after it.
fn halves(text: &str) -> (&str, &str) {
    text.split_once(' ').unwrap_or((text, ""))
}

impl End {
    /// What is printed of a line.
    pub fn answer<R: Wait>(
        &mut self,
        rt: &R,
        alloc: Global,
        line: &str,
    ) -> Result<String, AllocError> {
        let mut text = Text::new(alloc);
        self.put_answer(rt, alloc, line, &mut text);
        text.whole()
    }

    fn put_answer<R: Wait>(&mut self, rt: &R, alloc: Global, line: &str, text: &mut Text) {
        let (word, rest) = halves(line);
        match first_of(word) {
            First::Remark => text.put(line),
            First::Server => self.begin_server(alloc, rest, text),
            First::Peer => self.begin_peer(alloc, rest, text),
            First::SimServer => self.begin_sim_server(alloc, rest, text),
            First::SimPeer => self.begin_sim_peer(alloc, rest, text),
            First::Next => self.begin_next(alloc, rest, text),
            First::Bytes => self.receive_digits(rt, alloc, rest, text),
            First::Repeat => self.repeat(text),
            First::GiveUp => self.give_up(alloc, text),
            First::Unknown => text.put(NOT_UNDERSTOOD),
        }
    }

    fn begin_server(&mut self, alloc: Global, rest: &str, text: &mut Text) {
        match rest.split_once(' ') {
            Some((word, rest)) => {
                let (held, options) = halves(rest);
                let server = new_server(alloc, number(word), held == "held", options, text);
                self.set(server, text);
            }
            None => text.put(NOT_UNDERSTOOD),
        }
    }

    fn begin_peer(&mut self, alloc: Global, rest: &str, text: &mut Text) {
        let (word, options) = halves(rest);
        text.put("peer");
        self.set(new_peer(alloc, number(word), options), text);
    }

    fn begin_sim_server(&mut self, alloc: Global, rest: &str, text: &mut Text) {
        let (word, count) = halves(rest);
        match SimServerEnd::begin(alloc, number(word), count == "3", text) {
            Ok(server) => *self = End::SimServer(server),
            Err(NoMemory) => text.fail(),
        }
    }

    fn begin_sim_peer(&mut self, alloc: Global, rest: &str, text: &mut Text) {
        match SimPeerEnd::begin(alloc, number(rest)) {
            Ok(peer) => {
                text.put("peer");
                *self = End::SimPeer(peer);
            }
            Err(NoMemory) => text.fail(),
        }
    }

    fn set(&mut self, end: Result<End, NoMemory>, text: &mut Text) {
        match end {
            Ok(end) => *self = end,
            Err(NoMemory) => text.fail(),
        }
    }

    fn begin_next(&mut self, alloc: Global, options: &str, text: &mut Text) {
        match self {
            End::Neither => text.put(NOT_UNDERSTOOD),
            End::Server(server) => {
                match server_options(alloc, server.next_session(), options) {
                    Ok(options) => server.next(alloc, options, text),
                    Err(NoMemory) => text.fail(),
                }
            }
            End::Peer(peer) => match peer_options(alloc, peer.next_session(), options) {
                Ok(options) => {
                    peer.next(alloc, options);
                    text.put("peer");
                }
                Err(NoMemory) => text.fail(),
            },
            End::SimServer(server) => server.next(alloc, text),
            End::SimPeer(peer) => peer.next(alloc, text),
        }
    }

    fn receive_digits<R: Wait>(&mut self, rt: &R, alloc: Global, digits: &str, text: &mut Text) {
        match hex::decode(alloc, digits) {
            Ok(bytes) => self.receive(rt, alloc, bytes.as_slice(), text),
            Err(hex::FromHexError::OutOfMemory) => text.fail(),
            Err(_) => text.put(NOT_UNDERSTOOD),
        }
    }

    fn receive<R: Wait>(&mut self, rt: &R, alloc: Global, bytes: &[u8], text: &mut Text) {
        match self {
            End::Neither => text.put(NOT_UNDERSTOOD),
            End::Server(server) => server.receive(rt, bytes, text),
            End::Peer(peer) => peer.receive(alloc, bytes, text),
            End::SimServer(server) => server.receive(alloc, bytes, text),
            End::SimPeer(peer) => peer.receive(alloc, bytes, text),
        }
    }

    fn repeat(&self, text: &mut Text) {
        match self {
            End::Server(server) => server.repeat(text),
            _ => text.put(NOT_UNDERSTOOD),
        }
    }

    fn give_up(&mut self, alloc: Global, text: &mut Text) {
        match self {
            End::Neither | End::SimServer(_) | End::SimPeer(_) => text.put(NOT_UNDERSTOOD),
            End::Server(server) => server.give_up(text),
            End::Peer(peer) => peer.give_up(alloc, text),
        }
    }
}

/// A server of the first session, whose subscriber's last number is a word. Its first request is printed.
fn new_server(
    alloc: Global,
    word: u64,
    is_held: bool,
    options: &str,
    text: &mut Text,
) -> Result<End, NoMemory> {
    let subs = subscriber(alloc)?;
    let centre = CoreCentre::new(core_of(alloc, &subs, word)?);
    let options = server_options(alloc, 1, options)?;
    let server = ServerEnd::begin(alloc, options, subs, centre, is_held, text)?;
    Ok(End::Server(server))
}

/// A peer of the first session, whose USIM counts the numbers up to a word as accepted.
fn new_peer(alloc: Global, word: u64, options: &str) -> Result<End, NoMemory>
    requires { word ≤ top_of 5 }
{
    let peer = PeerEnd::begin(alloc, peer_options(alloc, 1, options)?, word)?;
    Ok(End::Peer(peer))
}

/// The first 255 bytes of a text.
fn short(text: &str) -> &[u8]
    ensures { length result.now ≤ 255 }
{
    let bytes = text.as_bytes();
    &bytes[..bytes.len().min(255)]
}

/// The method that the options of an end name, and the first 255 bytes of the network's name.
fn method_and_name(options: &str) -> (Method, &[u8])
    ensures { length result.1.now ≤ 255 }
{
    match options.split_once("prime ") {
        Some((_, name)) => (Method::Prime, short(name)),
        None => (Method::Aka, &[]),
    }
}

/// Whether a word is among the options.
fn has(options: &str, word: &str) -> bool {
    options.split(' ').any(|other| other == word)
}

/// What answers a peer's first Identity request.
fn first_identity(alloc: Global, options: &str) -> Result<FirstIdentity, NoMemory>
    ensures { IfOk result IsShortFirst }
{
    match options.split_once('=') {
        Some((_, rest)) => {
            let (text, _) = halves(rest);
            Ok(FirstIdentity::Text(Octets::copied_from(alloc, short(text))?))
        }
        None if has(options, "permanent") => Ok(FirstIdentity::Permanent),
        None => Ok(FirstIdentity::Held),
    }
}

/// The options of a server.
fn server_options(alloc: Global, session: u32, options: &str) -> Result<ServerOptions, NoMemory>
    ensures { IfOk result (λ options. length options.name ≤ 255) }
{
    let (method, name) = method_and_name(options);
    Ok(ServerOptions {
        session,
        method,
        pseudonym: has(options, "pseudonym"),
        reauth: has(options, "reauth"),
        bidding: has(options, "bidding"),
        any: has(options, "any"),
        name: Octets::copied_from(alloc, name)?,
    })
}

/// The options of a peer.
fn peer_options(alloc: Global, session: u32, options: &str) -> Result<PeerOptions, NoMemory> {
    let (method, name) = method_and_name(options);
    let has_prime = has(options, "hasprime");
    let name = name_of(alloc, method, name)?;
    Ok(PeerOptions {
        session,
        method,
        name,
        has_prime,
        first: first_identity(alloc, options)?,
    })
}

/// The network's name that a peer has, if it has one.
fn name_of(alloc: Global, method: Method, name: &[u8]) -> Result<Option<Octets>, NoMemory> {
    if method == Method::Aka || name == b"*".as_slice() {
        return Ok(None);
    }
    Ok(Some(Octets::copied_from(alloc, name)?))
}

/// A number of a subscriber, or 0 if a text is none.
fn number(text: &str) -> u64
    ensures { result ≤ top_of 5 }
{
    match text.parse::<u64>() {
        Ok(number) if number <= top(BITS) => number,
        _ => 0,
    }
}
