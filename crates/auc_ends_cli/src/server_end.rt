//! A server with what it is served with.

ghost use Rattle.std.specs.Prelude.{◌≡◌, ◌≤◌, ◌<◌, [], ◌∷◌, All, IfOk, length};
ghost use Rattle.auc_server.specs.Steps.{IsHome, IsServed};
ghost use Rattle.auc_subs.specs.Subscriber.{top_at};

use crate::text::Text;
use crate::turn::{put_sent, put_server_step, put_server_turn};
use auc_core::Core;
use auc_ident::{Names, Ordinals};
use auc_memory::{NoMemory, Octets};
use auc_random::Rands;
use auc_reauth::ServerStore;
use auc_server::{HomeRow, Server, ServerOptions, Setting};
use auc_sqn::top;
use auc_subs::Subscribers;
use auc_vector::Centre;
use std::alloc::Global;
use std::marker::Model;
use std::sync::Wait;

/// The subscriber of IMSI 001010000000001, with K and OPc of TS 35.208 §4.3, test set 1.
const SUBSCRIBER: &[u8] =
    b"001010000000001 465b5ce8b199b49faa5f0a2ee238a6bc opc cd63cb71954a9f4e48a5994e37a02baf 8000 0 0";

/// A server with what it is served with.
#[derive(Drop)]
pub struct ServerEnd<C: Centre> {
    subs: Subscribers,
    rands: Rands,
    names: Names,
    homes: Vec<HomeRow>,
    centre: C,
    server: Server,
    sessions: u32,
}

impl<C: Centre> Model for ServerEnd<C> {
    ghost Value = { Unit {0} };

    ghost view = { λ _. tt };

    ghost invariant = { λ w. IsServed w.subs (C.subs w.centre) (C.top w.centre) w.homes.items w.server };
}

impl<C: Centre + Drop> ServerEnd<C> {
    /// A server of the subscriber, which is held or not. Its first request is printed.
    pub fn begin(
        alloc: Global,
        options: ServerOptions,
        subs: Subscribers,
        centre: C,
        is_held: bool,
        text: &mut Text,
    ) -> Result<ServerEnd<C>, NoMemory>
        requires name { length options.name ≤ 255 }
        requires listed { 0 < length subs }
        requires known { 0 < C.subs centre }
        requires top { C.top centre 0 ≡ top_at subs 0 }
    {
        let homes = homes_of(alloc, &subs, &centre, is_held)?;
        let started = Server::start(options, alloc)?;
        Ok(ServerEnd::of(subs, homes, centre, started, text))
    }

    /// A server that has started with a first request, which is printed.
    fn of(
        subs: Subscribers,
        homes: Vec<HomeRow>,
        centre: C,
        started: (Server, Octets),
        text: &mut Text,
    ) -> ServerEnd<C>
        requires { IsServed subs (C.subs centre) (C.top centre) homes.items started.0 }
    {
        let (server, first) = started;
        put_sent(first.as_slice(), text);
        ServerEnd {
            subs,
            rands: Rands::new(random_key()),
            names: Names::new(random_key()),
            homes,
            centre,
            server,
            sessions: 1,
        }
    }

    /// The number of the next session.
    pub fn next_session(&self) -> u32 {
        self.sessions.wrapping_add(1)
    }

    /// The next session begins. Its first request is printed.
    pub fn next(&mut self, alloc: Global, options: ServerOptions, text: &mut Text)
        requires { length options.name ≤ 255 }
    {
        let session = options.session;
        match Server::start(options, alloc) {
            Ok((server, first)) => {
                self.sessions = session;
                self.server = server;
                put_sent(first.as_slice(), text);
            }
            Err(NoMemory) => text.fail(),
        }
    }

    /// Receives bytes.
    pub fn receive<R: Wait>(&mut self, rt: &R, bytes: &[u8], text: &mut Text) {
        let set = Setting {
            subs: &self.subs,
            rands: &self.rands,
            names: &self.names,
            realm: &[],
        };
        let homes = self.homes.as_mut_slice();
        match self
            .server
            .on_bytes(rt, &set, homes, &mut self.centre, bytes)
        {
            Ok(turn) => put_server_turn(&turn, text),
            Err(NoMemory) => text.fail(),
        }
    }

    /// The server repeats its last request.
    pub fn repeat(&self, text: &mut Text) {
        match self.server.repeat() {
            Ok(step) => put_server_step(&step, text),
            Err(NoMemory) => text.fail(),
        }
    }

    /// The server gives up.
    pub fn give_up(&mut self, text: &mut Text) {
        let step = self.server.give_up();
        put_server_step(&step, text);
    }
}

/// The subscriber.
pub fn subscriber(alloc: Global) -> Result<Subscribers, NoMemory>
    ensures { IfOk result (λ subs. 0 < length subs) }
{
    let mut subs = Subscribers::new(alloc);
    match subs.add(SUBSCRIBER) {
        Ok(_) if subs.len() > 0 => Ok(subs),
        _ => Err(NoMemory),
    }
}

/// The numbers of the subscriber, the last one of which is a word, or its greatest number if that is less.
pub fn core_of(alloc: Global, subs: &Subscribers, word: u64) -> Result<Core, NoMemory>
    requires { 0 < length subs.now }
    ensures words { IfOk result (λ core. length core.words ≡ 1) }
    ensures tops { IfOk result (λ core. core.tops ≡ top_at subs.now 0 ∷ []) }
{
    let greatest = top(subs.row(0).bits);
    Core::new(alloc, &[word.min(greatest)], &[greatest])
}

/// The home of the subscriber, which is also one of the centre, if it is held.
fn homes_of<C: Centre>(
    alloc: Global,
    subs: &Subscribers,
    centre: &C,
    is_held: bool,
) -> Result<Vec<HomeRow>, NoMemory>
    requires listed { 0 < length subs.now }
    requires known { 0 < C.subs centre.now }
    requires top { C.top centre.now 0 ≡ top_at subs.now 0 }
    ensures { IfOk result (λ homes.
        All (λ home. IsHome subs.now (C.subs centre.now) (C.top centre.now) home.sub) homes.items) }
{
    let mut homes = Vec::new(alloc);
    if is_held {
        homes.push(HomeRow {
            sub: 0,
            ordinals: Ordinals::at(0),
            store: ServerStore::new(),
        })?;
    }
    Ok(homes)
}

/// The key 00 01 .. 1f of the random bytes.
pub fn random_key() -> [u8; 32] {
    let mut key = [0; 32];
    for i in 0..32 {
        key[i] = i as u8;
    }
    key
}
