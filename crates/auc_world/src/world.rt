//! A job's network, with the devices of its subscribers.

ghost use Rattle.std.specs.Prelude.{◌≡◌, ◌≤◌, ◌<◌, ◌++◌, ℕ, [], Some, None, length, map, IfOk, IfErr, IfSome, OnErr, OnOk, is_some, true, vec_capacity, vec_len};
ghost use Rattle.auc_world.specs.Came.{came_changed, came_in, came_opened, session_of, vector_sent};
ghost use Rattle.auc_record.specs.Event.{asked_in};
ghost use Rattle.auc_world.specs.Happened.{Delivery, at_session, delivery_at, opened, with_copy};
ghost use Rattle.auc_world.specs.InnerWorld.{Answers, HasPlace, IsReached, IsUnreached, ServesPacket, came_of, copy_by, net_of, number_after, released_for};
ghost use Rattle.auc_world.specs.Net.{device_place, packet_at, posted, session_place};
ghost use Rattle.auc_lines.specs.Part.{IsShortIdentity};
ghost use Rattle.auc_lines.specs.declared.part.End.TheVariants as end;
ghost use Rattle.auc_peer.specs.Subscription.{subscription_of};
ghost use Rattle.auc_server.specs.Steps.{OnlyAsks};
ghost use Rattle.auc_subs.specs.Subscriber.{AreSubscribers};
ghost use Rattle.auc_world.specs.Sessions.{job_sessions};
ghost use Rattle.auc_record.specs.declared.event.NoteStep.TheVariants as did;
ghost use Rattle.auc_world.specs.World.{Applies, AreHomes, AreOfSame, Challenges, IsKnownEvent, IsName, RememberPasts, usim_of};

use crate::acting::{Came, Deed, act, note};
use crate::changing::{Change, change_packet};
use crate::inputs::judged;
use crate::net::{SentPacket, Session};
use crate::opening::{add_session, new_session};
use crate::places::{DevicePlaces, places};
use crate::posting::{make_place, post};
use crate::turning::{Served, Taken, answer, keys_won, serve};
use crate::verdicts::job_verdicts;
use auc_lines::{End, SessionLine};
use auc_memory::NoMemory;
use auc_peer::{Challenge, Device};
use auc_record::{Breach, Event, JobSessions, Note, NoteStep, WorldRefusal};
use auc_released::Number;
use auc_server::{Challenged, HomeRow, Setting};
use auc_usim::Answer;
use auc_vector::{Centre, NumberNote, Vector};
use indexmap::IndexMap;
use std::alloc::Global;
use std::marker::Model;
use std::sync::Wait;

/// The subscribers whose USIMs a job holds, with the ordinals of their names and their contexts.
pub type HomeList = Vec<HomeRow>;

/// Their devices, in the same order.
pub type DeviceList = Vec<Device>;

/// A job's network, with the devices of its subscribers. Contracts see its `WorldState`.
#[derive(Drop)]
pub struct World {
    packets: Vec<SentPacket>,
    sessions: IndexMap<u32, Session>,
    released: Vec<Number>,
    homes: HomeList,
    devices: DeviceList,
    places: DevicePlaces,
    broken: Option<Breach>,
}

impl Model for World {
    ghost use Rattle.indexmap.specs.IndexMap.{get, keys, values};
    ghost use Rattle.auc_world.specs.InnerWorld.{IsKept, is_key, state_of};
    ghost use Rattle.auc_world.specs.World.{WorldState};

    ghost Value = { WorldState };

    ghost view = { λ w. state_of w.packets.items (values w.sessions) w.released.items w.homes.items w.broken w.devices.items };

    ghost invariant = { λ w. IsKept (keys w.sessions) (get is_key w.places)
        (state_of w.packets.items (values w.sessions) w.released.items w.homes.items w.broken w.devices.items) };
}

impl World {
    /// A network in which nothing has happened.
    pub fn new(alloc: Global, homes: HomeList, devices: DeviceList) -> Result<World, NoMemory>
        ensures { IfOk result (λ w. w ≡ record {
          net = record {
            packets = [];
            sessions = [];
            released = [];
            homes = homes.items;
            devices = map subscription_of devices.items;
            stores = map (λ device. device.store) devices.items;
            broken = None;
          };
          devices = devices.items;
        }) }
    {
        let places = places(alloc, &devices)?;
        Ok(World {
            packets: Vec::new(alloc),
            sessions: IndexMap::new(alloc),
            released: Vec::new(alloc),
            homes,
            devices,
            places,
            broken: None,
        })
    }

    /// The homes and the devices as they stand.
    pub fn parts(self) -> (HomeList, DeviceList)
        ensures homes { result.0.items ≡ self.net.homes }
        ensures devices { result.1.items ≡ self.devices }
        ensures stores { map (λ device. device.store) result.1.items ≡ self.net.stores }
    {
        let World { homes, devices, .. } = self;
        (homes, devices)
    }

    /// What the sessions of the job came to.
    pub fn sessions(&self, alloc: Global) -> Result<JobSessions, NoMemory>
        ensures { IfOk result (λ sessions. sessions ≡ job_sessions self.now.net) }
    {
        Ok(JobSessions {
            verdicts: job_verdicts(alloc, &self.sessions)?,
            any: self.sessions.len() > 0,
            broken: self.broken,
        })
    }

    /// The place of a subscriber's device, if it is there.
    fn device_of(&self, set: &Setting, sub: u32) -> Option<u32>
        requires { sub < length set.now.rows }
        ensures { result ≡ device_place set.now.rows self.now.net.devices sub }
    {
        let key = set.subs.row(sub).imsi.key();
        self.places.get(&key).copied()
    }

    /// Challenges the USIM of a subscriber whose device is there (TS 33.102 §6.3.3).
    pub fn challenge(&mut self, set: &Setting, sub: u32, rand: [u8; 16], autn: [u8; 16]) -> Answer
        requires subscribers { AreSubscribers set.now.rows }
        requires known { sub < length set.now.rows }
        requires own { is_some (usim_of set.now.rows self.old sub) ≡ true }
        ensures answer { Challenges (usim_of set.now.rows self.old) sub rand autn result
            (usim_of set.now.rows self.new) }
        ensures net { self.new.net ≡ self.old.net }
    {
        let Some(place) = self.device_of(set, sub) else {
            unreachable!()
        };
        let device = &mut self.devices[place as usize];
        device.ask(Challenge { rand, autn })
    }

    /// Makes an event happen (RFC 4187 §3). A packet stays where it was sent, and may be delivered again. If memory runs
    /// out, the network with its homes, the devices and the centre stay as they were.
    pub fn apply<C: Centre, R: Wait>(
        &mut self,
        rt: &R,
        alloc: Global,
        set: &Setting,
        centre: &mut C,
        event: &Event,
    ) -> Result<Result<Note, WorldRefusal>, NoMemory>
        requires known { IsKnownEvent (length set.now.rows) event.now }
        requires homes { AreHomes set.now.rows (C.subs centre.old) (C.top centre.old) self.old.net.homes }

        ensures applied { IfOk result (λ came. RememberPasts self.old.devices
            → Applies C.goes C.kept C.top set.now self.old event.now centre.old self.new came centre.new) }
        ensures asked { IfOk result (λ came. IfSome (asked_in came) (λ sub. sub < length set.now.rows)) }
        ensures homes { AreOfSame self.old.net.homes self.new.net.homes }
        ensures devices { self.new.net.devices ≡ self.old.net.devices }
        ensures subs { C.subs centre.new ≡ C.subs centre.old }
        ensures top { (i : ℕ) → C.top centre.new i ≡ C.top centre.old i }
        ensures name { C.name centre.new ≡ C.name centre.old }

        ensures world { OnErr result (self.new ≡ self.old) }
        ensures centre { OnErr result (centre.new ≡ centre.old) }
    {
        match *event {
            Event::Open(ref opening) => self.open(alloc, set, opening),
            Event::Start(session) => self.act(alloc, session, Deed::Start),
            Event::Repeat(session) => self.act(alloc, session, Deed::Repeat),
            Event::GiveUp { session, end } => self.act(alloc, session, Deed::GiveUp(end)),
            Event::Tamper {
                packet,
                place,
                byte,
            } => self.change(alloc, packet, Change::Byte { place, byte }),
            Event::Cut { packet, length } => self.change(alloc, packet, Change::Cut(length)),
            Event::Deliver {
                session,
                end,
                packet,
            } => match (self.reached(session, packet), end) {
                (Err(why), _) => Ok(Err(why)),
                (Ok(place), End::Server) => self.to_server(rt, alloc, set, centre, place, packet),
                (Ok(place), End::Peer) => self.to_peer(alloc, set, place, packet),
            },
        }
    }

    /// Opens a session at a subscriber's device.
    fn open(
        &mut self,
        alloc: Global,
        set: &Setting,
        opening: &SessionLine,
    ) -> Result<Came, NoMemory>
        requires known { opening.now.sub < length set.now.rows }
        requires name { IsName opening.now.name }
        requires identity { IsShortIdentity opening.now.identity }
        ensures came { IfOk result (λ came. came ≡ came_opened (session_place self.old.net.sessions opening.now.session) (device_place set.now.rows self.old.net.devices opening.now.sub)) }
        ensures opened { IfOk result (λ _. self.new ≡ record self.old { net = opened self.old.net opening.now (session_place self.old.net.sessions opening.now.session) (device_place set.now.rows self.old.net.devices opening.now.sub) }) }
        ensures kept { OnErr result (self.new ≡ self.old) }
    {
        if self.sessions.get_index_of(&opening.session).is_some() {
            return Ok(Err(WorldRefusal::Started));
        }
        let Some(device) = self.device_of(set, opening.sub) else {
            return Ok(Err(WorldRefusal::NoSuchEnd));
        };
        let opened = new_session(alloc, opening, device)?;
        add_session(&mut self.sessions, opening.session, opened)?;
        Ok(Ok(note(NoteStep::Opened, None)))
    }

    /// Does in a session what one of its ends does by itself.
    fn act(&mut self, alloc: Global, session: u32, deed: Deed) -> Result<Came, NoMemory>
        ensures came { IfOk result (λ came. came ≡ came_in (came_of self.old.net deed) (session_of self.old.net session)) }
        ensures acted { IfOk result (λ _. self.new ≡ record self.old { net = at_session self.old.net session (net_of self.old.net deed) }) }
        ensures kept { OnErr result (self.new ≡ self.old) }
    {
        let Some(place) = self.sessions.get_index_of(&session) else {
            return Ok(Err(WorldRefusal::NoSuchEnd));
        };
        let came = act(alloc, &mut self.packets, &mut self.sessions[place], deed)?;
        Ok(came)
    }

    /// Makes a changed copy of a packet.
    fn change(&mut self, alloc: Global, packet: u32, change: Change) -> Result<Came, NoMemory>
        ensures came { IfOk result (λ came. came ≡ came_changed self.old.net.packets (packet_at self.old.net.packets packet)
            (copy_by change (packet_at self.old.net.packets packet))) }
        ensures made { IfOk result (λ _. self.new
            ≡ record self.old { net = with_copy self.old.net (copy_by change (packet_at self.old.net.packets packet)) }) }
        ensures kept { OnErr result (self.new ≡ self.old) }
    {
        change_packet(alloc, &mut self.packets, packet, change)
    }

    /// The place of the session that a packet reaches. The packet is looked for first.
    fn reached(&self, session: u32, packet: u32) -> Result<usize, WorldRefusal>
        ensures place { IfOk result (λ place. session_place self.now.net.sessions session ≡ Some place) }
        ensures reached { IfOk result (λ place. IsReached self.now.net place packet) }
        ensures refused { IfErr result (IsUnreached self.now.net session packet) }
    {
        if packet == 0 || self.packets.len() < packet as usize {
            return Err(WorldRefusal::NoSuchPacket);
        }
        match self.sessions.get_index_of(&session) {
            Some(place) => Ok(place),
            None => Err(WorldRefusal::NoSuchEnd),
        }
    }

    /// Delivers a packet to the server of the session at a place.
    fn to_server<C: Centre, R: Wait>(
        &mut self,
        rt: &R,
        alloc: Global,
        set: &Setting,
        centre: &mut C,
        place: usize,
        packet: u32,
    ) -> Result<Came, NoMemory>
        requires homes { AreHomes set.now.rows (C.subs centre.old) (C.top centre.old) self.old.net.homes }
        requires reached { IsReached self.old.net place packet }

        ensures served { IfOk result (λ came. (d : Delivery) → delivery_at self.old.net packet (Some place) ≡ Some d
            → ServesPacket C.goes C.kept C.top set.now self.old d centre.old self.new came centre.new) }
        ensures asked { IfOk result (λ came. IfSome (asked_in came) (λ sub. sub < length set.now.rows)) }
        ensures homes { AreOfSame self.old.net.homes self.new.net.homes }
        ensures devices { self.new.net.devices ≡ self.old.net.devices }
        ensures only { OnlyAsks C.subs C.top C.name centre.old centre.new }

        ensures world { OnErr result (self.new ≡ self.old) }
        ensures centre { OnErr result (centre.new ≡ centre.old) }
    {
        make_places(&mut self.packets, &mut self.released)?;
        let session = &mut self.sessions[place];
        let delivery = Breach {
            session: session.number,
            end: End::Server,
            packet,
        };
        let Some(server) = &mut session.server else {
            return Ok(Err(WorldRefusal::NoSuchEnd));
        };
        let near = packet as usize - 1;
        let bytes = self.packets[near].bytes.as_slice();
        let homes = &mut self.homes;
        let served = serve(rt, alloc, set, homes, centre, server, bytes)?;
        let notes = served.turn.notes;
        let asked = server.asked(set, self.homes.as_slice(), notes);
        let vector = vector_sent(notes.number, server.challenged());
        self.broken = judged(
            &self.packets,
            self.broken,
            served.turn.checked,
            &served.before,
            bytes,
            delivery,
        );
        release(&mut self.released, asked, notes.number);
        Ok(Ok(post_served(&mut self.packets, served, asked, vector)))
    }

    /// Delivers a packet to the peer of the session at a place, at its subscriber's device.
    fn to_peer(
        &mut self,
        alloc: Global,
        set: &Setting,
        place: usize,
        packet: u32,
    ) -> Result<Came, NoMemory>
        requires { IsReached self.old.net place packet }
        ensures answered { IfOk result (λ came. RememberPasts self.old.devices → (d : Delivery)
            → delivery_at self.old.net packet (Some place) ≡ Some d → Answers set.now self.old d self.new came) }
        ensures asked { IfOk result (λ came. asked_in came ≡ None) }
        ensures homes { self.new.net.homes ≡ self.old.net.homes }
        ensures devices { self.new.net.devices ≡ self.old.net.devices }
        ensures world { OnErr result (self.new ≡ self.old) }
    {
        make_place(&mut self.packets)?;
        let session = &mut self.sessions[place];
        let delivery = Breach {
            session: session.number,
            end: End::Peer,
            packet,
        };
        let Some(device) = self.devices.get_mut(session.device as usize) else {
            return Ok(Err(WorldRefusal::NoSuchEnd));
        };
        let near = packet as usize - 1;
        let bytes = self.packets[near].bytes.as_slice();
        let sub = session.sub;
        let peer = &mut session.peer;
        let taken = answer(alloc, set.rands, device, sub, peer, bytes)?;
        session.peer_keys = keys_won(session.peer_keys, &taken.turn.step);
        self.broken = judged(
            &self.packets,
            self.broken,
            taken.turn.checked,
            &taken.inputs,
            bytes,
            delivery,
        );
        Ok(Ok(post_taken(&mut self.packets, taken, sub)))
    }
}

/// The vector that was released: that of the challenge that a server sent, if a number was drawn.
fn vector_sent(drawn: Option<NumberNote>, challenged: Option<Challenged>) -> Option<Vector>
    ensures { result ≡ vector_sent drawn challenged }
{
    match (drawn, challenged) {
        (Some(NumberNote::Drew(_)), Some(sent)) => Some(sent.vector),
        _ => None,
    }
}

/// Makes a place for one more packet, and one for a number that is released.
fn make_places(packets: &mut Vec<SentPacket>, released: &mut Vec<Number>) -> Result<(), NoMemory>
    ensures packets { packets.new.items ≡ packets.old.items }
    ensures released { released.new.items ≡ released.old.items }
    ensures place { OnOk result (HasPlace packets.new) }
    ensures room { OnOk result (vec_len released.new < vec_capacity released.new) }
{
    make_place(packets)?;
    released.reserve(1)?;
    Ok(())
}

/// Posts what a server's turn sent, and notes the turn. There is a place for the packet.
fn post_served(
    packets: &mut Vec<SentPacket>,
    served: Served,
    asked: Option<u32>,
    vector: Option<Vector>,
) -> Note
    requires { HasPlace packets.old }
    ensures posted { packets.new.items ≡ posted packets.old.items end.Server served.inputs served.sent }
    ensures note { result ≡ record { notes = served.turn.notes; step = did.Server served.turn.step; packet = number_after packets.old.items served.sent; asked = asked; device = None; vector = vector } }
{
    let Served {
        turn,
        inputs,
        sent,
        ..
    } = served;
    Note {
        notes: turn.notes,
        step: NoteStep::Server(turn.step),
        packet: post(packets, End::Server, inputs, sent),
        asked,
        device: None,
        vector,
    }
}

/// Posts what a peer's turn sent, and notes the turn. There is a place for the packet.
fn post_taken(packets: &mut Vec<SentPacket>, taken: Taken, sub: u32) -> Note
    requires { HasPlace packets.old }
    ensures posted { packets.new.items ≡ posted packets.old.items end.Peer taken.inputs taken.sent }
    ensures note { result ≡ record { notes = taken.turn.notes; step = did.Peer taken.turn.step; packet = number_after packets.old.items taken.sent; asked = None; device = Some sub; vector = None } }
{
    let Taken { turn, inputs, sent } = taken;
    Note {
        notes: turn.notes,
        step: NoteStep::Peer(turn.step),
        packet: post(packets, End::Peer, inputs, sent),
        asked: None,
        device: Some(sub),
        vector: None,
    }
}

/// Notes the number that was drawn for a subscriber, if one was. There is a place for it.
fn release(released: &mut Vec<Number>, asked: Option<u32>, drawn: Option<NumberNote>)
    requires { vec_len released.old < vec_capacity released.old }
    ensures { released.new.items ≡ released.old.items ++ released_for asked drawn }
{
    let (Some(sub), Some(NumberNote::Drew(n))) = (asked, drawn) else {
        return;
    };
    released.push_reserved(Number { sub, n });
}
