//! The events of a job's sessions, and what came of them.

ghost use Rattle.std.specs.Prelude.{◌≡◌, IfOk};

use crate::copying::{copy_identity, copy_if_any, copy_of};
use auc_lines::{End, SessionLine};
use auc_memory::{NoMemory, Octets};
use auc_vector::{Notes, NumberNote, PeerWhy, ResyncNote, ServerWhy, Step, Vector};
use std::alloc::Global;
use std::marker::Model;

/// An event. A packet's number counts the packets of the job from 1.
#[derive(Drop)]
pub enum Event {
    /// A session is opened with these options, at its subscriber's device.
    Open(SessionLine),
    /// The session's server starts, and sends its first request.
    Start(u32),
    /// A packet reaches an end of the session. It stays there to be delivered again.
    Deliver { session: u32, end: End, packet: u32 },
    /// The session's server sends its last request again.
    Repeat(u32),
    /// An end of the session gives up.
    GiveUp { session: u32, end: End },
    /// The network changes a byte of a copy of a packet: the one at the place, from 0, becomes `byte`.
    Tamper { packet: u32, place: u32, byte: u8 },
    /// The network keeps so many bytes from the front of a copy of a packet, which are fewer than it has.
    Cut { packet: u32, length: u32 },
}

impl Event {
    ghost use Rattle.auc_record.specs.declared.event.Event.TheVariants as event;

    /// The opening of a session, with copies of the names and the identity of its line.
    pub fn open(alloc: Global, line: &SessionLine) -> Result<Event, NoMemory>
        ensures { IfOk result (λ opening. opening ≡ event.Open line.now) }
    {
        Ok(Event::Open(SessionLine {
            session: line.session,
            sub: line.sub,
            method: line.method,
            name: copy_of(alloc, &line.name)?,
            peer_name: copy_if_any(alloc, &line.peer_name)?,
            pseudonym: line.pseudonym,
            reauth: line.reauth,
            bidding: line.bidding,
            any: line.any,
            has_prime: line.has_prime,
            identity: copy_identity(alloc, &line.identity)?,
        }))
    }
}

/// What the end that an event concerns did, or the network.
#[derive(Drop)]
pub enum NoteStep {
    /// The session was opened.
    Opened,
    /// The server did this.
    Server(Step<ServerWhy>),
    /// The peer did this.
    Peer(Step<PeerWhy>),
    /// The network made a packet of these bytes, which may be none.
    Made(Octets),
}

/// What came of an event.
#[derive(Drop)]
pub struct Note {
    /// What the centre and the USIM answered.
    pub notes: Notes,
    /// What the end did, or the network.
    pub step: NoteStep,
    /// The number of the packet that was sent or made, if one was.
    pub packet: Option<u32>,
    /// The subscriber for whom the centre was asked, if it was asked.
    pub asked: Option<u32>,
    /// The subscriber whose device received a packet, if one did.
    pub device: Option<u32>,
    /// The vector that was released, if one was: that of the challenge that the server sent.
    pub vector: Option<Vector>,
}

/// Why nothing came of an event.
#[derive(Clone, Copy)]
pub enum WorldRefusal {
    /// No packet of the job has the number.
    NoSuchPacket,
    /// The session isn't open, or its server hasn't started.
    NoSuchEnd,
    /// The server had started before.
    Started,
    /// The packet has no byte at the place, or no more bytes than are to stay.
    NoSuchPlace,
}

/// An event with what came of it.
#[derive(Drop)]
pub struct EventRecord {
    /// What happened.
    pub event: Event,
    /// What came of it, or why nothing did.
    pub result: Result<Note, WorldRefusal>,
}

impl EventRecord {
    ghost use Rattle.auc_record.specs.Event.{asked_in, event_vector, number_in, resync_in};

    /// The subscriber for whom the centre was asked, if it was asked.
    pub fn asked(&self) -> Option<u32>
        ensures { result ≡ asked_in self.now.result }
    {
        match &self.result {
            Ok(note) => note.asked,
            Err(_) => None,
        }
    }

    /// The vector that was released, if one was.
    pub fn vector(&self) -> Option<Vector>
        ensures { result ≡ event_vector self.now.result }
    {
        match &self.result {
            Ok(note) => note.vector,
            Err(_) => None,
        }
    }

    /// What the centre answered, if it was asked for a number.
    pub fn number_note(&self) -> Option<NumberNote>
        ensures { result ≡ number_in self.now.result }
    {
        match &self.result {
            Ok(note) => note.notes.number,
            Err(_) => None,
        }
    }

    /// What the centre made of a synchronisation failure, if one was reported.
    pub fn resync_note(&self) -> Option<ResyncNote>
        ensures { result ≡ resync_in self.now.result }
    {
        match &self.result {
            Ok(note) => note.notes.resync,
            Err(_) => None,
        }
    }
}

/// The record of an event, in memory of its own, so that other records stay small. Contracts see the record.
#[derive(Drop)]
pub struct BoxedEvent {
    inner: Box<EventRecord>,
}

impl Model for BoxedEvent {
    ghost use Rattle.auc_record.specs.declared.event.EventRecord.{EventRecord};

    ghost Value = { EventRecord };

    ghost view = { λ e. e.inner.value };
}

impl BoxedEvent {
    /// Keeps a record.
    pub fn new(alloc: Global, event: EventRecord) -> Result<BoxedEvent, NoMemory>
        ensures { IfOk result (λ kept. kept ≡ event) }
    {
        Ok(BoxedEvent {
            inner: Box::new(alloc, event)?,
        })
    }

    /// The record.
    pub fn record(&self) -> &EventRecord
        ensures { result.now ≡ self.now }
    {
        &self.inner
    }
}
