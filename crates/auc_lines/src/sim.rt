//! Lines for sessions of EAP-SIM.

use crate::part::End;
use auc_memory::Items;
use std::marker::Model;

/// A packet of a session reaches an end. Its number counts the packets of the line from 1.
#[derive(Clone, Copy)]
pub struct SimDelivery {
    /// The end that receives it.
    pub end: End,
    /// The packet.
    pub packet: u32,
}

/// Which packets of a session reach which end.
#[derive(Drop)]
pub enum SimSchedule {
    /// Each packet is delivered once to the other end, until one makes none.
    Plain,
    /// These are, in this order: 1 to 200.
    Steps(Items<SimDelivery>),
}

/// A session of EAP-SIM (RFC 4186) of the subscriber at a place. Contracts see a `SimValue` (`specs/Sim`).
#[derive(Drop)]
pub struct SimLine {
    sub: u32,
    count: u32,
    schedule: SimSchedule,
}

impl Model for SimLine {
    ghost use Rattle.auc_lines.specs.Sim.{IsSimValue, SimValue};

    ghost Value = { SimValue };

    ghost view = { λ l. record { sub = l.sub; count = l.count; schedule = l.schedule } };

    ghost invariant = { λ l. IsSimValue (record { sub = l.sub; count = l.count; schedule = l.schedule }) };
}

impl SimLine {
    ghost use Rattle.std.specs.Prelude.{◌≡◌, ◌≤◌};
    ghost use Rattle.auc_lines.specs.Sim.{IsSchedule};

    /// A session with 2 or 3 triplets, and its deliveries.
    pub fn new(sub: u32, count: u32, schedule: SimSchedule) -> SimLine
        requires count { (2 ≤ count) × (count ≤ 3) }
        requires schedule { IsSchedule schedule }
        ensures { result ≡ record { sub = sub; count = count; schedule = schedule } }
    {
        SimLine {
            sub,
            count,
            schedule,
        }
    }

    /// The subscriber, by its place.
    pub fn sub(&self) -> u32
        ensures { result ≡ self.now.sub }
    {
        self.sub
    }

    /// How many triplets the server challenges with, and so how many vectors it asks for.
    pub fn count(&self) -> u32
        ensures value { result ≡ self.now.count }
        ensures least { 2 ≤ result }
        ensures most { result ≤ 3 }
    {
        self.count
    }

    /// The deliveries.
    pub fn schedule(&self) -> &SimSchedule
        ensures value { result.now ≡ self.now.schedule }
        ensures few { IsSchedule result.now }
    {
        &self.schedule
    }
}
