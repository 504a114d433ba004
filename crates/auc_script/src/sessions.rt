//! The sessions of a scenario.

ghost use Rattle.std.specs.Prelude.{◌≡◌, ◌<◌, ◌≤◌, ◌+◌, ◌^◌, ◌++◌, ◌&&◌, ℕ, nat_le, false, Ok, length, OnOk};
ghost use Rattle.std.specs.Option.{option_to_list};
ghost use Rattle.auc_script.specs.Numbers.{most_packets, most_sessions};
ghost use Rattle.auc_script.specs.Scenario.{in_order};
ghost use Rattle.auc_script.specs.Session.{is_among, opened_by, packets_by};
ghost use Rattle.auc_script.specs.InnerSoFar.{no_sessions, noted, of_new_job};

use crate::limits::{MAX_PACKETS, MAX_SESSIONS, PACKETS_OF_PLAIN};
use crate::number_set::NumberSet;
use auc_lines::Line;
use auc_memory::NoMemory;
use auc_reading::{ScriptWhy, require};
use std::alloc::Global;
use std::mem::replace;

/// The sessions of the lines so far, by their numbers.
#[derive(Drop)]
pub struct Sessions {
    /// All sessions.
    pub all: NumberSet,
    /// Those that the present job opened.
    pub opened: NumberSet,
    /// Those that it started by a `start` line.
    pub started: NumberSet,
    /// How many packets its lines count for.
    pub packets: u32,
}

impl Sessions {
    /// No sessions.
    pub fn new(alloc: Global) -> Sessions
        ensures { result ≡ no_sessions }
    {
        Sessions {
            all: NumberSet::new(alloc),
            opened: NumberSet::new(alloc),
            started: NumberSet::new(alloc),
            packets: 0,
        }
    }

    /// Begins a job.
    pub fn begin_job(&mut self, alloc: Global)
        ensures { self.new ≡ of_new_job self.old }
    {
        drop(replace(&mut self.opened, NumberSet::new(alloc)));
        drop(replace(&mut self.started, NumberSet::new(alloc)));
        self.packets = 0;
    }

    /// Whether the present job opened the session that a line is of, and the one that it opens or starts is new; else the
    /// cause.
    pub fn order(&self, line: &Line) -> Result<(), ScriptWhy>
        ensures { result ≡ in_order self.now.all self.now.opened self.now.started line.now }
    {
        match *line {
            Line::Draw { .. }
            | Line::Sync { .. }
            | Line::Give { .. }
            | Line::Eps { .. }
            | Line::Fiveg(_)
            | Line::Sites(_)
            | Line::Sim(_)
            | Line::Tamper { .. }
            | Line::Cut { .. } => Ok(()),
            Line::Session(ref line) => require(!self.all.has(line.session), ScriptWhy::Twice),
            Line::Start(session) => {
                require(self.opened.has(session), ScriptWhy::UnknownSession)?;
                require(!self.started.has(session), ScriptWhy::Twice)
            }
            Line::Deliver { session, .. }
            | Line::Repeat(session)
            | Line::GiveUp { session, .. }
            | Line::Plain(session) => {
                require(self.opened.has(session), ScriptWhy::UnknownSession)
            }
        }
    }

    /// Whether a line passes neither the limit of sessions nor that of its job's packets.
    pub fn has_room(&self, line: &Line) -> bool
        requires sessions { length self.now.all ≤ most_sessions }
        requires packets { self.now.packets ≤ most_packets }
        ensures { result ≡ (nat_le (length (self.now.all ++ option_to_list (opened_by line.now))) most_sessions
            && nat_le (self.now.packets + packets_by line.now) most_packets) }
    {
        let packets = self.packets + packets_by(line);
        match *line {
            Line::Session(_) => self.all.len() < MAX_SESSIONS && packets <= MAX_PACKETS,
            _ => packets <= MAX_PACKETS,
        }
    }

    /// Notes a line of the present job.
    pub fn note(&mut self, line: &Line) -> Result<(), NoMemory>
        requires order { in_order self.old.all self.old.opened self.old.started line.now ≡ Ok tt }
        requires known { (n : ℕ) → is_among n self.old.all ≡ false → is_among n self.old.opened ≡ false }
        requires room { self.old.packets + packets_by line.now < 2 ^ 32 }
        ensures { OnOk result (self.new ≡ noted self.old line.now) }
    {
        self.packets += packets_by(line);
        match *line {
            Line::Session(ref line) => {
                self.all.add(line.session)?;
                self.opened.add(line.session)
            }
            Line::Start(session) => self.started.add(session),
            _ => Ok(()),
        }
    }
}

/// How many packets a line counts for.
fn packets_by(line: &Line) -> u32
    ensures value { result ≡ packets_by line.now }
    ensures few { result ≤ 40 }
{
    match *line {
        Line::Draw { .. }
        | Line::Sync { .. }
        | Line::Give { .. }
        | Line::Eps { .. }
        | Line::Fiveg(_)
        | Line::Sites(_)
        | Line::Sim(_) => 0,
        Line::Plain(_) => PACKETS_OF_PLAIN,
        _ => 1,
    }
}
