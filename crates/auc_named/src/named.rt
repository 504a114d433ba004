//! Some of a round's subscribers by themselves.

ghost use Rattle.std.specs.Prelude.{◌≡◌, All, IfOk, length, map};
ghost use Rattle.auc_cards.specs.Known.{AreKnown};
ghost use Rattle.auc_named.specs.Named.{AreNamed, ArePlain};

use crate::of_all::{closings_of_all, jobs_of_all};
use crate::own_lines::own_jobs;
use crate::own_rows::own_rows;
use crate::places::places_of;
use auc_lines::JobPart;
use auc_memory::{Imsi, Items, NoMemory};
use auc_record::RoundRecord;
use auc_subs::Subscribers;
use std::alloc::Global;
use std::marker::Model;

/// Some of a round's subscribers by themselves, and the round's jobs over them. Contracts see the rows, their places among all,
/// and the jobs.
#[derive(Drop)]
pub struct Named {
    subs: Subscribers,
    places: Vec<u32>,
    jobs: Items<JobPart>,
}

impl Model for Named {
    ghost use Rattle.auc_named.specs.NamedValue.{NamedValue};

    ghost Value = { NamedValue };

    ghost view = { λ n. record { rows = n.subs; places = n.places.items; jobs = n.jobs } };
}

impl Named {
    ghost use Rattle.auc_named.specs.Named.{round_of};
    ghost use Rattle.auc_record.specs.Record.{NamesBelow};

    /// The subscribers, by themselves.
    pub fn subs(&self) -> &Subscribers
        ensures { result.now ≡ self.now.rows }
    {
        &self.subs
    }

    /// The place of each of the subscribers among all subscribers. The places rise.
    pub fn places(&self) -> &[u32]
        ensures { result.now ≡ self.now.places }
    {
        self.places.as_slice()
    }

    /// The jobs, whose lines name the subscribers by their places among these.
    pub fn jobs(&self) -> &[JobPart]
        ensures { result.now ≡ self.now.jobs }
    {
        self.jobs.as_slice()
    }

    /// The identities of the subscribers, in their order.
    pub fn imsis(&self, alloc: Global) -> Result<Vec<Imsi>, NoMemory>
        ensures { IfOk result (λ imsis. imsis.items ≡ map (λ row. row.imsi) self.now.rows) }
    {
        imsis_of(alloc, &self.subs)
    }

    /// What a round over these subscribers says, said of all.
    pub fn of_all(&self, alloc: Global, round: RoundRecord) -> Result<RoundRecord, NoMemory>
        requires { NamesBelow (length self.now.places) round }
        ensures { IfOk result (λ said. said ≡ round_of self.now.places round) }
    {
        let places = self.places.as_slice();
        let closings = closings_of_all(alloc, places, round.closings.as_slice())?;
        let jobs = jobs_of_all(alloc, places, round.jobs)?;
        Ok(RoundRecord {
            number: round.number,
            jobs,
            closings,
            sessions: round.sessions,
            premise: round.premise,
        })
    }
}

/// The identities of subscribers, in their order.
fn imsis_of(alloc: Global, subs: &Subscribers) -> Result<Vec<Imsi>, NoMemory>
    ensures { IfOk result (λ imsis. imsis.items ≡ map (λ row. row.imsi) subs.now) }
{
    let mut imsis = Vec::new(alloc);
    for sub in 0..subs.len() {
        imsis.push(subs.row(sub).imsi)?;
    }
    Ok(imsis)
}

/// The subscribers that the plain lines of jobs name, by themselves.
pub fn name(alloc: Global, subs: &Subscribers, jobs: &[JobPart]) -> Result<Named, NoMemory>
    requires known { All (AreKnown subs.now) jobs.now }
    requires plain { ArePlain jobs.now }
    ensures { IfOk result (λ named. AreNamed subs.now jobs.now named.places named.rows named.jobs) }
{
    let places = places_of(alloc, jobs)?;
    let jobs = own_jobs(alloc, places.as_slice(), jobs)?;
    let subs = own_rows(alloc, subs, places.as_slice())?;
    Ok(Named { subs, places, jobs })
}
