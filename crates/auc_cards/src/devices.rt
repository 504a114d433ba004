//! A job's own devices.

ghost use Rattle.std.specs.Prelude.{◌≡◌, ◌<◌, ◌++◌, [], ◌∷◌, length, IfOk, OnOk};
ghost use Rattle.auc_lines.specs.Part.{held_by, held_subs, with_held};
ghost use Rattle.auc_cards.specs.Devices.{device_of, home_of, job_devices};
ghost use Rattle.auc_cards.specs.Known.{AreKnown};

use crate::cards::{Card, Cards};
use auc_lines::Line;
use auc_memory::{NoMemory, Octets};
use auc_peer::Device;
use auc_server::{HomeRow, Setting};
use auc_usim::Usim;
use indexmap::IndexSet;
use std::alloc::Global;
use std::marker::Model;

/// The devices of the subscribers whose USIMs a job holds, and whose they are in the same order. Contracts see both lists.
#[derive(Drop)]
pub struct JobDevices {
    homes: Vec<HomeRow>,
    devices: Vec<Device>,
}

impl Model for JobDevices {
    ghost use Rattle.auc_cards.specs.Own.{OwnDevices};

    ghost Value = { OwnDevices };

    ghost view = { λ own. record { homes = own.homes.items; devices = own.devices.items } };
}

impl JobDevices {
    /// These devices, of these subscribers.
    pub fn new(homes: Vec<HomeRow>, devices: Vec<Device>) -> JobDevices
        ensures { result ≡ record { homes = homes.items; devices = devices.items } }
    {
        JobDevices { homes, devices }
    }

    /// The devices with which a job begins: their USIMs and what they keep are copies.
    pub fn of_job(
        alloc: Global,
        set: &Setting,
        cards: &Cards,
        job: &[Line],
    ) -> Result<JobDevices, NoMemory>
        requires cards { length cards.now.usims ≡ length set.now.rows }
        requires known { AreKnown set.now.rows job.now }
        ensures { IfOk result (λ own. own ≡ job_devices set.now cards.now.usims cards.now.kept job.now) }
    {
        let subs = held(alloc, job)?;
        let mut own = JobDevices::new(Vec::new(alloc), Vec::new(alloc));
        for sub in subs.as_slice() {
            own.add(alloc, set, cards, *sub)?;
        }
        Ok(own)
    }

    /// Adds the device of a subscriber, with a copy of its USIM and of what it keeps.
    fn add(&mut self, alloc: Global, set: &Setting, cards: &Cards, sub: u32) -> Result<(), NoMemory>
        requires cards { length cards.now.usims ≡ length set.now.rows }
        requires known { sub < length set.now.rows }
        ensures { OnOk result (self.new ≡ record {
          homes = self.old.homes ++ home_of cards.now.kept sub ∷ [];
          devices = self.old.devices ++ device_of set.now cards.now.usims cards.now.kept sub;
        }) }
    {
        let row = set.subs.row(sub);
        let Card { usim, kept } = cards.of(sub);
        let device = Device {
            imsi: row.imsi,
            usim,
            store: kept.device,
            realm: Octets::copied_from(alloc, set.realm)?,
        };
        self.homes.push(HomeRow {
            sub,
            ordinals: kept.ordinals,
            store: kept.home,
        })?;
        self.devices.push(device)?;
        Ok(())
    }

    /// The subscribers and the devices.
    pub fn into_parts(self) -> (Vec<HomeRow>, Vec<Device>)
        ensures homes { result.0.items ≡ self.homes }
        ensures devices { result.1.items ≡ self.devices }
    {
        (self.homes, self.devices)
    }

    /// The subscribers, in the order of the devices.
    pub(crate) fn homes(&self) -> &[HomeRow]
        ensures { result.now ≡ self.now.homes }
    {
        self.homes.as_slice()
    }

    /// The devices.
    pub(crate) fn devices(&self) -> &[Device]
        ensures { result.now ≡ self.now.devices }
    {
        self.devices.as_slice()
    }
}

/// The subscribers whose USIMs a job holds, each once, in the order of the lines that name them first.
fn held(alloc: Global, job: &[Line]) -> Result<IndexSet<u32>, NoMemory>
    ensures { IfOk result (λ subs. subs.keys ≡ held_subs job.now) }
{
    let mut subs = IndexSet::new(alloc);
    for line in job {
        hold_for(&mut subs, line)?;
    }
    Ok(subs)
}

/// Adds the subscriber whose USIM a job holds because of a line, if there is one.
fn hold_for(subs: &mut IndexSet<u32>, line: &Line) -> Result<(), NoMemory>
    ensures { OnOk result (subs.new.keys ≡ with_held subs.old.keys (held_by line.now)) }
{
    if let Some(sub) = line.held() {
        subs.insert(sub)?;
    }
    Ok(())
}
