//! Sessions of EAP-SIM, with the triplets of released vectors.

ghost use Rattle.std.specs.Prelude.{◌≡◌, ◌≤◌, ◌<◌, All, length, map, reverse, IfOk, OnOk};
ghost use Rattle.auc_vector.specs.declared.sim_note.SimNote.{SimNote};
ghost use Rattle.auc_subs.specs.Subscriber.{AreSubscribers};
ghost use Rattle.auc_world.specs.Sim.{SimGives};
ghost use Rattle.auc_jobs.specs.InnerSim.{AreNotesOf, AreTripletsOf, IsNumber, said_lines};
ghost use Rattle.auc_jobs.specs.InnerWorker.{GoesOnBeside, WorkerServes};

use crate::worker::Worker;
use auc_lines::SimLine;
use auc_memory::{Items, NoMemory};
use auc_sim::{SimNote, Triplet, run_session, sim_identity, triplet};
use auc_sites::Lease;
use auc_vector::Centre;
use auc_world::{Further, Setting, vector_at};
use std::alloc::Global;
use std::sync::Wait;

/// The triplets of the vectors of a subscriber's numbers (TS 33.102 §6.8.1.2).
fn triplets_of(
    alloc: Global,
    set: &Setting,
    sub: u32,
    numbers: &Lease,
) -> Result<Items<Triplet>, NoMemory>
    requires known { sub < length set.now.rows }
    requires numbers { All (IsNumber set.now.rows sub) numbers.now }
    ensures { IfOk result (AreTripletsOf set.now sub numbers.now) }
{
    let mut triplets = Items::new(alloc);
    for i in 0..numbers.len() {
        triplets.push(triplet(&vector_at(set, sub, numbers.number(i))))?;
    }
    Ok(triplets)
}

/// What happens in the session of a line: its server has the triplets of these numbers, and NONCE_MT is that of the first one.
fn session_notes(
    alloc: Global,
    set: &Setting,
    line: &SimLine,
    numbers: &Lease,
) -> Result<Items<SimNote>, NoMemory>
    requires subscribers { AreSubscribers set.now.rows }
    requires known { line.now.sub < length set.now.rows }
    requires least { 2 ≤ length numbers.now }
    requires most { length numbers.now ≤ 3 }
    requires numbers { All (IsNumber set.now.rows line.now.sub) numbers.now }
    ensures { IfOk result (AreNotesOf set.now line.now numbers.now) }
{
    let row = set.subs.row(line.sub());
    let nonce = set.rands.sim_nonce(line.sub(), numbers.number(0));
    let identity = sim_identity(alloc, row.imsi, set.realm)?;
    let triplets = triplets_of(alloc, set, line.sub(), numbers)?;
    run_session(
        alloc,
        identity.as_slice(),
        triplets.as_slice(),
        &row.secret,
        nonce,
        line.schedule(),
    )
}

/// The notes, the last one first.
fn reversed(alloc: Global, mut notes: Items<SimNote>) -> Result<Items<SimNote>, NoMemory>
    ensures { IfOk result (λ turned. turned ≡ reverse notes) }
{
    let mut turned = Items::new(alloc);
    while let Some(note) = notes.pop() {
        turned.push(note)?;
    }
    Ok(turned)
}

impl<C: Centre> Worker<'_, C> {
    /// Asks for the vectors of a line. If all of them are released, it runs a session of EAP-SIM with their triplets, and says
    /// what happens in it.
    pub(crate) fn sim<R: Wait>(
        &mut self,
        rt: &R,
        alloc: Global,
        line: &SimLine,
    ) -> Result<(), NoMemory>
        requires sub { line.now.sub < length self.old.set.rows }
        ensures given { OnOk result (WorkerServes C.kept C.goes self.old self.new
            (λ before. SimGives self.old.set line.now)) }
        ensures same { GoesOnBeside (C.name self.old.centre) (C.name self.new.centre) self.old self.new }
    {
        let numbers = self.lease(rt, line.sub(), line.count())?;
        if numbers.len() != line.count() {
            return Ok(());
        }
        let notes = session_notes(alloc, self.set, line, &numbers)?;
        self.say_notes(alloc, line.sub(), notes)
    }

    /// Says what happens in a session of a subscriber.
    fn say_notes(&mut self, alloc: Global, sub: u32, notes: Items<SimNote>) -> Result<(), NoMemory>
        ensures said { OnOk result (WorkerServes C.kept C.goes self.old self.new
            (λ before lines. lines ≡ said_lines sub notes)) }
        ensures same { GoesOnBeside (C.name self.old.centre) (C.name self.new.centre) self.old self.new }
    {
        let mut left = reversed(alloc, notes)?;
        while let Some(note) = left.pop() {
            self.say(alloc, Further::Sim { sub, note })?;
        }
        Ok(())
    }
}
