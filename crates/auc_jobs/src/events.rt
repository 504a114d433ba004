//! The events of a job's sessions.

ghost use Rattle.std.specs.Prelude.{◌≡◌, ◌≤◌, ◌<◌, length, IfOk, IfSome, OnOk};
ghost use Rattle.auc_record.specs.Event.{asked_in};
ghost use Rattle.auc_lines.specs.Part.{IsShortIdentity};
ghost use Rattle.auc_record.specs.declared.event.Event.TheVariants.{Open};
ghost use Rattle.auc_world.specs.Given.{EventGives, PlainGives, packet_in};
ghost use Rattle.auc_world.specs.Net.{other};
ghost use Rattle.auc_world.specs.World.{Applies, IsKnownEvent};
ghost use Rattle.auc_jobs.specs.InnerPlaying.{Leads};
ghost use Rattle.auc_jobs.specs.InnerServing.{Happens};
ghost use Rattle.auc_jobs.specs.InnerWorker.{AreForRows, GoesOnWith, WorkerServes};

use crate::worker::Worker;
use auc_lines::{End, SessionLine};
use auc_memory::NoMemory;
use auc_vector::Centre;
use auc_world::{
    BoxedEvent, Event, EventRecord, LineRecord, Note, WorldRefusal, each_plain_session_ends,
};
use std::alloc::Global;
use std::sync::Wait;

/// The packet that an event made, if it made one.
fn packet_in(came: &Result<Note, WorldRefusal>) -> Option<u32>
    ensures { result ≡ packet_in came.now }
{
    match came {
        Ok(note) => note.packet,
        Err(_) => None,
    }
}

/// The end that sends to an end.
fn other(end: End) -> End
    ensures { result ≡ other end }
{
    match end {
        End::Server => End::Peer,
        End::Peer => End::Server,
    }
}

impl<C: Centre> Worker<'_, C> {
    /// Applies an event to the job's network.
    fn apply<R: Wait>(
        &mut self,
        rt: &R,
        alloc: Global,
        event: &Event,
    ) -> Result<Result<Note, WorldRefusal>, NoMemory>
        requires known { IsKnownEvent (length self.old.set.rows) event.now }

        ensures applied { IfOk result (λ came. Applies C.goes C.kept C.top self.old.set self.old.world event.now
            self.old.centre self.new.world came self.new.centre) }
        ensures asked { IfOk result (λ came. IfSome (asked_in came) (λ sub. sub < length self.old.set.rows)) }
        ensures rows { AreForRows self.old.set.rows (C.subs self.old.centre) (C.top self.old.centre) self.old.world }
        ensures rest { self.new ≡ record self.old { centre = self.new.centre; world = self.new.world } }
        ensures same { GoesOnWith (C.name self.old.centre) (C.name self.new.centre) self.old self.new }
    {
        self.world.apply(rt, alloc, self.set, self.centre, event)
    }

    /// Makes an event happen in the job's network. The answer is the packet that it made, if it made one.
    fn happen<R: Wait>(
        &mut self,
        rt: &R,
        alloc: Global,
        event: Event,
    ) -> Result<Option<u32>, NoMemory>
        requires known { IsKnownEvent (length self.old.set.rows) event }

        ensures happened { IfOk result (λ packet. WorkerServes C.kept C.goes self.old self.new
            (λ before lines. Happens self.old.set before self.old.world.net event packet lines self.new.world.net)) }
        ensures led { IfOk result (λ packet. Leads self.old.set self.old.world.net event packet self.new.world.net) }
        ensures same { GoesOnWith (C.name self.old.centre) (C.name self.new.centre) self.old self.new }
    {
        let result = self.apply(rt, alloc, &event)?;
        let packet = packet_in(&result);
        let record = BoxedEvent::new(alloc, EventRecord { event, result })?;
        self.lines.push(LineRecord::Event(record))?;
        Ok(packet)
    }

    /// Makes an event happen, and nothing after it.
    pub(crate) fn happen_alone<R: Wait>(
        &mut self,
        rt: &R,
        alloc: Global,
        event: Event,
    ) -> Result<(), NoMemory>
        requires known { IsKnownEvent (length self.old.set.rows) event }

        ensures happened { OnOk result (WorkerServes C.kept C.goes self.old self.new
            (λ before lines. EventGives self.old.set before self.old.world.net event lines self.new.world.net)) }
        ensures same { GoesOnWith (C.name self.old.centre) (C.name self.new.centre) self.old self.new }
    {
        self.happen(rt, alloc, event)?;
        Ok(())
    }

    /// Opens a session of a line's method.
    pub(crate) fn open<R: Wait>(
        &mut self,
        rt: &R,
        alloc: Global,
        line: &SessionLine,
    ) -> Result<(), NoMemory>
        requires known { line.now.sub < length self.old.set.rows }
        requires name { length line.now.name ≤ 255 }
        requires identity { IsShortIdentity line.now.identity }

        ensures opened { OnOk result (WorkerServes C.kept C.goes self.old self.new
            (λ before lines. EventGives self.old.set before self.old.world.net (Open line.now) lines self.new.world.net)) }
        ensures same { GoesOnWith (C.name self.old.centre) (C.name self.new.centre) self.old self.new }
    {
        let event = Event::open(alloc, line)?;
        self.happen_alone(rt, alloc, event)
    }

    /// Starts a session, and delivers each packet that follows once to the other end, until one makes none.
    pub(crate) fn play<R: Wait>(
        &mut self,
        rt: &R,
        alloc: Global,
        session: u32,
    ) -> Result<(), NoMemory>
        ensures played { OnOk result (WorkerServes C.kept C.goes self.old self.new
            (λ before lines. PlainGives self.old.set before self.old.world.net session lines self.new.world.net)) }
        ensures same { GoesOnWith (C.name self.old.centre) (C.name self.new.centre) self.old self.new }
    {
        each_plain_session_ends();
        let mut made = self.happen(rt, alloc, Event::Start(session))?;
        let mut end = End::Peer;
        while let Some(packet) = made {
            made = self.happen(
                rt,
                alloc,
                Event::Deliver {
                    session,
                    end,
                    packet,
                },
            )?;
            end = other(end);
        }
        Ok(())
    }
}
