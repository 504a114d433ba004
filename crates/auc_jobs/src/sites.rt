//! Sites of a line, which hand out the numbers that a master leases to them.

ghost use Rattle.std.specs.Prelude.{◌≡◌, ◌<◌, ◌≤◌, length, IfOk, OnOk};
ghost use Rattle.auc_lines.specs.Sites.{IsOfSites};
ghost use Rattle.auc_sites.specs.Master.{HasSite};
ghost use Rattle.auc_sites.specs.Site.{greatest_u32};
ghost use Rattle.auc_sites.specs.SiteNet.{GrowsByOne};
ghost use Rattle.auc_world.specs.Sites.{SitesGives, note_of_number};
ghost use Rattle.auc_jobs.specs.InnerSites.{DeliveryDoes, DrawsIn, EventDoes, GrantDoes, outcome_known};
ghost use Rattle.auc_jobs.specs.InnerWorker.{GoesOnBeside, WorkerServes};

use crate::worker::Worker;
use auc_lines::{SiteEvent, SitesLine};
use auc_memory::NoMemory;
use auc_sites::{Delivery, Request, SiteNet, Taken};
use auc_vector::Centre;
use auc_world::{Further, SitesNote, SitesOutcome};
use std::alloc::Global;
use std::sync::Wait;

/// What became of a delivery; or the request that is new to the master, for which numbers have to be drawn.
fn outcome_known(delivery: Delivery) -> Result<SitesOutcome, Request>
    ensures { result ≡ outcome_known delivery }
{
    match delivery {
        Delivery::NoSuchPacket => Ok(SitesOutcome::NoSuchPacket),
        Delivery::New(request) => Err(request),
        Delivery::Again { count, sent } => Ok(SitesOutcome::Again { count, sent }),
        Delivery::Old => Ok(SitesOutcome::Old),
        Delivery::Answered(Taken::Taken(count)) => Ok(SitesOutcome::Taken { count }),
        Delivery::Answered(Taken::NotMine(_)) => Ok(SitesOutcome::NotMine),
    }
}

/// What is said of a site that hands out a number, if it held one.
fn number_note(site: u32, number: Option<u64>) -> SitesNote
    ensures { result ≡ note_of_number site number }
{
    match number {
        Some(n) => SitesNote::Number { site, n },
        None => SitesNote::Empty { site },
    }
}

impl<C: Centre> Worker<'_, C> {
    /// Makes the events of a line happen in a network of its own, and says what comes of each.
    pub(crate) fn sites<R: Wait>(
        &mut self,
        rt: &R,
        alloc: Global,
        line: &SitesLine,
    ) -> Result<(), NoMemory>
        requires sub { line.now.sub < length self.old.set.rows }
        requires few { length line.now.schedule ≤ 200 }
        ensures given { OnOk result (WorkerServes C.kept C.goes self.old self.new
            (λ before. SitesGives self.old.set line.now)) }
        ensures same { GoesOnBeside (C.name self.old.centre) (C.name self.new.centre) self.old self.new }
    {
        let mut net = SiteNet::new(alloc, line.sites())?;
        for event in line.schedule() {
            let note = self.site_event(rt, line, &mut net, event)?;
            self.say(
                alloc,
                Further::Sites {
                    sub: line.sub(),
                    note,
                },
            )?;
        }
        Ok(())
    }

    /// Makes an event happen. The answer is what is said of it.
    fn site_event<R: Wait>(
        &mut self,
        rt: &R,
        line: &SitesLine,
        net: &mut SiteNet,
        event: &SiteEvent,
    ) -> Result<SitesNote, NoMemory>
        requires sub { line.now.sub < length self.old.set.rows }
        requires named { IsOfSites (length net.old.last) event.now }
        requires room { length net.old.packets < greatest_u32 }
        ensures served { IfOk result (λ note. DrawsIn C.kept C.goes self.old self.new net.old net.new
            (EventDoes self.old.set line.now event.now note)) }
        ensures grows { GrowsByOne net.old net.new }
        ensures same { GoesOnBeside (C.name self.old.centre) (C.name self.new.centre) self.old self.new }
    {
        match *event {
            SiteEvent::Ask(site) => Ok(SitesNote::Asked {
                site,
                packet: net.ask(site)?,
            }),
            SiteEvent::Deliver(packet) => Ok(SitesNote::Delivered {
                packet,
                outcome: self.deliver_to_sites(rt, line, net, packet)?,
            }),
            SiteEvent::Draw(site) => Ok(number_note(site, net.draw(site))),
            SiteEvent::Restart(site) => {
                net.restart(site);
                Ok(SitesNote::Restarted { site })
            }
            SiteEvent::MasterRestart => {
                net.restart_master();
                Ok(SitesNote::MasterRestarted)
            }
        }
    }

    /// Delivers a packet. If it is a request that is new to the master, numbers are drawn and granted.
    fn deliver_to_sites<R: Wait>(
        &mut self,
        rt: &R,
        line: &SitesLine,
        net: &mut SiteNet,
        packet: u32,
    ) -> Result<SitesOutcome, NoMemory>
        requires sub { line.now.sub < length self.old.set.rows }
        requires room { length net.old.packets < greatest_u32 }
        ensures served { IfOk result (λ outcome. DrawsIn C.kept C.goes self.old self.new net.old net.new
            (DeliveryDoes self.old.set line.now packet outcome)) }
        ensures grows { GrowsByOne net.old net.new }
        ensures same { GoesOnBeside (C.name self.old.centre) (C.name self.new.centre) self.old self.new }
    {
        match outcome_known(net.deliver(packet)?) {
            Ok(outcome) => Ok(outcome),
            Err(request) => self.grant(rt, line, net, request),
        }
    }

    /// Draws the numbers of a lease as a request for vectors does, and grants those that were released for a request that is
    /// new to the master.
    fn grant<R: Wait>(
        &mut self,
        rt: &R,
        line: &SitesLine,
        net: &mut SiteNet,
        request: Request,
    ) -> Result<SitesOutcome, NoMemory>
        requires sub { line.now.sub < length self.old.set.rows }
        requires site { HasSite net.old.last request.site }
        requires room { length net.old.packets < greatest_u32 }
        ensures served { IfOk result (λ outcome. DrawsIn C.kept C.goes self.old self.new net.old net.new
            (GrantDoes self.old.set line.now request outcome)) }
        ensures grows { GrowsByOne net.old net.new }
        ensures same { GoesOnBeside (C.name self.old.centre) (C.name self.new.centre) self.old self.new }
    {
        let lease = self.lease(rt, line.sub(), line.size())?;
        let count = lease.len();
        if count == 0 {
            return Ok(SitesOutcome::Refused);
        }
        let sent = net.grant(request, lease)?;
        Ok(SitesOutcome::Granted { count, sent })
    }
}
