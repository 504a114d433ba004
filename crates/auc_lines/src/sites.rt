//! Lines for sites that hand out the numbers that a master leases to them.

ghost use Rattle.std.specs.Prelude.{◌≡◌, ◌≤◌, ◌*◌, All, length};
ghost use Rattle.auc_lines.specs.Sites.{IsOfSites, SitesValue, deliveries_in, is_delivery};

use auc_memory::Items;
use std::marker::Model;

/// An event of a line for sites. A site's number is counted from 1, and a packet's number counts the packets of the line
/// from 1.
#[derive(Clone, Copy)]
pub enum SiteEvent {
    /// The site asks the master for numbers.
    Ask(u32),
    /// A packet reaches the one to whom it was sent. It stays there to be delivered again.
    Deliver(u32),
    /// The site hands out a number.
    Draw(u32),
    /// The site starts again.
    Restart(u32),
    /// The master starts again, and forgets all requests.
    MasterRestart,
}

impl SiteEvent {
    // Whether it delivers a packet.
    fn is_delivery(&self) -> bool
        ensures { result ≡ is_delivery self.now }
    {
        match *self {
            SiteEvent::Deliver(_) => true,
            SiteEvent::Ask(_)
            | SiteEvent::Draw(_)
            | SiteEvent::Restart(_)
            | SiteEvent::MasterRestart => false,
        }
    }
}

/// What happens at the sites of the subscriber at a place, and at the master that leases numbers to them. Contracts see a
/// `SitesValue` (`specs/Sites`).
#[derive(Drop)]
pub struct SitesLine {
    sub: u32,
    sites: u32,
    size: u32,
    schedule: Items<SiteEvent>,
}

impl Model for SitesLine {
    ghost use Rattle.auc_lines.specs.Sites.{IsSitesValue, SitesValue};

    ghost Value = { SitesValue };

    ghost view = { λ l. record { sub = l.sub; sites = l.sites; size = l.size; schedule = l.schedule } };

    ghost invariant = { λ l. IsSitesValue (record { sub = l.sub; sites = l.sites; size = l.size; schedule = l.schedule }) };
}

impl SitesLine {
    /// A line for the subscriber at the place `sub`: so many sites, 1 to 64; the most numbers of a lease, 1 to 32; and 1 to 200
    /// events of these sites.
    pub fn new(sub: u32, sites: u32, size: u32, schedule: Items<SiteEvent>) -> SitesLine
        requires sites { (1 ≤ sites) × (sites ≤ 64) }
        requires size { (1 ≤ size) × (size ≤ 32) }
        requires events { (1 ≤ length schedule) × (length schedule ≤ 200) }
        requires named { All (IsOfSites sites) schedule }
        ensures { result ≡ record { sub = sub; sites = sites; size = size; schedule = schedule } }
    {
        SitesLine {
            sub,
            sites,
            size,
            schedule,
        }
    }

    /// The subscriber, by its place.
    pub fn sub(&self) -> u32
        ensures { result ≡ self.now.sub }
    {
        self.sub
    }

    /// How many sites there are.
    pub fn sites(&self) -> u32
        ensures value { result ≡ self.now.sites }
        ensures first { 1 ≤ result }
        ensures last { result ≤ 64 }
    {
        self.sites
    }

    /// How many numbers a lease has at most.
    pub fn size(&self) -> u32
        ensures value { result ≡ self.now.size }
        ensures first { 1 ≤ result }
        ensures last { result ≤ 32 }
    {
        self.size
    }

    /// The events, in their order.
    pub fn schedule(&self) -> &[SiteEvent]
        ensures value { result.now ≡ self.now.schedule }
        ensures named { All (IsOfSites self.now.sites) result.now }
    {
        self.schedule.as_slice()
    }

    /// How many vectors it asks for at most: as many as a lease has, in each delivery.
    pub fn count(&self) -> u32
        ensures { result ≡ self.now.size * deliveries_in self.now.schedule }
    {
        let events = self.schedule.as_slice();
        self.size * events.iter().filter(|event| event.is_delivery()).count() as u32
    }
}
