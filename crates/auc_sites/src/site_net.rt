//! A master and its sites in memory, with the packets between them.

ghost use Rattle.std.specs.Prelude.{◌≡◌, ◌<◌, ◌+◌, IfOk, OnOk, OnErr, Some, length, replicate};
ghost use Rattle.auc_sites.specs.declared.packet.Packet.TheVariants.{Asking};
ghost use Rattle.auc_sites.specs.Master.{HasSite, place_of};
ghost use Rattle.auc_sites.specs.Network.{Ask, Draw, MasterRestart, Restart, sites_from, start};
ghost use Rattle.auc_sites.specs.Site.{greatest_u32};
ghost use Rattle.auc_sites.specs.SiteNet.{Delivers, GrowsByOne, after, after_new_grant, after_packet, number_of, packet_numbered, restarts, site_at, site_of, state_of};

use crate::grant::Grant;
use crate::lease::Lease;
use crate::master::{Judged, Master};
use crate::packet::Packet;
use crate::request::Request;
use crate::site::{Site, Taken};
use auc_memory::{Items, NoMemory};
use std::alloc::Global;
use std::marker::Model;

/// What the delivery of a packet comes to.
#[derive(Clone, Copy)]
pub enum Delivery {
    /// There is no such packet.
    NoSuchPacket,
    /// It is a request that is new to the master. Nothing has happened: numbers have to be drawn for it and granted.
    New(Request),
    /// It is a request that the master has granted, and the packet `sent` has the same grant, of so many numbers.
    Again { count: u32, sent: u32 },
    /// It is a request, and the site made a later one, which the master has granted.
    Old,
    /// It is a grant, and this is the site's answer.
    Answered(Taken),
}

/// A master and its sites, each under a boot number, and the packets that were sent between them. Sites and packets are
/// numbered from 1. Contracts see a `NetState`.
#[derive(Drop)]
pub struct SiteNet {
    sites: Vec<Site>,
    master: Master,
    packets: Items<Packet>,
}

impl Model for SiteNet {
    ghost use Rattle.auc_sites.specs.SiteNet.{IsNetState, NetState};

    ghost Value = { NetState };

    ghost view = { λ n. record { sites = n.sites.items; last = n.master; packets = n.packets } };

    ghost invariant = { λ n. IsNetState (record { sites = n.sites.items; last = n.master; packets = n.packets }) };
}

/// So many sites of boot 1.
fn first_sites(alloc: Global, count: u32) -> Result<Vec<Site>, NoMemory>
    ensures { IfOk result (λ sites. sites.items ≡ sites_from 1 (replicate count 1)) }
{
    let mut sites = Vec::new(alloc);
    for site in 0..count {
        sites.push(Site::new(site + 1, 1))?;
    }
    Ok(sites)
}

impl SiteNet {
    /// So many sites that start under the boot number 1, and a master that has granted nothing. No packet was sent.
    pub fn new(alloc: Global, sites: u32) -> Result<SiteNet, NoMemory>
        ensures { IfOk result (λ net. net ≡ state_of (start (replicate sites 1))) }
    {
        let master = Master::new(alloc, sites)?;
        let sites = first_sites(alloc, sites)?;
        Ok(SiteNet {
            sites,
            master,
            packets: Items::new(alloc),
        })
    }

    // Sends a packet. The answer is its number.
    fn send(&mut self, packet: Packet) -> Result<u32, NoMemory>
        requires site { HasSite self.old.last (site_of packet) }
        requires room { length self.old.packets < greatest_u32 }
        ensures sent { IfOk result (λ sent. sent ≡ length self.old.packets + 1) }
        ensures after { OnOk result (self.new ≡ after_packet self.old packet) }
        ensures kept { OnErr result (self.new ≡ self.old) }
    {
        self.packets.push(packet)?;
        Ok(self.packets.len() as u32)
    }

    /// A site makes a new request. The answer is the number of the packet.
    pub fn ask(&mut self, site: u32) -> Result<u32, NoMemory>
        requires site { HasSite self.old.last site }
        requires room { length self.old.packets < greatest_u32 }
        ensures sent { IfOk result (λ sent. sent ≡ length self.old.packets + 1) }
        ensures after { OnOk result (self.new ≡ after (Ask (place_of site)) self.old) }
        ensures grows { GrowsByOne self.old self.new }
    {
        let place = (site - 1) as usize;
        let request = self.sites[place].next_request();
        let sent = self.send(Packet::Asking(request))?;
        self.sites[place].ask();
        Ok(sent)
    }

    /// A packet reaches the one to whom it was sent. It stays there to be delivered again.
    pub fn deliver(&mut self, packet: u32) -> Result<Delivery, NoMemory>
        requires { length self.old.packets < greatest_u32 }
        ensures delivered { IfOk result (λ delivery. Delivers self.old (packet_numbered self.old.packets packet) delivery self.new) }
        ensures grows { GrowsByOne self.old self.new }
    {
        let Some(place) = packet.checked_sub(1) else {
            return Ok(Delivery::NoSuchPacket);
        };
        match self.packets.get(place as usize) {
            None => Ok(Delivery::NoSuchPacket),
            Some(Packet::Granting(grant)) => {
                let site = (grant.request.site - 1) as usize;
                Ok(Delivery::Answered(self.sites[site].on_grant(grant)))
            }
            Some(Packet::Asking(r)) => {
                let r = *r;
                self.answer(r)
            }
        }
    }

    // What the master makes of a request, before anything is drawn.
    fn answer(&mut self, r: Request) -> Result<Delivery, NoMemory>
        requires site { HasSite self.old.last r.site }
        requires room { length self.old.packets < greatest_u32 }
        ensures delivered { IfOk result (λ delivery. Delivers self.old (Some (Asking r)) delivery self.new) }
        ensures grows { GrowsByOne self.old self.new }
    {
        match self.master.judge(r) {
            Judged::New => Ok(Delivery::New(r)),
            Judged::Old(_) => Ok(Delivery::Old),
            Judged::Again(grant) => {
                let count = grant.lease.len();
                let sent = self.send(Packet::Granting(grant))?;
                Ok(Delivery::Again { count, sent })
            }
        }
    }

    /// The master grants numbers for a request that is new to it, and sends the grant. The answer is the number of the packet.
    pub fn grant(&mut self, r: Request, lease: Lease) -> Result<u32, NoMemory>
        requires site { HasSite self.old.last r.site }
        requires room { length self.old.packets < greatest_u32 }
        ensures sent { IfOk result (λ sent. sent ≡ length self.old.packets + 1) }
        ensures after { OnOk result (self.new ≡ after_new_grant self.old (record { request = r; lease = lease })) }
        ensures grows { GrowsByOne self.old self.new }
    {
        let grant = self.master.grant(r, lease);
        self.send(Packet::Granting(grant))
    }

    /// A site hands out the least number that it holds, or `None` if it holds none.
    pub fn draw(&mut self, site: u32) -> Option<u64>
        requires { HasSite self.old.last site }
        ensures value { result ≡ number_of (site_at self.old site) }
        ensures after { self.new ≡ after (Draw (place_of site)) self.old }
        ensures grows { GrowsByOne self.old self.new }
    {
        self.sites[(site - 1) as usize].draw()
    }

    /// A site starts again, under the next boot number. The answer is `false`, and nothing changes, if there is none.
    pub fn restart(&mut self, site: u32) -> bool
        requires { HasSite self.old.last site }
        ensures value { result ≡ restarts (site_at self.old site) }
        ensures after { self.new ≡ after (Restart (place_of site)) self.old }
        ensures grows { GrowsByOne self.old self.new }
    {
        self.sites[(site - 1) as usize].restart()
    }

    /// The master starts again, and forgets all requests.
    pub fn restart_master(&mut self)
        ensures after { self.new ≡ after MasterRestart self.old }
        ensures grows { GrowsByOne self.old self.new }
    {
        self.master.restart();
    }
}
