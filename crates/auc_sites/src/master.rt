//! The master.

ghost use Rattle.std.specs.Prelude.{◌≡◌, ◌<◌, ◌≤◌, ◌↔◌, ℕ, IfOk, IsTrue, length};
ghost use Rattle.auc_sites.specs.Master.{HasSite, judgement, last_grant, nothing_granted, with_grant};
ghost use Rattle.auc_sites.specs.Reply.{Replies, last_after, reply_to_new};

use crate::drawing::{Drawing, draw_lease};
use crate::grant::Grant;
use crate::lease::Lease;
use crate::request::Request;
use auc_memory::NoMemory;
use auc_vector::{Centre, CentreRefusal};
use std::alloc::Global;
use std::marker::Model;
use std::sync::Wait;

/// What a master makes of a request before it asks the centre.
#[derive(Drop)]
pub enum Judged {
    /// It is the request that the site's last grant is for, which is this one.
    Again(Grant),
    /// It was made before the request that the site's last grant is for, which is this one.
    Old(Request),
    /// It is newer than that one, or the master remembers no grant for the site.
    New,
}

/// What a master replies to a request.
#[derive(Drop)]
pub enum Reply {
    /// The request was new. The grant has the numbers that were drawn for it, up to as many as were asked for, or up to the
    /// first that the centre refused.
    Granted(Grant),
    /// The request has this grant already, and nothing was drawn.
    Again(Grant),
    /// The site made the request before this one, whose grant it has already, and nothing was drawn.
    Old(Request),
    /// The request was new, and the centre refused the first number.
    Refused(CentreRefusal),
}

/// The master of one subscriber's sites. Contracts see the list of the last grant for each site.
#[derive(Drop)]
pub struct Master {
    last: Vec<Option<Grant>>,
}

impl Model for Master {
    ghost use Rattle.std.specs.Prelude.{List, Option};
    ghost use Rattle.auc_sites.specs.declared.grant.Grant.{Grant};

    ghost Value = { List (Option Grant) };

    ghost view = { λ m. m.last.items };
}

impl Master {
    /// A master of so many sites, numbered from 1, that has granted nothing.
    pub fn new(alloc: Global, sites: u32) -> Result<Master, NoMemory>
        ensures { IfOk result (λ m. m ≡ nothing_granted sites) }
    {
        let mut last = Vec::new(alloc);
        for _i in 0..sites {
            last.push(None)?;
        }
        Ok(Master { last })
    }

    /// Whether a site is one of its own.
    pub fn has_site(&self, site: u32) -> bool
        ensures { IsTrue result ↔ HasSite self.now site }
    {
        1 <= site && site as usize <= self.last.len()
    }

    /// What it makes of a request, before anything is drawn.
    pub fn judge(&self, r: Request) -> Judged
        requires site { HasSite self.now r.site }
        ensures { result ≡ judgement (last_grant self.now r) r }
    {
        match self.last[(r.site - 1) as usize] {
            Some(ref g) if g.request.is(r) => Judged::Again(g.copy()),
            Some(ref g) if r.is_before(g.request) => Judged::Old(g.request),
            _ => Judged::New,
        }
    }

    /// Grants numbers for a request, and remembers it as the site's last grant. The request has to be new, and the numbers
    /// have to be drawn for it.
    pub fn grant(&mut self, r: Request, lease: Lease) -> Grant
        requires site { HasSite self.old r.site }
        ensures value { result ≡ record { request = r; lease = lease } }
        ensures after { self.new ≡ with_grant self.old (record { request = r; lease = lease }) }
    {
        let grant = Grant { request: r, lease };
        self.last[(r.site - 1) as usize] = Some(grant.copy());
        grant
    }

    /// Replies to a request of a site. If it is new, up to `size` numbers of the subscriber are drawn for it. The subscriber has
    /// to be the same one in all calls. It takes no memory.
    pub fn on_request<C: Centre, R: Wait>(
        &mut self,
        rt: &R,
        centre: &mut C,
        sub: u32,
        size: u32,
        r: Request,
    ) -> Reply
        requires size { (1 ≤ size) × (size ≤ 32) }
        requires site { HasSite self.old r.site }
        requires sub { sub < C.subs centre.old }

        ensures reply { Replies C.goes C.kept C.top sub size self.old r centre.old
            result self.new centre.new }

        ensures sites { length self.new ≡ length self.old }
        ensures subs { C.subs centre.new ≡ C.subs centre.old }
        ensures top { (i : ℕ) → C.top centre.new i ≡ C.top centre.old i }
        ensures name { C.name centre.new ≡ C.name centre.old }
    {
        match self.judge(r) {
            Judged::Again(grant) => Reply::Again(grant),
            Judged::Old(last) => Reply::Old(last),
            Judged::New => {
                let drawing = draw_lease(rt, centre, sub, size);
                self.grant_drawn(r, drawing)
            }
        }
    }

    // Grants what was drawn for a new request, or hands on the refusal if that is nothing.
    fn grant_drawn(&mut self, r: Request, drawing: Drawing) -> Reply
        requires site { HasSite self.old r.site }
        ensures value { result ≡ reply_to_new r drawing.lease drawing.end }
        ensures after { self.new ≡ last_after self.old result }
    {
        match drawing.end {
            Some(why) if drawing.lease.is_empty() => Reply::Refused(why),
            _ => Reply::Granted(self.grant(r, drawing.lease)),
        }
    }

    /// Forgets all requests.
    pub fn restart(&mut self)
        ensures { self.new ≡ nothing_granted (length self.old) }
    {
        for last in self.last.iter_mut() {
            *last = None;
        }
    }
}
