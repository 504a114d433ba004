//! Sites.

ghost use Rattle.std.specs.Prelude.{◌≡◌, ◌<◌, ◌↔◌, All, IfSome, IsTrue};
ghost use Rattle.auc_sites.specs.Site.{after_ask, after_draw, after_grant, after_restart, answer_to, can_restart, last_request, greatest_u32, new_site, next_number, outstanding};

use crate::grant::Grant;
use crate::lease::Lease;
use crate::request::Request;
use std::marker::Model;

/// What a site makes of a grant.
#[derive(Clone, Copy, PartialEq, Eq)]
pub enum Taken {
    /// It holds the numbers of the grant, which are so many, and no others.
    Taken(u32),
    /// The grant isn't for the request that the site waits for, which is this one, or none.
    NotMine(Option<Request>),
}

/// A site, which hands out the numbers that were leased to it. Contracts see a `SiteState`.
#[derive(Drop)]
pub struct Site {
    id: u32,
    boot: u32,
    asks: u32,
    waits: bool,
    lease: Lease,
    // The place of the next number in the lease.
    next: u32,
}

impl Model for Site {
    ghost use Rattle.std.specs.Prelude.{◌≤◌, drop, length};
    ghost use Rattle.auc_sites.specs.Site.{SiteState};

    ghost Value = { SiteState };

    ghost view = { λ s. record { id = s.id; boot = s.boot; asks = s.asks; waits = s.waits; held = drop s.next s.lease } };

    ghost invariant = { λ s. s.next ≤ length s.lease };
}

impl Site {
    /// The site of a number, from 1, that starts under a boot number. It has to be above each one under which the site
    /// started before.
    pub fn new(id: u32, boot: u32) -> Site
        ensures { result ≡ new_site id boot }
    {
        Site {
            id,
            boot,
            asks: 0,
            waits: false,
            lease: Lease::new(),
            next: 0,
        }
    }

    // Its last request since it started, if it has asked.
    fn last_request(&self) -> Request
        ensures { result ≡ last_request self.now }
    {
        Request {
            site: self.id,
            boot: self.boot,
            ask: self.asks,
        }
    }

    /// Whether it may ask once more before it starts again.
    pub fn can_ask(&self) -> bool
        ensures { IsTrue result ↔ (self.now.asks < greatest_u32) }
    {
        self.asks < u32::MAX
    }

    // The request that it makes next.
    pub(crate) fn next_request(&self) -> Request
        requires { self.now.asks < greatest_u32 }
        ensures { result ≡ last_request (after_ask self.now) }
    {
        Request {
            site: self.id,
            boot: self.boot,
            ask: self.asks + 1,
        }
    }

    /// Makes a new request, and waits for a grant of this one alone. It keeps the numbers that it holds. The request may be sent
    /// any number of times.
    pub fn ask(&mut self) -> Request
        requires { self.old.asks < greatest_u32 }
        ensures value { result ≡ last_request (after_ask self.old) }
        ensures after { self.new ≡ after_ask self.old }
    {
        self.asks += 1;
        self.waits = true;
        self.last_request()
    }

    /// The request that it waits for, or `None`.
    pub fn outstanding(&self) -> Option<Request>
        ensures { result ≡ outstanding self.now }
    {
        if self.waits {
            Some(self.last_request())
        } else {
            None
        }
    }

    /// Takes a grant of the request that it waits for: the numbers replace those that it holds. No other grant changes it.
    pub fn on_grant(&mut self, g: &Grant) -> Taken
        ensures answer { result ≡ answer_to self.old g.now }
        ensures after { self.new ≡ after_grant self.old g.now }
    {
        if self.waits && g.request.is(self.last_request()) {
            self.waits = false;
            self.lease = g.lease.copy();
            self.next = 0;
            Taken::Taken(g.lease.len())
        } else {
            Taken::NotMine(self.outstanding())
        }
    }

    /// Hands out the least number that it holds, or `None` if it holds none.
    pub fn draw(&mut self) -> Option<u64>
        ensures value { result ≡ next_number self.old }
        ensures least { IfSome result (λ n. All (λ m. n < m) self.new.held) }
        ensures after { self.new ≡ after_draw self.old }
    {
        if self.next < self.lease.len() {
            let n = self.lease.number(self.next);
            self.next += 1;
            Some(n)
        } else {
            None
        }
    }

    /// Starts again: the boot number rises, and the site forgets everything else but its number. It answers `false`, and
    /// changes nothing, if there is no further boot number.
    pub fn restart(&mut self) -> bool
        ensures value { result ≡ can_restart self.old }
        ensures after { self.new ≡ after_restart self.old }
    {
        if self.boot == u32::MAX {
            return false;
        }
        self.boot += 1;
        self.asks = 0;
        self.waits = false;
        self.lease = Lease::new();
        self.next = 0;
        true
    }
}
