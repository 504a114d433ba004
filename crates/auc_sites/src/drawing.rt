//! The numbers of a lease, from a centre.

ghost use Rattle.std.specs.Prelude.{◌≡◌, ◌<◌, ◌≤◌, ℕ};
ghost use Rattle.auc_sites.specs.Drawing.{Drew};

use crate::lease::Lease;
use auc_vector::{Centre, CentreRefusal};
use std::sync::Wait;

// The numbers that were drawn for a lease, and the refusal after them if there are fewer than were asked for.
#[derive(Drop)]
pub(crate) struct Drawing {
    pub(crate) lease: Lease,
    pub(crate) end: Option<CentreRefusal>,
}

// Draws up to `size` numbers of a subscriber, until the centre refuses one.
pub(crate) fn draw_lease<C: Centre, R: Wait>(rt: &R, centre: &mut C, sub: u32, size: u32) -> Drawing
    requires size { size ≤ 32 }
    requires sub { sub < C.subs centre.old }

    ensures drew { Drew C.goes C.kept C.top sub size result.lease result.end centre.old centre.new }

    ensures subs { C.subs centre.new ≡ C.subs centre.old }
    ensures top { (i : ℕ) → C.top centre.new i ≡ C.top centre.old i }
    ensures name { C.name centre.new ≡ C.name centre.old }
{
    let mut lease = Lease::new();
    for _i in 0..size {
        match centre.next(rt, sub) {
            Ok(n) => lease.push(n),
            Err(why) => {
                return Drawing {
                    lease,
                    end: Some(why),
                };
            }
        }
    }
    Drawing { lease, end: None }
}
