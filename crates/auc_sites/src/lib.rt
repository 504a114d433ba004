//! Sites that hand out a subscriber's numbers, which a master leases to them.
//!
//! A [`Site`] asks, takes the grant of its request, and hands out the numbers of the [`Lease`]. A [`Master`] answers each
//! [`Request`] by numbers that it draws at a centre. The network between them may lose, repeat and reorder packets, and
//! sites and master may restart; the laws say that no number is handed out twice. **A master and its sites are of one
//! subscriber**: a request names none, and `on_request` is called with this one alone. A site keeps its boot number over a
//! restart, or gets a greater one; docs/SITES.md says what else each part keeps.
//!
//! Contracts see a `Lease` as the list of its numbers, a `Site` as a `SiteState` (`specs/Site`), and a `Master` as the list
//! of the last grant for each site. Only [`Master::new`] takes memory, and only [`Master::on_request`] may wait, as its
//! centre may. The tests stand in `auc_vector_tests`.
#![tactic(auto)]

mod drawing;
mod grant;
mod law;
mod lease;
mod master;
mod packet;
mod request;
mod site;
mod site_net;

pub use grant::Grant;
pub use law::{
    each_awaited_grant_is_taken, each_number_is_handed_out_once, each_run_hands_out_once,
};
pub use lease::{LEASE_SIZE, Lease};
pub use master::{Judged, Master, Reply};
pub use packet::Packet;
pub use request::Request;
pub use site::{Site, Taken};
pub use site_net::{Delivery, SiteNet};
