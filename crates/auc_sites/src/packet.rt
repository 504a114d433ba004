//! Packets.

use crate::grant::Grant;
use crate::request::Request;

/// A packet between a master and a site.
#[derive(Drop)]
pub enum Packet {
    /// A request, on its way to the master.
    Asking(Request),
    /// A grant, on its way to the site that its request names.
    Granting(Grant),
}
