//! What a line for sites says of its own: how its events go, at the sites, at the master that leases numbers to them, and in
//! the network between them.

/// What became of a packet of a line for sites that was delivered: a request at the master, or a grant at its site.
#[derive(Clone, Copy)]
pub enum SitesOutcome {
    /// The master drew so many numbers for the request, and sent their grant in the packet `sent`.
    Granted { count: u32, sent: u32 },
    /// The master sent the grant of the request, which has so many numbers, once more in the packet `sent`.
    Again { count: u32, sent: u32 },
    /// The site made a later request, whose grant the master has made already.
    Old,
    /// The centre refused the first number for the request.
    Refused,
    /// The site took the grant's numbers, which are so many.
    Taken { count: u32 },
    /// The site doesn't wait for the grant.
    NotMine,
    /// There is no such packet.
    NoSuchPacket,
}

/// What happened in an event of a line for sites. Sites are numbered from 1, and so are the line's packets.
#[derive(Clone, Copy)]
pub enum SitesNote {
    /// The site asked, and sent its request in the packet.
    Asked { site: u32, packet: u32 },
    /// The packet was delivered.
    Delivered { packet: u32, outcome: SitesOutcome },
    /// The site handed out the number.
    Number { site: u32, n: u64 },
    /// The site holds no number to hand out.
    Empty { site: u32 },
    /// The site started again.
    Restarted { site: u32 },
    /// The master started again.
    MasterRestarted,
}
