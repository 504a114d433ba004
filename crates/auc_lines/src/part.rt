//! The parts of a scenario.

use crate::sim::SimLine;
use crate::sites::SitesLine;
use auc_hmac::Method;
use auc_memory::{Items, Octets};

/// An end of a session.
#[derive(Clone, Copy, Debug, PartialEq, Eq)]
pub enum End {
    /// The server (RFC 3748 §1.2).
    Server,
    /// The peer, which has the USIM.
    Peer,
}

/// The identity that a session's peer gives first (RFC 3748 §5.1).
#[derive(Drop)]
pub enum Identity {
    /// The one that the device holds: the re-authentication identity of the session's method if it has one, else the
    /// pseudonym, else the permanent identity (RFC 4187 §4.1).
    Held,
    /// The permanent identity.
    Permanent,
    /// This text of 1 to 255 bytes.
    Text(Octets),
}

/// How a session is opened, at the device of the subscriber at the place `sub`.
#[derive(Drop)]
pub struct SessionLine {
    /// The session's number, 1 to 999999.
    pub session: u32,
    /// The subscriber.
    pub sub: u32,
    /// The method of its packets.
    pub method: Method,
    /// The server's name of the network (RFC 9048 §3.1), 1 to 255 bytes. It is empty for EAP-AKA.
    pub name: Octets,
    /// The name that the peer expects, if it compares names, 1 to 255 bytes. EAP-AKA has none.
    pub peer_name: Option<Octets>,
    /// Whether the server offers pseudonyms (RFC 4187 §4.1.1.7).
    pub pseudonym: bool,
    /// Whether the server offers re-authentication identities (RFC 4187 §4.1.1.8).
    pub reauth: bool,
    /// Whether the server of EAP-AKA tells that it would rather have used EAP-AKA' (RFC 9048 §4).
    pub bidding: bool,
    /// Whether the server asks for any identity (RFC 4187 §10.3) before it looks at one.
    pub any: bool,
    /// Whether the device has EAP-AKA'.
    pub has_prime: bool,
    /// The identity that the peer gives first.
    pub identity: Identity,
}

/// A 5G authentication of the device of the subscriber at the place `sub` (TS 33.501 §6.1.3.2), and what happens to RES* on
/// its way to the networks.
#[derive(Drop)]
pub struct FivegLine {
    /// The subscriber.
    pub sub: u32,
    /// The serving network's name that the home network knows, 1 to 255 bytes.
    pub home: Octets,
    /// The serving network's name that the device knows, 1 to 255 bytes.
    pub device: Octets,
    /// The bit of RES* that is turned over, from 0 for the first byte's top bit to 127, or none is.
    pub bit: Option<u8>,
    /// Whether the standard's HXRES* is told (TS 33.501 Annex A.5).
    pub hxres: bool,
}

/// What a synchronisation failure reports (TS 33.102 §6.3.3, §6.3.5).
#[derive(Clone, Copy)]
pub enum Report {
    /// The AUTS that a USIM gives for the RAND of number 0, if its SQN_MS is that of the number `seq`, at most the
    /// subscriber's greatest one. The bit `bit` is turned over, from 0 for the first byte's top bit to 111, or none is.
    Seq { seq: u64, bit: Option<u8> },
    /// An AUTS as it came, and the RAND that it answers.
    Auts { auts: [u8; 14], rand: [u8; 16] },
}

/// A line of a job, for the subscriber at the place `sub` or for the session of a number. A packet's number counts the
/// packets of the job from 1.
#[derive(Drop)]
pub enum Line {
    /// Asks for `count` vectors, 1 to 1000.
    Draw {
        sub: u32,
        count: u32,
    },
    /// Hands the centre the AUTS of a report. Then asks for `count` vectors, at most 1000, if the centre's number was moved or
    /// was in range.
    Sync {
        sub: u32,
        report: Report,
        count: u32,
    },
    /// Presents the vector of the number `n`, 1 to `MAX_SEQ`, to the USIM.
    Give {
        sub: u32,
        n: u64,
    },
    /// Asks for a vector, and derives K_ASME of it for the serving network of the SN id, which is MCC and MNC as TS 33.401
    /// Annex A.2 lays them out.
    Eps {
        sub: u32,
        snid: [u8; 3],
    },
    /// Asks for a vector, and authenticates the subscriber's device with it as in 5G.
    Fiveg(FivegLine),
    /// Runs sites that hand out the numbers that a master leases to them.
    Sites(SitesLine),
    /// Asks for 2 or 3 vectors, and runs a session of EAP-SIM with their triplets.
    Sim(SimLine),
    /// Opens a session.
    Session(SessionLine),
    /// The session's server starts, and sends its first request.
    Start(u32),
    /// A packet reaches an end of the session. It stays there to be delivered again.
    Deliver {
        session: u32,
        end: End,
        packet: u32,
    },
    /// The session's server sends its last request again.
    Repeat(u32),
    /// An end of the session gives up.
    GiveUp {
        session: u32,
        end: End,
    },
    /// The session's server starts, and each packet that follows is delivered once to the other end, until one makes
    /// none.
    Plain(u32),
    /// The network changes a byte of a copy of a packet: the one at the place, from 0, becomes `byte`. The copy is a further
    /// packet.
    Tamper {
        packet: u32,
        place: u32,
        byte: u8,
    },
    /// The network keeps so many bytes from the front of a copy of a packet, which are fewer than it has. The copy is a further
    /// packet.
    Cut {
        packet: u32,
        length: u32,
    },
}

impl Line {
    ghost use Rattle.std.specs.Prelude.{◌≡◌};
    ghost use Rattle.auc_lines.specs.Part.{asked_by, asks_for, held_by};

    /// How many vectors it asks for at most: a session for 2, a line for sites for a lease at each delivery.
    pub fn count(&self) -> u32
        ensures { result ≡ asked_by self.now }
    {
        match *self {
            Line::Draw { count, .. } | Line::Sync { count, .. } => count,
            Line::Eps { .. } | Line::Fiveg(_) => 1,
            Line::Sites(ref line) => line.count(),
            Line::Sim(ref line) => line.count(),
            Line::Session(_) => 2,
            Line::Give { .. }
            | Line::Start(_)
            | Line::Deliver { .. }
            | Line::Repeat(_)
            | Line::GiveUp { .. }
            | Line::Plain(_)
            | Line::Tamper { .. }
            | Line::Cut { .. } => 0,
        }
    }

    /// The subscriber whose USIM the line's job holds because of it: it presents a vector to the USIM,
    /// or opens a session of it.
    pub fn held(&self) -> Option<u32>
        ensures { result ≡ held_by self.now }
    {
        match *self {
            Line::Give { sub, .. } => Some(sub),
            Line::Fiveg(ref line) => Some(line.sub),
            Line::Session(ref line) => Some(line.sub),
            Line::Draw { .. }
            | Line::Sync { .. }
            | Line::Eps { .. }
            | Line::Sites(_)
            | Line::Sim(_)
            | Line::Start(_)
            | Line::Deliver { .. }
            | Line::Repeat(_)
            | Line::GiveUp { .. }
            | Line::Plain(_)
            | Line::Tamper { .. }
            | Line::Cut { .. } => None,
        }
    }

    /// The subscriber for whom the line may ask the centre for a number: it draws, or opens a session.
    pub fn asks(&self) -> Option<u32>
        ensures { result ≡ asks_for self.now }
    {
        match *self {
            Line::Draw { sub, .. } | Line::Eps { sub, .. } => Some(sub),
            Line::Sync { sub, count, .. } if count > 0 => Some(sub),
            Line::Fiveg(ref line) => Some(line.sub),
            Line::Sites(ref line) => Some(line.sub()),
            Line::Sim(ref line) => Some(line.sub()),
            Line::Session(ref line) => Some(line.sub),
            Line::Sync { .. }
            | Line::Give { .. }
            | Line::Start(_)
            | Line::Deliver { .. }
            | Line::Repeat(_)
            | Line::GiveUp { .. }
            | Line::Plain(_)
            | Line::Tamper { .. }
            | Line::Cut { .. } => None,
        }
    }
}

/// The lines of a job, in their order.
pub type JobPart = Items<Line>;

/// The jobs of a round, in their order.
pub type RoundPart = Items<JobPart>;

/// A part of a scenario.
#[derive(Drop)]
pub enum Part {
    /// A round.
    Round(RoundPart),
    /// The authentication centre starts again, with what it reserved.
    Restart,
}
