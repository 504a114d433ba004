//! What is said of a session of EAP-SIM.

use crate::turn::Step;
use crate::why::SimWhy;
use auc_lines::End;
use auc_memory::Octets;

/// What became of a packet that was delivered to an end.
#[derive(Drop)]
pub enum SimBecame {
    /// There is no such packet.
    NoSuchPacket,
    /// The end did this, and what it sent is the packet `sent`.
    Did {
        /// What the end did.
        step: Step<SimWhy>,
        /// The number of the packet that it sent, if it sent one.
        sent: Option<u32>,
    },
}

/// What happened in a session of EAP-SIM. Packets are numbered from 1.
#[derive(Drop)]
pub enum SimNote {
    /// The server sent its first request, packet 1.
    Started(Octets),
    /// A packet was delivered to an end.
    Delivered {
        /// The end.
        end: End,
        /// The packet.
        packet: u32,
        /// What became of it.
        became: SimBecame,
    },
    /// Both ends ended in Success. Whether they have equal keys.
    Ended {
        /// Whether the keys are equal.
        agree: bool,
    },
}
