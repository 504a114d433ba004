//! Bytes and the packet that they are.

ghost use Rattle.std.specs.Prelude.{◌≤◌, length, IfOk};
ghost use Rattle.auc_packet_cli.specs.Answer.{IsAnswer};

use auc_memory::{NoMemory, Octets};
use auc_packet::{Packet, PacketRefusal, read_packet, write_packet};
use std::alloc::Global;

/// What reading bytes as a packet gives.
#[derive(Drop)]
pub enum Answer {
    /// A packet, and its spelling.
    Read(Packet, Octets),
    /// No packet, for this cause.
    Refused(PacketRefusal),
}

/// Reads bytes as a packet, and writes it again.
pub fn answer_of(alloc: Global, bytes: &[u8]) -> Result<Answer, NoMemory>
    requires { length bytes.now ≤ 4096 }
    ensures { IfOk result (λ answer. IsAnswer bytes.now answer) }
{
    let packet = match read_packet(alloc, bytes) {
        Ok(packet) => packet,
        Err(PacketRefusal::NoMemory) => return Err(NoMemory),
        Err(refusal) => return Ok(Answer::Refused(refusal)),
    };
    let mut written = Octets::new(alloc);
    write_packet(&packet, &mut written)?;
    Ok(Answer::Read(packet, written))
}
