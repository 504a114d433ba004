//! Laws of the packets that no single call shows.

ghost use Rattle.auc_sim_packet.specs.PacketLaws.{OnePacket, OneFault, RefusedIsNotRead, WrittenIsRead, ReadIsWritable};
ghost use Rattle.auc_sim_packet.specs.Received.{OneReceived};
ghost use Rattle.auc_sim_packet.specs.Sealed.{SealedIsRead, SealedIsRight, WrittenIsReceived};

/// Bytes are one packet.
pub fn bytes_are_one_packet()
    ensures { OnePacket }
{}

/// Bytes have one first fault.
pub fn bytes_have_one_first_fault()
    ensures { OneFault }
{}

/// Bytes with a fault aren't a packet.
pub fn refused_bytes_are_no_packet()
    ensures { RefusedIsNotRead }
{}

/// What is written of a packet is read as that packet, whatever follows it.
pub fn written_packets_are_read()
    ensures { WrittenIsRead }
{}

/// A packet that was read may be written if it isn't too long, and takes as many bytes as Length says, no more than there
/// are: only reserved bytes and fill differ.
pub fn read_packets_may_be_written()
    ensures { ReadIsWritable }
{}

/// Equal bytes are received alike: as the same packet or with a fault, and with the same AT_MAC.
pub fn equal_bytes_are_received_alike()
    ensures { OneReceived }
{}

/// A written packet is received as the packet that it is, whatever follows it.
pub fn written_packets_are_received()
    ensures { WrittenIsReceived }
{}

/// A sealed message is received as the message that it is, whatever follows it.
pub fn sealed_messages_are_read()
    ensures { SealedIsRead }
{}

/// A sealed message is received with a right MAC, whatever follows it.
pub fn sealed_messages_are_right()
    ensures { SealedIsRight }
{}
