//! Laws of the ends that no single call shows.

ghost use Rattle.auc_sim.specs.EndLaws.{EachSentPacketLeavesFewer};

/// A server that sends bytes may send fewer packets from then on: two at first, one while it waits for the Challenge
/// response, and none after the end.
pub fn each_sent_packet_leaves_fewer()
    ensures { EachSentPacketLeavesFewer }
{}
