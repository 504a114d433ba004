//! A packet.

use crate::attr_list::SimList;

/// A packet of EAP with the contents that EAP-SIM has.
#[derive(Drop)]
pub enum SimPacket {
    /// Success, with its Identifier (RFC 3748 §4.2).
    Success(u8),
    /// Failure, with its Identifier (RFC 3748 §4.2).
    Failure(u8),
    /// A message of EAP-SIM (RFC 4186 §8.1).
    Sim {
        /// Whether it is a Request.
        request: bool,
        /// The Identifier.
        id: u8,
        /// The Subtype: 10 Start, 11 Challenge, 14 Client-Error (RFC 4186 §11).
        subtype: u8,
        /// The attributes, in their order.
        attrs: SimList,
    },
}
