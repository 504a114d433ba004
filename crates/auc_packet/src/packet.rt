//! A packet.

use crate::subtype::Subtype;
use auc_attr::AttrList;
use auc_hmac::Method;
use auc_memory::Octets;

/// A packet of EAP with the contents that EAP-AKA and EAP-AKA' have.
#[derive(Drop)]
pub enum Packet {
    /// Success, with its Identifier (RFC 3748 §4.2).
    Success(u8),
    /// Failure, with its Identifier (RFC 3748 §4.2).
    Failure(u8),
    /// Identity (RFC 3748 §5.1).
    Identity {
        /// Whether it is a Request.
        request: bool,
        /// The Identifier.
        id: u8,
        /// The text.
        text: Octets,
    },
    /// A message of a method (RFC 4187 §8.1).
    Aka {
        /// Whether it is a Request.
        request: bool,
        /// The Identifier.
        id: u8,
        /// The method, which the type tells.
        method: Method,
        /// The Subtype.
        subtype: Subtype,
        /// The attributes, in their order.
        attrs: AttrList,
    },
}

/// What every packet begins with, and the type of a Request or Response.
#[derive(Clone, Copy, PartialEq, Eq)]
pub struct Head {
    /// 1 Request, 2 Response, 3 Success, 4 Failure (RFC 3748 §4).
    pub code: u8,
    /// The Identifier.
    pub id: u8,
    /// The type of a Request or Response, and `None` for Success and Failure.
    pub kind: Option<u8>,
}
