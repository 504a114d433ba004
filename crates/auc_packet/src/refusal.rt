//! Why bytes aren't a packet.

ghost use Rattle.std.specs.Prelude.{◌≡◌, ℕ, List};
ghost use Rattle.auc_packet.specs.declared.refusal.PacketRefusal.TheVariants as refusal;

use auc_attr::{AttrRefusal, FrameFault};
use auc_memory::NoMemory;

/// The first fault of bytes that are read as a packet.
#[derive(Clone, Copy, Debug, PartialEq, Eq)]
pub enum PacketRefusal {
    /// There are fewer than 4 bytes.
    Short,
    /// The code isn't 1 to 4 (RFC 3748 §4).
    BadCode,
    /// Length counts more bytes than there are, or a number that the code or the type doesn't have.
    LengthDisagrees,
    /// This type isn't Identity, EAP-AKA or EAP-AKA'.
    OtherType(u8),
    /// The method has no such Subtype (RFC 4187 §11).
    UnknownSubtype(u8),
    /// The attributes have this fault, which isn't `NoMemory`.
    Attr(AttrRefusal),
    /// Memory ran out.
    NoMemory,
}

impl From<NoMemory> for PacketRefusal {
    ghost from_gives = { λ _ fault. fault ≡ refusal.NoMemory };

    fn from(_: NoMemory) -> PacketRefusal {
        PacketRefusal::NoMemory
    }
}
