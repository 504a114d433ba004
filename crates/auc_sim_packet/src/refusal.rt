//! Why bytes aren't a packet.

ghost use Rattle.std.specs.Prelude.{◌≡◌};
ghost use Rattle.auc_sim_packet.specs.declared.refusal.SimRefusal.TheVariants as refusal;

use auc_attr::AttrRefusal;
use auc_memory::NoMemory;

/// The first fault of bytes that are read as a packet.
#[derive(Clone, Copy, Debug, PartialEq, Eq)]
pub enum SimRefusal {
    /// There are fewer than 4 bytes.
    Short,
    /// The code isn't 1 to 4 (RFC 3748 §4).
    BadCode,
    /// Length counts more bytes than there are, or a number that the code or the type doesn't have.
    LengthDisagrees,
    /// This type isn't EAP-SIM.
    OtherType(u8),
    /// EAP-SIM has no such Subtype, or it isn't read here (RFC 4186 §11).
    UnknownSubtype(u8),
    /// The attributes have this fault, which isn't `NoMemory`.
    Attr(AttrRefusal),
    /// Memory ran out.
    NoMemory,
}

impl From<NoMemory> for SimRefusal {
    ghost from_gives = { λ _ fault. fault ≡ refusal.NoMemory };

    fn from(_: NoMemory) -> SimRefusal {
        SimRefusal::NoMemory
    }
}
