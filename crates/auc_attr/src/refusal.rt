//! Why bytes aren't attributes.

ghost use Rattle.std.specs.Prelude.{◌≡◌};
ghost use Rattle.auc_attr.specs.declared.refusal.AttrRefusal.TheVariants as refusal;

use auc_memory::NoMemory;

/// The first fault of bytes that are read as attributes.
#[derive(Clone, Copy, Debug, PartialEq, Eq)]
pub enum AttrRefusal {
    /// The bytes end within an attribute.
    Truncated,
    /// An attribute has the length 0.
    ZeroLength,
    /// The attribute of this type has a length that its value doesn't allow.
    BadLength(u8),
    /// This type is below 128 and isn't known (RFC 4187 §8.2).
    UnknownType(u8),
    /// An attribute of this type stands twice.
    Twice(u8),
    /// A byte of the padding isn't zero (RFC 4187 §10.12).
    BadPadding,
    /// Memory ran out.
    NoMemory,
}

impl From<NoMemory> for AttrRefusal {
    ghost from_gives = { λ _ fault. fault ≡ refusal.NoMemory };

    fn from(_: NoMemory) -> AttrRefusal {
        AttrRefusal::NoMemory
    }
}
