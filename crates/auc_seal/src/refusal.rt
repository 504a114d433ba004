//! Refusals of decryption.

ghost use Rattle.std.specs.Prelude.{◌≡◌};
ghost use Rattle.auc_seal.specs.declared.refusal.SealRefusal.TheVariants as refusal;

use auc_attr::AttrRefusal;
use auc_memory::NoMemory;

/// Why encrypted attributes (RFC 4187 §10.12) aren't decrypted.
#[derive(Clone, Copy, Debug, PartialEq, Eq)]
pub enum SealRefusal {
    /// The list has AT_ENCR_DATA and no AT_IV.
    NoIv,
    /// The size of the ciphertext is zero, or no multiple of 16 bytes.
    BadSize,
    /// The decrypted bytes have this fault, which isn't `NoMemory`.
    Attr(AttrRefusal),
    /// Memory ran out.
    NoMemory,
}

impl From<NoMemory> for SealRefusal {
    ghost from_gives = { λ _ refused. refused ≡ refusal.NoMemory };

    fn from(_: NoMemory) -> SealRefusal {
        SealRefusal::NoMemory
    }
}
