//! Why a journal isn't written anew.

ghost use Rattle.std.specs.Prelude.{◌≡◌};
ghost use Rattle.auc_compact.specs.declared.refusal.CompactRefusal.TheVariants as refusal;

use auc_memory::NoMemory;

/// Why a journal isn't written anew.
#[derive(Clone, Copy)]
pub enum CompactRefusal {
    /// Its bytes would be more than 2^30.
    TooLong,
    /// Memory ran out.
    NoMemory,
}

impl From<NoMemory> for CompactRefusal {
    ghost from_gives = { λ _ e. e ≡ refusal.NoMemory };

    fn from(_why: NoMemory) -> CompactRefusal {
        CompactRefusal::NoMemory
    }
}
