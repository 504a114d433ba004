//! Why a block isn't heard.

ghost use Rattle.std.specs.Prelude.{◌≡◌};
ghost use Rattle.auc_block.specs.declared.trouble.Trouble.TheVariants as trouble;

use auc_memory::{Failed, NoMemory};
use std::alloc::AllocError;

/// Why no block is answered.
#[derive(Clone, Copy, PartialEq, Eq)]
pub enum Trouble {
    /// The wire failed: its count of faults rose.
    Failed,
    /// Memory ran out.
    NoMemory,
    /// A block above the limit didn't end within 2^64 - 1 further pieces.
    Endless,
}

impl From<Failed> for Trouble {
    ghost from_gives = { λ _ found. found ≡ trouble.Failed };

    fn from(_: Failed) -> Trouble {
        Trouble::Failed
    }
}

impl From<NoMemory> for Trouble {
    ghost from_gives = { λ _ found. found ≡ trouble.NoMemory };

    fn from(_: NoMemory) -> Trouble {
        Trouble::NoMemory
    }
}

impl From<AllocError> for Trouble {
    ghost from_gives = { λ _ found. found ≡ trouble.NoMemory };

    fn from(_: AllocError) -> Trouble {
        Trouble::NoMemory
    }
}
