//! Why a file isn't read.

ghost use Rattle.std.specs.Prelude.{◌≡◌};
ghost use Rattle.auc_edge.specs.declared.read_refusal.ReadRefusal.TheVariants as refusal;

use auc_memory::{Failed, NoMemory};
use std::alloc::AllocError;

/// Why a file isn't read whole.
#[derive(Clone, Copy, PartialEq, Eq)]
pub enum ReadRefusal {
    /// A read failed: the shelf's count of faults of this name rose.
    ReadFault,
    /// The file has more bytes than the limit.
    TooLong,
    /// There was no memory for its bytes.
    NoMemory,
}

impl From<Failed> for ReadRefusal {
    ghost from_gives = { λ _ refused. refused ≡ refusal.ReadFault };

    fn from(_: Failed) -> ReadRefusal {
        ReadRefusal::ReadFault
    }
}

impl From<NoMemory> for ReadRefusal {
    ghost from_gives = { λ _ refused. refused ≡ refusal.NoMemory };

    fn from(_: NoMemory) -> ReadRefusal {
        ReadRefusal::NoMemory
    }
}

impl From<AllocError> for ReadRefusal {
    ghost from_gives = { λ _ refused. refused ≡ refusal.NoMemory };

    fn from(_: AllocError) -> ReadRefusal {
        ReadRefusal::NoMemory
    }
}
