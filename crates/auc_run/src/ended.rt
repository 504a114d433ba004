//! How a run or one of its forms ends.

ghost use Rattle.std.specs.Prelude.{◌≡◌, Err};

use auc_disk::Disk;
use auc_journal::Journal;
use auc_refusal::{Refusal, Status};

/// What a run leaves.
#[derive(Drop)]
pub struct Ended<D: Drop> {
    /// How it ended.
    pub status: Status,
    /// The disk, as the last call left it.
    pub disk: D,
}

/// What a form of the words did, and its disk.
#[derive(Drop)]
pub(crate) struct Performed<D: Drop> {
    pub(crate) disk: D,
    pub(crate) result: Result<(), Refusal>,
}

/// What is left of a journal if a refusal ends the run.
pub(crate) fn refused<D: Disk + Drop>(journal: Journal<D>, refusal: Refusal) -> Performed<D>
    ensures disk { result.disk ≡ journal.disk }
    ensures refused { result.result ≡ Err refusal }
{
    Performed {
        disk: journal.into_disk(),
        result: Err(refusal),
    }
}
