//! Why reservations ended in a round, as its lines tell it.

ghost use Rattle.std.specs.Prelude.{◌≡◌, None, Some, if◌then◌else◌};
ghost use Rattle.std.specs.List.{list_any};
ghost use Rattle.auc_memory.specs.declared.stop.Stop.TheVariants.{Full};
ghost use Rattle.auc_jobs.specs.InnerKeeping.{told_stop, withholds};

use auc_memory::Stop;
use auc_vector::NumberNote;
use auc_world::{JobRecord, LineRecord};

/// Why reservations ended in a round whose keeper stopped so. A journal without room for a frame is no matter for a round
/// that withheld nothing.
pub(crate) fn told_stop(stop: Option<Stop>, records: &[JobRecord]) -> Option<Stop>
    ensures { result ≡ told_stop stop records.now }
{
    match stop {
        Some(Stop::Full) => full_if(round_withholds(records)),
        Some(Stop::Fault) | None => stop,
    }
}

/// That the journal is full, if a number was withheld.
fn full_if(withheld: bool) -> Option<Stop>
    ensures { result ≡ (if withheld then Some Full else None) }
{
    if withheld { Some(Stop::Full) } else { None }
}

/// Whether a line of a round withholds a number.
fn round_withholds(records: &[JobRecord]) -> bool
    ensures { result ≡ list_any (list_any withholds) records.now }
{
    records.iter().any(job_withholds)
}

/// Whether a line of a job withholds a number.
fn job_withholds(job: &JobRecord) -> bool
    ensures { result ≡ list_any withholds job.now }
{
    job.as_slice().iter().any(withholds)
}

/// Whether a line withholds a number.
fn withholds(line: &LineRecord) -> bool
    ensures { result ≡ withholds line.now }
{
    matches!(line.number_note(), Some(NumberNote::Withheld(..)))
}
