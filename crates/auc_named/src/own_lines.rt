//! Plain lines over the places of the subscribers that they name.

ghost use Rattle.std.specs.Prelude.{◌≡◌, ◌<◌, All, AllPairs, Contains, IfOk, IfSome, length, map, true};
ghost use Rattle.std.specs.Option.{is_some};
ghost use Rattle.auc_named.specs.InnerNaming.{IsAtAPlace, IsOwnLine};
ghost use Rattle.auc_named.specs.Named.{is_plain, line_of, lines_of, sub_of};

use crate::places::position;
use auc_lines::{JobPart, Line, Report};
use auc_memory::{Items, NoMemory};
use std::alloc::Global;

/// Jobs over the subscribers at some places.
pub(crate) fn own_jobs(
    alloc: Global,
    places: &[u32],
    jobs: &[JobPart],
) -> Result<Items<JobPart>, NoMemory>
    requires rising { AllPairs ◌<◌ places.now }
    requires there { All (λ job. All (IsAtAPlace places.now) job) jobs.now }
    ensures own { IfOk result (All (λ job. All (IsOwnLine (length places.now)) job)) }
    ensures same { IfOk result (λ own. lines_of places.now own ≡ jobs.now) }
{
    let mut own = Items::new(alloc);
    for job in jobs {
        own.push(own_job(alloc, places, job.as_slice())?)?;
    }
    Ok(own)
}

/// A job over the subscribers at some places.
fn own_job(alloc: Global, places: &[u32], job: &[Line]) -> Result<JobPart, NoMemory>
    requires rising { AllPairs ◌<◌ places.now }
    requires there { All (IsAtAPlace places.now) job.now }
    ensures own { IfOk result (All (IsOwnLine (length places.now))) }
    ensures same { IfOk result (λ own. map (line_of places.now) own ≡ job.now) }
{
    let mut own = Items::new(alloc);
    for line in job {
        if let Some(line) = own_line(places, line) {
            own.push(line)?;
        }
    }
    Ok(own)
}

/// A plain line over the subscribers at some places, or `None` if a line isn't plain.
fn own_line(places: &[u32], line: &Line) -> Option<Line>
    requires rising { AllPairs ◌<◌ places.now }
    requires there { is_plain line.now ≡ true → Contains places.now (sub_of line.now) }
    ensures own { IfSome result (IsOwnLine (length places.now)) }
    ensures same { IfSome result (λ own. line_of places.now own ≡ line.now) }
    ensures plain { is_some result ≡ is_plain line.now }
{
    match *line {
        Line::Draw { sub, count } => Some(Line::Draw {
            sub: position(places, sub),
            count,
        }),
        Line::Sync {
            sub,
            report: Report::Auts { auts, rand },
            count,
        } => Some(Line::Sync {
            sub: position(places, sub),
            report: Report::Auts { auts, rand },
            count,
        }),
        _ => None,
    }
}
