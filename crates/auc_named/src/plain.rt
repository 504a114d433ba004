//! Whether lines are plain.

ghost use Rattle.std.specs.Prelude.{◌≡◌, All, true, false};
ghost use Rattle.auc_named.specs.Named.{ArePlain, is_as_it_came, is_plain};

use auc_lines::{JobPart, Line, Report};

/// Whether the lines of jobs are plain: each asks for numbers, or hands over an AUTS as it came.
pub fn are_plain(jobs: &[JobPart]) -> bool
    ensures plain { result ≡ true → ArePlain jobs.now }
    ensures other { result ≡ false → ArePlain jobs.now → ⊥ }
{
    jobs.iter().all(|job| is_plain_job(job.as_slice()))
}

/// Whether the lines of a job are plain.
fn is_plain_job(job: &[Line]) -> bool
    ensures plain { result ≡ true → All (λ line. is_plain line ≡ true) job.now }
    ensures other { result ≡ false → All (λ line. is_plain line ≡ true) job.now → ⊥ }
{
    job.iter().all(is_plain)
}

/// Whether a line is plain.
fn is_plain(line: &Line) -> bool
    ensures { result ≡ is_plain line.now }
{
    match *line {
        Line::Draw { .. } => true,
        Line::Sync { report, .. } => is_as_it_came(report),
        _ => false,
    }
}

/// Whether a report is an AUTS as it came.
fn is_as_it_came(report: Report) -> bool
    ensures { result ≡ is_as_it_came report }
{
    match report {
        Report::Seq { .. } => false,
        Report::Auts { .. } => true,
    }
}
