//! The present round of a scenario.

ghost use Rattle.std.specs.Prelude.{◌≡◌, [], IfOk, OnOk};
ghost use Rattle.auc_script.specs.Scenario.{jobs_in};
ghost use Rattle.auc_script.specs.InnerSoFar.{with_last};

use auc_lines::{JobPart, Line, RoundPart};
use auc_memory::{Items, NoMemory};
use std::alloc::Global;
use std::mem::replace;

/// The present round, as far as it was read.
#[derive(Drop)]
pub struct RoundSoFar {
    /// The jobs before the present one.
    pub jobs: RoundPart,
    /// The present job, once one has begun.
    pub job: Option<JobPart>,
}

impl RoundSoFar {
    /// Begins a job.
    pub fn begin_job(&mut self, alloc: Global) -> Result<(), NoMemory>
        ensures { OnOk result (self.new ≡ record { jobs = jobs_in self.old; job = Some [] }) }
    {
        if let Some(job) = self.job.take() {
            self.jobs.push(job)?;
        }
        drop(replace(&mut self.job, Some(Items::new(alloc))));
        Ok(())
    }

    /// Puts a line after the last of the present job, if there is one.
    pub fn put(&mut self, line: Line) -> Result<(), NoMemory>
        ensures { OnOk result (self.new ≡ record { jobs = self.old.jobs; job = with_last self.old.job line }) }
    {
        match &mut self.job {
            Some(job) => job.push(line),
            None => {
                drop(line);
                Ok(())
            }
        }
    }

    /// All its jobs.
    pub fn end(self) -> Result<RoundPart, NoMemory>
        ensures { IfOk result (λ jobs. jobs ≡ jobs_in self) }
    {
        let mut jobs = self.jobs;
        if let Some(job) = self.job {
            jobs.push(job)?;
        }
        Ok(jobs)
    }
}
