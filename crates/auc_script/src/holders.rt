//! Which jobs of a round hold a USIM.

ghost use Rattle.std.specs.Prelude.{◌≡◌, ◌<◌, ◌+◌, ◌^◌, length, replicate, IfOk, IfSome};
ghost use Rattle.auc_lines.specs.Part.{held_by};
ghost use Rattle.auc_script.specs.Scenario.{is_busy};
ghost use Rattle.auc_script.specs.InnerSoFar.{AreMarks, marked};

use crate::round_so_far::RoundSoFar;
use auc_lines::Line;
use auc_memory::NoMemory;
use std::alloc::Global;

/// For each USIM the job that held it last, by its number from 1 over all rounds.
#[derive(Drop)]
pub struct Holders {
    /// How many jobs the earlier rounds have.
    pub before: u32,
    /// The numbers, by subscribers' places; 0 if no job held it.
    pub marks: Vec<u32>,
}

impl Holders {
    /// No job, over so many subscribers, after so many jobs of earlier rounds.
    pub fn over(alloc: Global, subs: u32, before: u32) -> Result<Holders, NoMemory>
        ensures before { IfOk result (λ holders. holders.before ≡ before) }
        ensures marks { IfOk result (λ holders. holders.marks.items ≡ replicate subs 0) }
    {
        let marks = vec![in alloc; 0; subs as usize]?;
        Ok(Holders { before, marks })
    }

    /// Whether an earlier job of the round holds the USIM that a line's job is to hold.
    pub fn is_busy(&self, round: &RoundSoFar, line: &Line) -> bool
        requires known { IfSome (held_by line.now) (λ sub. sub < length self.now.marks.items) }
        requires marks { AreMarks self.now.before self.now.marks.items round.now }
        requires room { self.now.before + length round.now.jobs < 2 ^ 32 }
        ensures { result ≡ is_busy round.now.jobs (held_by line.now) }
    {
        let Some(sub) = line.held() else {
            return false;
        };
        let mark = self.marks[sub as usize];
        mark > self.before && mark <= self.before + round.jobs.len() as u32
    }

    /// Notes a line of the present job.
    pub fn note(&mut self, round: &RoundSoFar, line: &Line)
        requires known { IfSome (held_by line.now) (λ sub. sub < length self.old.marks.items) }
        requires room { self.old.before + length round.now.jobs + 1 < 2 ^ 32 }
        ensures before { self.new.before ≡ self.old.before }
        ensures marks { self.new.marks.items
            ≡ marked self.old.marks.items (self.old.before + length round.now.jobs + 1) (held_by line.now) }
    {
        let Some(sub) = line.held() else {
            return;
        };
        self.marks[sub as usize] = self.before + round.jobs.len() as u32 + 1;
    }
}
