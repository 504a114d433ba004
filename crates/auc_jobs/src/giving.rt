//! Presenting vectors to USIMs.

ghost use Rattle.std.specs.Prelude.{◌≡◌, ◌≤◌, ◌<◌, ◌||◌, ◌++◌, ℕ, true, Some, List, length, slice_get, IfOk, OnOk};
ghost use Rattle.auc_random.specs.Random.{rand_of};
ghost use Rattle.auc_subs.specs.Subscriber.{AreSubscribers, top_at};
ghost use Rattle.auc_subs.specs.declared.row.Row.{Row};
ghost use Rattle.auc_record.specs.declared.record.LineRecord.{LineRecord};
ghost use Rattle.auc_record.specs.Lines.{is_in, numbers_of};
ghost use Rattle.auc_world.specs.Given.{GiveGives};
ghost use Rattle.auc_record.specs.Released.{has, AreReleased};
ghost use Rattle.auc_jobs.specs.InnerServing.{before_at, GivesVerdict, IsAnswered};
ghost use Rattle.auc_jobs.specs.InnerUsims.{HasKeys, Presents, has_usim, usim_of, verdict_by};
ghost use Rattle.auc_jobs.specs.InnerWorker.{GoesOnBeside, WorkerServes};
ghost use Rattle.auc_jobs.specs.Numbers.{AreNumbers};
ghost use Rattle.auc_jobs.specs.Usims.{AreBehind, HaveSecrets};

use crate::job_lines::JobLines;
use crate::worker::Worker;
use auc_memory::NoMemory;
use auc_released::Numbers;
use auc_sqn::top;
use auc_usim::Answer;
use auc_vector::Centre;
use auc_world::{GiveVerdict, LineRecord, Setting, World, vector_at};

/// What a USIM hands its device when it accepts a vector (TS 33.102 §6.3.3): RES, CK and IK; AK, and the SQN that it
/// accepted.
#[derive(Clone, Copy)]
pub(crate) struct UsimKeys {
    pub(crate) res: [u8; 8],
    pub(crate) ck: [u8; 16],
    pub(crate) ik: [u8; 16],
    pub(crate) ak: [u8; 6],
    pub(crate) sqn: [u8; 6],
}

/// What a USIM answers to the vector of a number, if it is asked.
#[derive(Clone, Copy)]
pub(crate) enum UsimAnswer {
    /// It accepts.
    Accepted(UsimKeys),
    /// The SQN is out of range, and it reports SQN_MS.
    Sync([u8; 6]),
    /// The centre hasn't released the vector.
    Absent,
}

impl UsimAnswer {
    /// The verdict that is recorded.
    fn verdict(&self) -> GiveVerdict
        ensures { result ≡ verdict_by self.now }
    {
        match *self {
            UsimAnswer::Accepted(_) => GiveVerdict::Accepted,
            UsimAnswer::Sync(sqn) => GiveVerdict::Sync(sqn),
            UsimAnswer::Absent => GiveVerdict::Absent,
        }
    }
}

/// Presents the vector of a subscriber's number, made again, to the subscriber's USIM.
fn present(set: &Setting, world: &mut World, sub: u32, n: u64) -> UsimAnswer
    requires subscribers { AreSubscribers set.now.rows }
    requires usims { HaveSecrets set.now.rows (usim_of set.now.rows world.old) }
    requires own { has_usim (usim_of set.now.rows world.old) sub ≡ true }
    requires known { sub < length set.now.rows }
    requires first { 1 ≤ n }
    requires last { n ≤ top_at set.now.rows sub }

    ensures presented { (lines : List LineRecord) → AreBehind set.now.rows lines (usim_of set.now.rows world.old)
        → Presents set.now.rows lines sub n (verdict_by result) (usim_of set.now.rows world.new) }
    ensures accepted { (row : Row) → slice_get set.now.rows sub ≡ Some row
        → HasKeys row n (rand_of set.now.key sub n) result }
    ensures usims { HaveSecrets set.now.rows (usim_of set.now.rows world.new) }
    ensures keyed { (i : ℕ) → has_usim (usim_of set.now.rows world.new) i ≡ has_usim (usim_of set.now.rows world.old) i }
    ensures net { world.new.net ≡ world.old.net }
{
    let made = vector_at(set, sub, n);
    match world.challenge(set, sub, made.rand, made.autn) {
        Answer::Accepted {
            res,
            ck,
            ik,
            ak,
            sqn,
            ..
        } => UsimAnswer::Accepted(UsimKeys {
            res,
            ck,
            ik,
            ak,
            sqn,
        }),
        Answer::SyncFailure { sqn, .. } => UsimAnswer::Sync(sqn),
        Answer::WrongMac => unreachable!(),
    }
}

/// Whether a subscriber's number was released, in an earlier round or by the job's lines.
fn is_released(released: &Numbers, lines: &mut JobLines, sub: u32, n: u64) -> Result<bool, NoMemory>
    ensures value { IfOk result (λ is. is
        ≡ (has released.now sub n || is_in n (numbers_of sub lines.old))) }
    ensures lines { lines.new ≡ lines.old }
{
    if released.has(sub, n) {
        return Ok(true);
    }
    lines.releases(sub, n)
}

impl<C: Centre> Worker<'_, C> {
    /// What the subscriber's USIM answers to the vector of a number, if it was released.
    fn answered(&mut self, sub: u32, n: u64) -> Result<UsimAnswer, NoMemory>
        requires own { has_usim (usim_of self.old.set.rows self.old.world) sub ≡ true }
        requires known { sub < length self.old.set.rows }
        requires first { 1 ≤ n }

        ensures answered { IfOk result (λ answer. (early : List LineRecord) (beside : List LineRecord)
            → AreReleased self.old.released early
            → AreNumbers self.old.set.rows early → AreNumbers self.old.set.rows self.old.lines
            → AreBehind self.old.set.rows (early ++ beside ++ self.old.lines) (usim_of self.old.set.rows self.old.world)
            → IsAnswered self.old.set.rows (before_at early beside self.old.lines) sub n (verdict_by answer)
            (usim_of self.old.set.rows self.new.world)) }
        ensures accepted { IfOk result (λ answer. (row : Row) → slice_get self.old.set.rows sub ≡ Some row
            → HasKeys row n (rand_of self.old.set.key sub n) answer) }
        ensures rest { self.new ≡ record self.old { world = self.new.world } }
        ensures keyed { (i : ℕ) → has_usim (usim_of self.old.set.rows self.new.world) i
            ≡ has_usim (usim_of self.old.set.rows self.old.world) i }
        ensures net { self.new.world.net ≡ self.old.world.net }
    {
        // No number was released that is above the subscriber's greatest one.
        let set = self.set;
        if n > top(set.subs.row(sub).bits) {
            return Ok(UsimAnswer::Absent);
        }
        if is_released(self.released, &mut self.lines, sub, n)? {
            Ok(present(self.set, &mut self.world, sub, n))
        } else {
            Ok(UsimAnswer::Absent)
        }
    }

    /// Presents the vector of a number to the subscriber's USIM, if it was released in an earlier round or by the job. The
    /// answer is the USIM's.
    pub(crate) fn presented(&mut self, sub: u32, n: u64) -> Result<UsimAnswer, NoMemory>
        requires own { has_usim (usim_of self.old.set.rows self.old.world) sub ≡ true }
        requires known { sub < length self.old.set.rows }
        requires first { 1 ≤ n }

        ensures given { IfOk result (λ answer. WorkerServes C.kept C.goes self.old self.new
            (λ before. GivesVerdict self.old.set before sub n (verdict_by answer))) }
        ensures accepted { IfOk result (λ answer. (row : Row) → slice_get self.old.set.rows sub ≡ Some row
            → HasKeys row n (rand_of self.old.set.key sub n) answer) }
        ensures same { GoesOnBeside (C.name self.old.centre) (C.name self.new.centre) self.old self.new }
    {
        let answer = self.answered(sub, n)?;
        let verdict = answer.verdict();
        self.lines.push(LineRecord::Give { sub, n, verdict })?;
        Ok(answer)
    }

    /// Presents the vector of a number to the subscriber's USIM in this way, and does no more.
    pub(crate) fn give(&mut self, sub: u32, n: u64) -> Result<(), NoMemory>
        requires own { has_usim (usim_of self.old.set.rows self.old.world) sub ≡ true }
        requires known { sub < length self.old.set.rows }
        requires first { 1 ≤ n }

        ensures given { OnOk result (WorkerServes C.kept C.goes self.old self.new
            (λ before. GiveGives self.old.set before sub n)) }
        ensures same { GoesOnBeside (C.name self.old.centre) (C.name self.new.centre) self.old self.new }
    {
        self.presented(sub, n)?;
        Ok(())
    }
}
