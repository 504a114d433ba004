//! EPS and 5G: what a job does with a vector that its line asks for.

ghost use Rattle.std.specs.Prelude.{◌≡◌, ◌≤◌, ◌<◌, [], ◌∷◌, true, length, slice_get, OnOk, Some};
ghost use Rattle.auc_5g.specs.Keys.{home_of};
ghost use Rattle.auc_cards.specs.Known.{IsKnownFiveg};
ghost use Rattle.auc_lines.specs.Part.{IsStarBit};
ghost use Rattle.auc_subs.specs.Subscriber.{top_at};
ghost use Rattle.auc_subs.specs.declared.row.Row.{Row};
ghost use Rattle.auc_record.specs.declared.record.GiveVerdict.TheVariants as given;
ghost use Rattle.auc_world.specs.Given.{Authenticates, EpsGives, FivegFollows, FivegGives, hxres_lines, judged_lines, outcome_of as outcome_is};
ghost use Rattle.auc_record.specs.VectorAt.{vector_of_row};
ghost use Rattle.auc_jobs.specs.InnerUsims.{has_usim, usim_of};
ghost use Rattle.auc_jobs.specs.InnerWorker.{GoesOnBeside, WorkerServes};

use crate::giving::UsimAnswer;
use crate::worker::Worker;
use auc_5g::{DeviceKeys, HomeKeys, Judged, device, eps_key, home, judge, standard_hxres_star};
use auc_lines::FivegLine;
use auc_memory::NoMemory;
use auc_request::is_separated;
use auc_vector::Centre;
use auc_world::{BoxedFurther, FivegOutcome, Further, LineRecord, turned, vector_at};
use std::alloc::Global;
use std::sync::Wait;

/// What the networks make of RES* that reaches them (TS 33.501 §6.1.3.2).
fn outcome_of(home: &HomeKeys, device: &DeviceKeys, res_star: [u8; 16]) -> FivegOutcome
    ensures { result ≡ outcome_is home.now device.now res_star }
{
    match judge(home, res_star) {
        Judged::ServingRefused => FivegOutcome::ServingRefused,
        Judged::HomeRefused => FivegOutcome::HomeRefused,
        Judged::Confirmed => FivegOutcome::Confirmed {
            home: home.k_seaf,
            device: device.k_seaf,
        },
    }
}

impl<C: Centre> Worker<'_, C> {
    /// Says what follows from released vectors, or an event of sites.
    pub(crate) fn say(&mut self, alloc: Global, said: Further) -> Result<(), NoMemory>
        ensures said { OnOk result (WorkerServes C.kept C.goes self.old self.new
            (λ before lines. lines ≡ LineRecord.Further said ∷ [])) }
        ensures same { GoesOnBeside (C.name self.old.centre) (C.name self.new.centre) self.old self.new }
    {
        let further = BoxedFurther::new(alloc, said)?;
        self.lines.push(LineRecord::Further(further))
    }

    /// Asks for a vector of a subscriber, and says its K_ASME for the serving network of an SN id (TS 33.401 Annex A.2).
    pub(crate) fn eps<R: Wait>(
        &mut self,
        rt: &R,
        alloc: Global,
        sub: u32,
        snid: [u8; 3],
    ) -> Result<(), NoMemory>
        requires { sub < length self.old.set.rows }
        ensures given { OnOk result (WorkerServes C.kept C.goes self.old self.new
            (λ before. EpsGives self.old.set sub snid)) }
        ensures same { GoesOnBeside (C.name self.old.centre) (C.name self.new.centre) self.old self.new }
    {
        let Some(n) = self.draw_next(rt, sub)? else {
            return Ok(());
        };
        let vector = vector_at(self.set, sub, n);
        self.say(alloc, Further::Kasme(eps_key(&vector, snid)))
    }

    /// Asks for a vector of a subscriber, and authenticates the subscriber's device with it (TS 33.501 §6.1.3.2).
    pub(crate) fn fiveg<R: Wait>(
        &mut self,
        rt: &R,
        alloc: Global,
        line: &FivegLine,
    ) -> Result<(), NoMemory>
        requires known { IsKnownFiveg (length self.old.set.rows) line.now }
        requires own { has_usim (usim_of self.old.set.rows self.old.world) line.now.sub ≡ true }

        ensures given { OnOk result (WorkerServes C.kept C.goes self.old self.new
            (λ before. FivegGives self.old.set before line.now)) }
        ensures same { GoesOnBeside (C.name self.old.centre) (C.name self.new.centre) self.old self.new }
    {
        let Some(n) = self.draw_next(rt, line.sub)? else {
            return Ok(());
        };
        self.authenticate(alloc, line, n)
    }

    /// Authenticates the subscriber's device with the vector of a number, if the separation bit of its AMF is set.
    fn authenticate(&mut self, alloc: Global, line: &FivegLine, n: u64) -> Result<(), NoMemory>
        requires known { IsKnownFiveg (length self.old.set.rows) line.now }
        requires own { has_usim (usim_of self.old.set.rows self.old.world) line.now.sub ≡ true }
        requires first { 1 ≤ n }
        requires last { n ≤ top_at self.old.set.rows line.now.sub }

        ensures given { OnOk result (WorkerServes C.kept C.goes self.old self.new
            (λ before. FivegFollows self.old.set before line.now n)) }
        ensures same { GoesOnBeside (C.name self.old.centre) (C.name self.new.centre) self.old self.new }
    {
        let vector = vector_at(self.set, line.sub, n);
        if is_separated(vector.autn) {
            self.challenge(alloc, line, n, &home(&vector, line.home.as_slice()))
        } else {
            self.say_outcome(alloc, line.sub, FivegOutcome::NoSeparation)
        }
    }

    /// Presents the vector of a number to the subscriber's USIM. If the USIM accepts it, the device's RES* reaches the
    /// networks.
    fn challenge(
        &mut self,
        alloc: Global,
        line: &FivegLine,
        n: u64,
        home: &HomeKeys,
    ) -> Result<(), NoMemory>
        requires known { IsKnownFiveg (length self.old.set.rows) line.now }
        requires own { has_usim (usim_of self.old.set.rows self.old.world) line.now.sub ≡ true }
        requires first { 1 ≤ n }

        ensures given { OnOk result (WorkerServes C.kept C.goes self.old self.new
            (λ before lines. (row : Row) → slice_get self.old.set.rows line.now.sub ≡ Some row
            → home.now ≡ home_of (vector_of_row self.old.set row line.now.sub n) line.now.home
            → Authenticates self.old.set before line.now row n lines)) }
        ensures same { GoesOnBeside (C.name self.old.centre) (C.name self.new.centre) self.old self.new }
    {
        let UsimAnswer::Accepted(usim) = self.presented(line.sub, n)? else {
            return Ok(());
        };
        let name = line.device.as_slice();
        let device = device(
            usim.res, usim.ck, usim.ik, usim.ak, usim.sqn, home.rand, name,
        );
        self.compare(alloc, line, home, &device)
    }

    /// Says what the networks make of the device's RES*, with a bit turned over if the line names one, and before it HXRES*
    /// if the line asks for it.
    fn compare(
        &mut self,
        alloc: Global,
        line: &FivegLine,
        home: &HomeKeys,
        device: &DeviceKeys,
    ) -> Result<(), NoMemory>
        requires bit { IsStarBit line.now.bit }
        ensures told { OnOk result (WorkerServes C.kept C.goes self.old self.new
            (λ before lines. lines ≡ judged_lines line.now home.now device.now given.Accepted)) }
        ensures same { GoesOnBeside (C.name self.old.centre) (C.name self.new.centre) self.old self.new }
    {
        self.say_hxres_star(alloc, line.hxres, home)?;
        let res_star = turned(device.res_star, line.bit);
        self.say_outcome(alloc, line.sub, outcome_of(home, device, res_star))
    }

    /// Says HXRES* of TS 33.501 Annex A.5, if it is asked for.
    fn say_hxres_star(
        &mut self,
        alloc: Global,
        asked: bool,
        home: &HomeKeys,
    ) -> Result<(), NoMemory>
        ensures told { OnOk result (WorkerServes C.kept C.goes self.old self.new
            (λ before lines. lines ≡ hxres_lines asked home.now)) }
        ensures same { GoesOnBeside (C.name self.old.centre) (C.name self.new.centre) self.old self.new }
    {
        if asked {
            self.say(
                alloc,
                Further::HxresStar(standard_hxres_star(home.rand, home.xres_star)),
            )
        } else {
            Ok(())
        }
    }

    /// Says what became of a 5G authentication of a subscriber.
    fn say_outcome(
        &mut self,
        alloc: Global,
        sub: u32,
        outcome: FivegOutcome,
    ) -> Result<(), NoMemory>
        ensures told { OnOk result (WorkerServes C.kept C.goes self.old self.new
            (λ before lines. lines ≡ LineRecord.Further (Further.Fiveg sub outcome) ∷ [])) }
        ensures same { GoesOnBeside (C.name self.old.centre) (C.name self.new.centre) self.old self.new }
    {
        self.say(alloc, Further::Fiveg { sub, outcome })
    }
}
