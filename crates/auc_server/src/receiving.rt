//! What a server does with received bytes.

ghost use Rattle.std.specs.Prelude.{◌≡◌, ◌≤◌, length, is_some, IfOk, OnErr};
ghost use Rattle.auc_vector.specs.Notes.{AskedCentre};
ghost use Rattle.auc_server.specs.InnerPlan.{IsFit, IsFitAlone, deed_does, homes_by, homes_planned, needs_of, plan_asks, plan_does};
ghost use Rattle.auc_server.specs.Steps.{IsServed, OnlyAsks, Steps, bytes_of};

use crate::asking::{draw, redraw};
use crate::challenge::Drawn;
use crate::plan::{Deed, Notice, Plan};
use crate::server::Server;
use crate::setting::HomeRow;
use crate::turns::{Told, noted};
use auc_memory::NoMemory;
use auc_packet::receive;
use auc_subs::Setting;
use auc_vector::{Centre, NumberNote, ServerWhy, Turn};
use std::sync::Wait;

/// A number that was drawn without a resynchronisation.
fn without_report(number: NumberNote, checked: bool) -> Drawn
    ensures { result ≡ record { resync = None; number = number; checked = checked } }
{
    Drawn {
        resync: None,
        number,
        checked,
    }
}

impl Server {
    /// Takes received bytes, as the table has it (RFC 4187 §3, §6 and §9, RFC 9048 §3). If memory runs out, the server, the homes and
    /// the centre stay as they were. No message has more than 728 bytes.
    pub fn on_bytes<C: Centre, R: Wait>(
        &mut self,
        rt: &R,
        set: &Setting,
        homes: &mut [HomeRow],
        centre: &mut C,
        bytes: &[u8],
    ) -> Result<Turn<ServerWhy>, NoMemory>
        requires { IsServed set.now.rows (C.subs centre.old) (C.top centre.old) homes.old self.old }

        ensures step { IfOk result (λ turn. Steps C.goes C.kept C.top set.now homes.old self.old bytes.now centre.old self.new turn homes.new centre.new) }
        ensures small { IfOk result (λ turn. length (bytes_of turn.step) ≤ 728) }
        ensures served { IsServed set.now.rows (C.subs centre.new) (C.top centre.new) homes.new self.new }
        ensures only { OnlyAsks C.subs C.top C.name centre.old centre.new }

        ensures server { OnErr result (self.new ≡ self.old) }
        ensures homes { OnErr result (homes.new ≡ homes.old) }
        ensures centre { OnErr result (centre.new ≡ centre.old) }
    {
        let received = receive(self.alloc, bytes)?;
        let plan = self.plan(set, homes, &received)?;
        Ok(self.take(rt, set, homes, centre, plan))
    }

    /// Does what was planned.
    fn take<C: Centre, R: Wait>(
        &mut self,
        rt: &R,
        set: &Setting,
        homes: &mut [HomeRow],
        centre: &mut C,
        plan: Plan,
    ) -> Turn<ServerWhy>
        requires fits { IsFit self.old.options set.now.rows homes.old plan }
        requires served { IsServed set.now.rows (C.subs centre.old) (C.top centre.old) homes.old self.old }

        ensures step { (self.new, result) ≡ plan_does set.now homes.old self.old plan result.notes }
        ensures homes { homes.new ≡ homes_planned homes.old self.old plan result.notes }
        ensures small { length (bytes_of result.step) ≤ 728 }
        ensures asked { AskedCentre C.goes C.kept C.top (plan_asks plan) result.notes centre.old centre.new }
        ensures drawn { is_some result.notes.number ≡ needs_of (plan_asks plan) result.notes }
        ensures only { OnlyAsks C.subs C.top C.name centre.old centre.new }
    {
        match plan {
            Plan::Challenge(sub, said, rooms) => {
                let number = draw(rt, centre, sub);
                self.identify(said);
                self.challenge(set, homes, sub, without_report(number, false), rooms)
            }
            Plan::TooSmall(sub, rooms) => {
                let number = draw(rt, centre, sub);
                self.challenge(set, homes, sub, without_report(number, true), rooms)
            }
            Plan::Resynchronise(sub, seq, rooms) => {
                let answered = redraw(rt, centre, sub, seq);
                self.resynchronise(set, homes, sub, answered, rooms)
            }
            Plan::Alone(deed) => self.perform(set, homes, deed),
        }
    }

    /// Does what asks the centre for nothing.
    fn perform(&mut self, set: &Setting, homes: &mut [HomeRow], deed: Deed) -> Turn<ServerWhy>
        requires { IsFitAlone self.old.options deed }

        ensures step { (self.new, result) ≡ deed_does set.now homes.old self.old deed }
        ensures homes { homes.new ≡ homes_by homes.old self.old deed }
        ensures small { length (bytes_of result.step) ≤ 728 }
    {
        match deed {
            Deed::Ignore(why) => self.ignore(why),
            Deed::Ask(kind, said, request) => self.ask(kind, said, request),
            Deed::Refuse(said, rooms) => self.refuse_identity(said, rooms),
            Deed::Resume(sub, said, rooms) => self.resume(set, homes, sub, said, rooms),
            Deed::Notify(notice, rooms) => {
                let Notice {
                    why,
                    resync,
                    checked,
                } = notice;
                let told = Told {
                    notes: noted(resync, None),
                    checked,
                };
                self.notify(why, told, rooms)
            }
            Deed::Succeed(sent, room) => self.succeed(homes, sent, room),
            Deed::SucceedAgain(sent, room) => self.succeed_again(homes, sent, room),
            Deed::Fail(why, room) => self.fail(why, room),
        }
    }
}
