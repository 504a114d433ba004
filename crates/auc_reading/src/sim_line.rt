//! The line for sessions of EAP-SIM.

ghost use Rattle.std.specs.Prelude.{◌≡◌, ◌≤◌, ◌<◌, true, length, map, IfOk, IfSome};
ghost use Rattle.auc_lines.specs.Part.{held_by};
ghost use Rattle.auc_lines.specs.Sim.{IsSchedule};
ghost use Rattle.auc_text.specs.Text.{words_of};
ghost use Rattle.auc_reading.specs.Refusal.{Says};
ghost use Rattle.auc_reading.specs.Ranges.{IsLine};
ghost use Rattle.auc_reading.specs.Numbers.{most_events};
ghost use Rattle.auc_reading.specs.JobLine.{sim_of};
ghost use Rattle.auc_reading.specs.Schedule.{all_of, each_of};
ghost use Rattle.auc_reading.specs.Texts.{has_fit_texts};
ghost use Rattle.auc_reading.specs.SimLine.{deliveries_of, delivery_of};

use crate::field::{is_text, read_number, three_fields};
use crate::limits::{LAST_PACKET, MAX_EVENTS, MAX_TRIPLETS, MIN_TRIPLETS};
use crate::refusal::{LineRefusal, ScriptWhy, require};
use crate::schedule::{are_there, behind, part_count, part_texts};
use auc_lines::{End, Line, SimDelivery, SimLine, SimSchedule};
use auc_memory::{Imsi, Items};
use auc_subs::Subscribers;
use std::alloc::Global;

/// What the fields `IMSI COUNT SCHEDULE` say.
pub fn read_sim(alloc: Global, subs: &Subscribers, fields: &[u8]) -> Result<Line, LineRefusal>
    ensures value { Says (sim_of subs.now (words_of fields.now)) result }
    ensures known { IfOk result (λ line. IfSome (held_by line) (λ sub. sub < length subs.now)) }
    ensures line { IfOk result (λ line. has_fit_texts line ≡ true → IsLine subs.now line) }
{
    let (imsi, count, schedule) = three_fields(fields)?;
    let imsi = Imsi::read(imsi).ok_or(ScriptWhy::Fields)?;
    let count = read_number(count, MIN_TRIPLETS, MAX_TRIPLETS)? as u32;
    let schedule = read_schedule(alloc, schedule)?;
    let sub = subs.find(imsi).ok_or(ScriptWhy::UnknownSubscriber)?;
    Ok(Line::Sim(SimLine::new(sub, count, schedule)))
}

/// What a schedule says.
fn read_schedule(alloc: Global, schedule: &[u8]) -> Result<SimSchedule, LineRefusal>
    ensures value { Says (deliveries_of schedule.now) result }
    ensures few { IfOk result IsSchedule }
{
    if is_text(schedule, b"plain") {
        return Ok(SimSchedule::Plain);
    }
    Ok(SimSchedule::Steps(read_steps(alloc, schedule)?))
}

/// What a schedule of deliveries says.
fn read_steps(alloc: Global, schedule: &[u8]) -> Result<Items<SimDelivery>, LineRefusal>
    ensures value { Says (all_of delivery_of schedule.now) result }
    ensures some { IfOk result (λ deliveries. 1 ≤ length deliveries) }
    ensures few { IfOk result (λ deliveries. length deliveries ≤ most_events) }
{
    require(part_count(schedule) <= MAX_EVENTS, ScriptWhy::Fields)?;
    let texts = part_texts(alloc, schedule)?;
    require(are_there(texts.as_slice()), ScriptWhy::Fields)?;
    read_deliveries(alloc, texts.as_slice())
}

/// What some deliveries say, from left to right.
fn read_deliveries(alloc: Global, texts: &[&[u8]]) -> Result<Items<SimDelivery>, LineRefusal>
    ensures value { Says (each_of delivery_of (map (λ text. text.now) texts.now)) result }
    ensures count { IfOk result (λ deliveries. length deliveries ≡ length texts.now) }
{
    let mut deliveries = Items::new(alloc);
    for text in texts {
        deliveries.push(read_delivery(text)?)?;
    }
    Ok(deliveries)
}

/// The delivery that a part of a schedule is.
fn read_delivery(text: &[u8]) -> Result<SimDelivery, ScriptWhy>
    ensures { result ≡ delivery_of text.now }
{
    if let Some(number) = behind(text, b"p") {
        return Ok(SimDelivery {
            end: End::Peer,
            packet: read_number(number, 0, LAST_PACKET)? as u32,
        });
    }
    let number = behind(text, b"s").ok_or(ScriptWhy::Fields)?;
    Ok(SimDelivery {
        end: End::Server,
        packet: read_number(number, 0, LAST_PACKET)? as u32,
    })
}
