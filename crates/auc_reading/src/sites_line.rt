//! The line for sites that hand out leased numbers.

ghost use Rattle.std.specs.Prelude.{◌≡◌, ◌≤◌, ◌<◌, true, length, map, All, IfOk, IfSome};
ghost use Rattle.auc_lines.specs.Part.{held_by};
ghost use Rattle.auc_lines.specs.Sites.{IsOfSites, IsSite};
ghost use Rattle.auc_text.specs.Text.{words_of};
ghost use Rattle.auc_reading.specs.Field.{number_between};
ghost use Rattle.auc_reading.specs.Refusal.{Says};
ghost use Rattle.auc_reading.specs.Ranges.{IsLine};
ghost use Rattle.auc_reading.specs.Numbers.{most_events};
ghost use Rattle.auc_reading.specs.JobLine.{sites_of};
ghost use Rattle.auc_reading.specs.Texts.{has_fit_texts};
ghost use Rattle.auc_reading.specs.Schedule.{each_of};
ghost use Rattle.auc_reading.specs.SitesLine.{event_of, events_of};

use crate::field::{four_fields, is_text, read_number};
use crate::limits::{LAST_PACKET, MAX_EVENTS, MAX_LEASED, MAX_SITES};
use crate::refusal::{LineRefusal, ScriptWhy, require};
use crate::schedule::{are_there, behind, part_count, part_texts};
use auc_lines::{Line, SiteEvent, SitesLine};
use auc_memory::{Imsi, Items};
use auc_subs::Subscribers;
use std::alloc::Global;

/// What the fields `IMSI SITES SIZE SCHEDULE` say.
pub fn read_sites(alloc: Global, subs: &Subscribers, fields: &[u8]) -> Result<Line, LineRefusal>
    ensures value { Says (sites_of subs.now (words_of fields.now)) result }
    ensures known { IfOk result (λ line. IfSome (held_by line) (λ sub. sub < length subs.now)) }
    ensures line { IfOk result (λ line. has_fit_texts line ≡ true → IsLine subs.now line) }
{
    let (imsi, sites, size, schedule) = four_fields(fields)?;
    let imsi = Imsi::read(imsi).ok_or(ScriptWhy::Fields)?;
    let sites = read_number(sites, 1, MAX_SITES)? as u32;
    let size = read_number(size, 1, MAX_LEASED)? as u32;
    let events = read_schedule(alloc, sites, schedule)?;
    let sub = subs.find(imsi).ok_or(ScriptWhy::UnknownSubscriber)?;
    Ok(Line::Sites(SitesLine::new(sub, sites, size, events)))
}

/// What a schedule says.
fn read_schedule(
    alloc: Global,
    sites: u32,
    schedule: &[u8],
) -> Result<Items<SiteEvent>, LineRefusal>
    ensures value { Says (events_of sites schedule.now) result }
    ensures some { IfOk result (λ events. 1 ≤ length events) }
    ensures few { IfOk result (λ events. length events ≤ most_events) }
    ensures named { IfOk result (λ events. All (IsOfSites sites) events) }
{
    require(part_count(schedule) <= MAX_EVENTS, ScriptWhy::Fields)?;
    let texts = part_texts(alloc, schedule)?;
    require(are_there(texts.as_slice()), ScriptWhy::Fields)?;
    read_events(alloc, sites, texts.as_slice())
}

/// What some events say, from left to right.
fn read_events(alloc: Global, sites: u32, texts: &[&[u8]]) -> Result<Items<SiteEvent>, LineRefusal>
    ensures value { Says (each_of (event_of sites) (map (λ text. text.now) texts.now)) result }
    ensures count { IfOk result (λ events. length events ≡ length texts.now) }
    ensures named { IfOk result (λ events. All (IsOfSites sites) events) }
{
    let mut events = Items::new(alloc);
    for text in texts {
        events.push(read_event(sites, text)?)?;
    }
    Ok(events)
}

/// The event that a part of a schedule is.
fn read_event(sites: u32, text: &[u8]) -> Result<SiteEvent, ScriptWhy>
    ensures value { result ≡ event_of sites text.now }
    ensures named { IfOk result (IsOfSites sites) }
{
    if is_text(text, b"master") {
        return Ok(SiteEvent::MasterRestart);
    }
    if let Some(number) = behind(text, b"ask:") {
        return Ok(SiteEvent::Ask(read_site(sites, number)?));
    }
    if let Some(number) = behind(text, b"draw:") {
        return Ok(SiteEvent::Draw(read_site(sites, number)?));
    }
    if let Some(number) = behind(text, b"re:") {
        return Ok(SiteEvent::Restart(read_site(sites, number)?));
    }
    let number = behind(text, b"d").ok_or(ScriptWhy::Fields)?;
    Ok(SiteEvent::Deliver(read_number(number, 0, LAST_PACKET)? as u32))
}

/// The number of one of so many sites.
fn read_site(sites: u32, text: &[u8]) -> Result<u32, ScriptWhy>
    ensures value { result ≡ number_between 1 sites text.now }
    ensures site { IfOk result (IsSite sites) }
{
    Ok(read_number(text, 1, u64::from(sites))? as u32)
}
