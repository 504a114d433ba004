//! The lines of a job.

ghost use Rattle.std.specs.Prelude.{◌≡◌, ◌<◌, true, List, length, IfOk, IfSome};
ghost use Rattle.auc_lines.specs.Part.{held_by};
ghost use Rattle.auc_subs.specs.declared.row.Row.{Row};
ghost use Rattle.auc_text.specs.Text.{words_of};
ghost use Rattle.auc_reading.specs.Refusal.{Says};
ghost use Rattle.auc_reading.specs.InnerRefusal.{as_said};
ghost use Rattle.auc_reading.specs.Ranges.{IsLine};
ghost use Rattle.auc_reading.specs.JobLine.{auts_of, cut_of, draw_of, eps_of, give_of, line_of, sync_of, tamper_of};
ghost use Rattle.auc_reading.specs.Texts.{has_fit_texts};

use crate::field::{
    LAST_BIT, four_fields, read_bit, read_byte, read_number, three_fields, two_fields,
};
use crate::fiveg_line::read_fiveg;
use crate::limits::{LAST_PACKET, LAST_PLACE, MAX_COUNT};
use crate::refusal::{LineRefusal, ScriptWhy, require};
use crate::session_line::{read_deliver, read_give_up, read_one_number, read_session};
use crate::sim_line::read_sim;
use crate::sites_line::read_sites;
use crate::word::JobWord;
use auc_lines::{Line, Report};
use auc_memory::Imsi;
use auc_sqn::{MAX_SEQ, top};
use auc_subs::Subscribers;
use auc_text::read_octets;
use std::alloc::Global;

/// What the fields of a word say.
pub fn read_line(
    alloc: Global,
    subs: &Subscribers,
    word: JobWord,
    fields: &[u8],
) -> Result<Line, LineRefusal>
    ensures value { Says (line_of subs.now word (words_of fields.now)) result }
    ensures known { IfOk result (λ line. IfSome (held_by line) (λ sub. sub < length subs.now)) }
    ensures line { IfOk result (λ line. has_fit_texts line ≡ true → IsLine subs.now line) }
{
    match word {
        JobWord::Draw => said(read_draw(subs, fields)),
        JobWord::Sync => said(read_sync(subs, fields)),
        JobWord::Auts => said(read_auts(subs, fields)),
        JobWord::Give => said(read_give(subs, fields)),
        JobWord::Eps => said(read_eps(subs, fields)),
        JobWord::Fiveg => read_fiveg(alloc, subs, fields),
        JobWord::Sites => read_sites(alloc, subs, fields),
        JobWord::Sim => read_sim(alloc, subs, fields),
        JobWord::Session => read_session(alloc, subs, fields),
        JobWord::Start => Ok(Line::Start(read_one_number(fields)?)),
        JobWord::Deliver => said(read_deliver(fields)),
        JobWord::Repeat => Ok(Line::Repeat(read_one_number(fields)?)),
        JobWord::GiveUp => said(read_give_up(fields)),
        JobWord::Plain => Ok(Line::Plain(read_one_number(fields)?)),
        JobWord::Tamper => said(read_tamper(fields)),
        JobWord::Cut => said(read_cut(fields)),
    }
}

/// What a line says that takes no memory, for a caller that may lack memory.
fn said(read: Result<Line, ScriptWhy>) -> Result<Line, LineRefusal>
    ensures { result ≡ as_said read }
{
    Ok(read?)
}

/// What the fields `IMSI COUNT` say.
fn read_draw(subs: &Subscribers, fields: &[u8]) -> Result<Line, ScriptWhy>
    ensures value { result ≡ draw_of subs.now (words_of fields.now) }
    ensures line { IfOk result (IsLine subs.now) }
{
    let (imsi, count) = two_fields(fields)?;
    let imsi = Imsi::read(imsi).ok_or(ScriptWhy::Fields)?;
    let count = read_number(count, 1, MAX_COUNT)?;
    let sub = subs.find(imsi).ok_or(ScriptWhy::UnknownSubscriber)?;
    Ok(Line::Draw {
        sub,
        count: count as u32,
    })
}

/// What the fields `IMSI SEQ BIT COUNT` say.
fn read_sync(subs: &Subscribers, fields: &[u8]) -> Result<Line, ScriptWhy>
    ensures value { result ≡ sync_of subs.now (words_of fields.now) }
    ensures line { IfOk result (IsLine subs.now) }
{
    let (imsi, seq, bit, count) = four_fields(fields)?;
    let imsi = Imsi::read(imsi).ok_or(ScriptWhy::Fields)?;
    let seq = read_number(seq, 0, MAX_SEQ)?;
    let bit = read_bit(bit, LAST_BIT)?;
    let count = read_number(count, 0, MAX_COUNT)?;
    let sub = subs.find(imsi).ok_or(ScriptWhy::UnknownSubscriber)?;
    require(seq <= top(subs.row(sub).bits), ScriptWhy::Limit)?;
    Ok(Line::Sync {
        sub,
        report: Report::Seq { seq, bit },
        count: count as u32,
    })
}

/// What the fields `IMSI AUTS RAND COUNT` say.
fn read_auts(subs: &Subscribers, fields: &[u8]) -> Result<Line, ScriptWhy>
    ensures value { result ≡ auts_of subs.now (words_of fields.now) }
    ensures line { IfOk result (IsLine subs.now) }
{
    let (imsi, auts, rand, count) = four_fields(fields)?;
    let imsi = Imsi::read(imsi).ok_or(ScriptWhy::Fields)?;
    let auts = read_octets::<14>(auts).ok_or(ScriptWhy::Hex)?;
    let rand = read_octets::<16>(rand).ok_or(ScriptWhy::Hex)?;
    let count = read_number(count, 0, MAX_COUNT)?;
    let sub = subs.find(imsi).ok_or(ScriptWhy::UnknownSubscriber)?;
    Ok(Line::Sync {
        sub,
        report: Report::Auts { auts, rand },
        count: count as u32,
    })
}

/// What the fields `IMSI N` say.
fn read_give(subs: &Subscribers, fields: &[u8]) -> Result<Line, ScriptWhy>
    ensures value { result ≡ give_of subs.now (words_of fields.now) }
    ensures line { IfOk result (IsLine subs.now) }
{
    let (imsi, n) = two_fields(fields)?;
    let imsi = Imsi::read(imsi).ok_or(ScriptWhy::Fields)?;
    let n = read_number(n, 1, MAX_SEQ)?;
    let sub = subs.find(imsi).ok_or(ScriptWhy::UnknownSubscriber)?;
    Ok(Line::Give { sub, n })
}

/// What the fields `IMSI SNID` say.
fn read_eps(subs: &Subscribers, fields: &[u8]) -> Result<Line, ScriptWhy>
    ensures value { result ≡ eps_of subs.now (words_of fields.now) }
    ensures line { IfOk result (IsLine subs.now) }
{
    let (imsi, snid) = two_fields(fields)?;
    let imsi = Imsi::read(imsi).ok_or(ScriptWhy::Fields)?;
    let snid = read_octets::<3>(snid).ok_or(ScriptWhy::Hex)?;
    let sub = subs.find(imsi).ok_or(ScriptWhy::UnknownSubscriber)?;
    Ok(Line::Eps { sub, snid })
}

/// What the fields `P PLACE BYTE` say.
fn read_tamper(fields: &[u8]) -> Result<Line, ScriptWhy>
    ensures value { result ≡ tamper_of (words_of fields.now) }
    ensures line { (rows : List Row) → IfOk result (IsLine rows) }
{
    let (packet, place, byte) = three_fields(fields)?;
    let packet = read_number(packet, 0, LAST_PACKET)?;
    let place = read_number(place, 0, LAST_PLACE)?;
    let byte = read_byte(byte)?;
    Ok(Line::Tamper {
        packet: packet as u32,
        place: place as u32,
        byte,
    })
}

/// What the fields `P LENGTH` say.
fn read_cut(fields: &[u8]) -> Result<Line, ScriptWhy>
    ensures value { result ≡ cut_of (words_of fields.now) }
    ensures line { (rows : List Row) → IfOk result (IsLine rows) }
{
    let (packet, length) = two_fields(fields)?;
    let packet = read_number(packet, 0, LAST_PACKET)?;
    let length = read_number(length, 0, LAST_PLACE)?;
    Ok(Line::Cut {
        packet: packet as u32,
        length: length as u32,
    })
}
