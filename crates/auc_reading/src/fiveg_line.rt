//! The line of a 5G authentication.

ghost use Rattle.std.specs.Prelude.{◌≡◌, ◌<◌, true, Ok, Err, length, IfOk, IfSome, MatchResult};
ghost use Rattle.std.specs.Option.{option_copied};
ghost use Rattle.auc_lines.specs.Part.{held_by};
ghost use Rattle.auc_text.specs.Text.{words_of};
ghost use Rattle.auc_reading.specs.FivegLine.{fiveg_fields, hxres_in};
ghost use Rattle.auc_reading.specs.InnerFields.{all_five};
ghost use Rattle.auc_reading.specs.Refusal.{Says};
ghost use Rattle.auc_reading.specs.Ranges.{IsLine};
ghost use Rattle.auc_reading.specs.JobLine.{fiveg_of};
ghost use Rattle.auc_reading.specs.Texts.{has_fit_texts};

use crate::field::{LAST_STAR_BIT, first_field, is_text, optional_field, read_bit};
use crate::refusal::{LineRefusal, ScriptWhy};
use auc_lines::{FivegLine, Line};
use auc_memory::{Imsi, NoMemory, Octets};
use auc_subs::Subscribers;
use std::alloc::Global;

/// The fields `IMSI HOMENAME DEVICENAME BIT` of a line, and the fifth, if there is one.
fn fiveg_fields(fields: &[u8]) -> Result<(&[u8], &[u8], &[u8], &[u8], Option<&[u8]>), ScriptWhy>
    ensures { MatchResult result
        (λ f. fiveg_fields (words_of fields.now) ≡ Ok (all_five f.0.now f.1.now f.2.now f.3.now (option_copied f.4)))
        (λ why. fiveg_fields (words_of fields.now) ≡ Err why) }
{
    let (imsi, rest) = first_field(fields)?;
    let (home, rest) = first_field(rest)?;
    let (device, rest) = first_field(rest)?;
    let (bit, rest) = first_field(rest)?;
    let fifth = optional_field(rest)?;
    Ok((imsi, home, device, bit, fifth))
}

/// What the fields `IMSI HOMENAME DEVICENAME BIT` and a fifth one, if there is one, say, with names of any length.
pub fn read_fiveg(alloc: Global, subs: &Subscribers, fields: &[u8]) -> Result<Line, LineRefusal>
    ensures value { Says (fiveg_of subs.now (words_of fields.now)) result }
    ensures known { IfOk result (λ line. IfSome (held_by line) (λ sub. sub < length subs.now)) }
    ensures line { IfOk result (λ line. has_fit_texts line ≡ true → IsLine subs.now line) }
{
    let (imsi, home, device, bit, fifth) = fiveg_fields(fields)?;
    let imsi = Imsi::read(imsi).ok_or(ScriptWhy::Fields)?;
    let bit = read_bit(bit, LAST_STAR_BIT)?;
    let hxres = read_hxres(fifth)?;
    let sub = subs.find(imsi).ok_or(ScriptWhy::UnknownSubscriber)?;
    let (home, device) = read_names(alloc, home, device)?;
    Ok(Line::Fiveg(FivegLine {
        sub,
        home,
        device,
        bit,
        hxres,
    }))
}

/// Whether the fifth field says that HXRES* is told.
fn read_hxres(fifth: Option<&[u8]>) -> Result<bool, ScriptWhy>
    ensures { result ≡ hxres_in (option_copied fifth.entry) }
{
    match fifth {
        None => Ok(false),
        Some(word) if is_text(word, b"hxresstar") => Ok(true),
        Some(_) => Err(ScriptWhy::Fields),
    }
}

/// The serving network's names that the home network and the device know.
fn read_names(alloc: Global, home: &[u8], device: &[u8]) -> Result<(Octets, Octets), NoMemory>
    ensures home { IfOk result (λ names. names.0 ≡ home.now) }
    ensures device { IfOk result (λ names. names.1 ≡ device.now) }
{
    let home = Octets::copied_from(alloc, home)?;
    Ok((home, Octets::copied_from(alloc, device)?))
}
