//! A scenario as it was read.

ghost use Rattle.std.specs.Prelude.{ℕ, ◌≡◌, ◌≤◌, length, Err, Ok, IfOk, IfErr, IfSome, OnOk};
ghost use Rattle.auc_text.specs.Text.{lines_of};
ghost use Rattle.auc_script.specs.Limits.{IsBlock, IsWithin};
ghost use Rattle.auc_script.specs.InnerSoFar.{IsSoFar, scenario};
ghost use Rattle.auc_script.specs.Reading.{Keeps, beginning, beginning_of, block_of, header_of, read_lines, script_in, script_of};
ghost use Rattle.auc_script.specs.declared.form.Form.TheVariants as forms;
ghost use Rattle.auc_script.specs.declared.refusal.ScriptRefusal.TheVariants as refusal;

use crate::form::Form;
use crate::refusal::ScriptRefusal;
use crate::so_far::SoFar;
use auc_lines::{Part, RoundPart};
use auc_memory::{Items, Octets};
use auc_reading::ScriptWhy;
use auc_subs::Subscribers;
use auc_text::next_line;
use std::alloc::Global;

/// What a scenario asks for. Its subscribers are not part of it.
#[derive(Drop)]
pub struct Script {
    /// The key of the random bytes.
    pub key: [u8; 32],
    /// How many threads serve a round, 1 to 64.
    pub workers: u32,
    /// Whether each vector is printed in full.
    pub full: bool,
    /// The realm of the identities, at most 255 bytes, or none if it is empty (RFC 4187 §4.1.1.2).
    pub realm: Octets,
    /// The parts in their order.
    pub parts: Items<Part>,
}

impl Script {
    /// Reads a scenario, which is at most 64 MiB long, and adds its subscribers to those that there are.
    /// The first wrong line is told by its number, from 1, and its first cause. A refusal leaves the
    /// subscribers that the lines before the wrong one added; if memory runs out, those of some first
    /// lines.
    pub fn read(
        alloc: Global,
        bytes: &[u8],
        subs: &mut Subscribers,
    ) -> Result<Script, ScriptRefusal>
        requires { length bytes.now ≤ 67108864 }

        ensures read { IfOk result (λ script. script_of subs.old bytes.now ≡ Ok (script, subs.new)) }
        ensures within { IfOk result (IsWithin subs.new) }
        ensures refused { (line : ℕ) (why : ScriptWhy) → result ≡ Err (refusal.Line line why)
            → script_of subs.old bytes.now ≡ Err (refusal.Line line why) }
        ensures kept { IfErr result (λ refusal. Keeps (beginning subs.old) bytes.now refusal subs.new) }
    {
        read_form(alloc, bytes, subs, Form::Scenario)
    }

    /// Reads the header of a scenario alone, which is at most 64 MiB long: a line `round` is out of order. All else is as with
    /// [`Script::read`].
    pub fn read_header(
        alloc: Global,
        bytes: &[u8],
        subs: &mut Subscribers,
    ) -> Result<Script, ScriptRefusal>
        requires { length bytes.now ≤ 67108864 }

        ensures read { IfOk result (λ script. header_of subs.old bytes.now ≡ Ok (script, subs.new)) }
        ensures within { IfOk result (IsWithin subs.new) }
        ensures refused { (line : ℕ) (why : ScriptWhy) → result ≡ Err (refusal.Line line why)
            → header_of subs.old bytes.now ≡ Err (refusal.Line line why) }
        ensures kept { IfErr result (λ refusal. Keeps (beginning_of forms.Header subs.old) bytes.now refusal subs.new) }
    {
        read_form(alloc, bytes, subs, Form::Header)
    }
}

/// Reads lines of a form that may have a header.
fn read_form(
    alloc: Global,
    bytes: &[u8],
    subs: &mut Subscribers,
    form: Form,
) -> Result<Script, ScriptRefusal>
    requires { length bytes.now ≤ 67108864 }

    ensures read { IfOk result (λ script. script_in (read_lines 1 (beginning_of form subs.old) (lines_of bytes.now))
        ≡ Ok (script, subs.new)) }
    ensures within { IfOk result (IsWithin subs.new) }
    ensures refused { (line : ℕ) (why : ScriptWhy) → result ≡ Err (refusal.Line line why)
        → script_in (read_lines 1 (beginning_of form subs.old) (lines_of bytes.now)) ≡ Err (refusal.Line line why) }
    ensures kept { IfErr result (λ refusal. Keeps (beginning_of form subs.old) bytes.now refusal subs.new) }
{
    let mut so_far = SoFar::new(alloc, form);
    match put_lines(alloc, bytes, subs, &mut so_far) {
        Ok(()) => {
            // (its clauses say what holds of all lists of subscribers)
            let _ = subs.len();
            Ok(so_far.script(alloc)?)
        }
        Err(refusal) => {
            drop(so_far);
            Err(refusal)
        }
    }
}

/// Reads a block, which is at most 64 MiB long, over the subscribers that there are, and gives the jobs of its round, or `None`
/// if it has no line `round`. It has no header, and its lines rest on no USIM and on no earlier round. The first wrong line is
/// told by its number, from 1, and its first cause.
pub fn read_block(
    alloc: Global,
    bytes: &[u8],
    subs: &mut Subscribers,
) -> Result<Option<RoundPart>, ScriptRefusal>
    requires { length bytes.now ≤ 67108864 }
    ensures read { IfOk result (λ round. block_of subs.old bytes.now ≡ Ok round) }
    ensures within { IfOk result (λ round. IfSome round (IsBlock subs.old)) }
    ensures refused { (line : ℕ) (why : ScriptWhy) → result ≡ Err (refusal.Line line why)
        → block_of subs.old bytes.now ≡ Err (refusal.Line line why) }
    ensures kept { subs.new ≡ subs.old }
{
    let mut so_far = SoFar::new(alloc, Form::Block);
    match put_lines(alloc, bytes, subs, &mut so_far) {
        Ok(()) => Ok(so_far.present_round()?),
        Err(refusal) => {
            drop(so_far);
            Err(refusal)
        }
    }
}

/// Takes the lines of a text, up to the first wrong one, beginning with what stands before the first line.
fn put_lines(
    alloc: Global,
    bytes: &[u8],
    subs: &mut Subscribers,
    so_far: &mut SoFar,
) -> Result<(), ScriptRefusal>
    requires size { length bytes.now ≤ 67108864 }
    requires kept { IsSoFar subs.old so_far.old }

    ensures read { OnOk result (read_lines 1 (scenario subs.old so_far.old) (lines_of bytes.now)
        ≡ Ok (scenario subs.new so_far.new)) }
    ensures within { OnOk result (IsSoFar subs.new so_far.new) }
    ensures refused { (line : ℕ) (why : ScriptWhy) → result ≡ Err (refusal.Line line why)
        → read_lines 1 (scenario subs.old so_far.old) (lines_of bytes.now) ≡ Err (refusal.Line line why) }
    ensures front { OnOk result (Keeps (scenario subs.old so_far.old) bytes.now refusal.NoMemory subs.new) }
    ensures kept { IfErr result (λ refusal. Keeps (scenario subs.old so_far.old) bytes.now refusal subs.new) }
    ensures block { so_far.old.form ≡ forms.Block → subs.new ≡ subs.old }
{
    let mut rest = Some(bytes);
    let mut number = 1;
    while let Some(text) = rest {
        let (line, behind) = next_line(text);
        match so_far.put(alloc, subs, line) {
            Ok(()) => {
                rest = behind;
                number += 1;
            }
            Err(refusal) => return Err(ScriptRefusal::at(number, refusal)),
        }
    }
    Ok(())
}
