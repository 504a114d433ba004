//! Telling a journal: its limits as lines, or its bytes anew.

ghost use Rattle.std.specs.Prelude.{◌≡◌, ◌≢◌, ℕ, List, Err, OnOk, IfOk, IfErr};
ghost use Rattle.auc_edge.specs.Sink.{Appends};
ghost use Rattle.auc_refusal.specs.Refusal.{status_in};
ghost use Rattle.auc_run.specs.Inner.{LimitsStop, TellsLimits, WritesLimits};
ghost use Rattle.auc_refusal.specs.Faults.{RoseAt};

use auc_compact::compact;
use auc_edge::{Sink, write_whole};
use auc_forms::reserved_lines;
use auc_input::JournalForm;
use auc_journal::LimitList;
use auc_memory::Octets;
use auc_refusal::Refusal;
use std::alloc::Global;

/// Writes limits in a form.
pub(crate) fn write_limits<K: Sink>(
    alloc: Global,
    form: JournalForm,
    limits: &LimitList,
    out: &mut K,
) -> Result<(), Refusal>
    ensures written { OnOk result ((text : List ℕ) × TellsLimits form limits.now.written text
        × Appends (K.written out.old) (K.written out.new) text) }
    ensures ran { WritesLimits form limits.now.written (status_in result) (K.written out.old) (K.written out.new) }
    ensures refused { IfErr result (LimitsStop form limits.now.written) }
    ensures silent { IfErr result (λ refusal. refusal ≢ Refusal.WriteFault
        → K.written out.new ≡ K.written out.old) }
    ensures output { RoseAt Refusal.WriteFault result (K.faults out.old) (K.faults out.new) }
{
    let text = limits_text(alloc, form, limits)?;
    write_whole(out, text.as_slice())?;
    Ok(())
}

/// The text of limits in a form.
fn limits_text(alloc: Global, form: JournalForm, limits: &LimitList) -> Result<Octets, Refusal>
    ensures text { IfOk result (TellsLimits form limits.now.written) }
    ensures refused { IfErr result (LimitsStop form limits.now.written) }
    ensures made { result ≢ Err Refusal.WriteFault }
{
    match form {
        JournalForm::Reserved => Ok(reserved_lines(alloc, limits)?),
        JournalForm::Compact => Ok(compact(alloc, limits)?),
    }
}
