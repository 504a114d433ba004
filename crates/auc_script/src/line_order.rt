//! Whether a line of a job may stand behind the lines before it.

ghost use Rattle.std.specs.Prelude.{◌≡◌};
ghost use Rattle.auc_script.specs.Scenario.{may_stand_in_block};
ghost use Rattle.auc_script.specs.InnerSoFar.{IsReady, asked_with};

use crate::form::Form;
use crate::holders::Holders;
use crate::limits::MAX_VECTORS;
use crate::round_so_far::RoundSoFar;
use crate::sessions::Sessions;
use auc_lines::Line;
use auc_reading::{ScriptWhy, has_fit_texts, require};

/// How many vectors the lines ask for with one more of the present job, if it may stand there; else the cause.
pub fn asked_with(
    sessions: &Sessions,
    holders: &Holders,
    asked: u32,
    round: &RoundSoFar,
    line: &Line,
    form: Form,
) -> Result<u32, ScriptWhy>
    requires { IsReady sessions.now holders.now asked round.now line.now }
    ensures { result ≡ asked_with sessions.now asked round.now line.now form }
{
    sessions.order(line)?;
    if holders.is_busy(round, line) {
        return Err(ScriptWhy::UsimBusy);
    }
    let sum = asked + line.count();
    if sum > MAX_VECTORS || !sessions.has_room(line) || !has_fit_texts(line) {
        return Err(ScriptWhy::Limit);
    }
    require(
        !form.is_block() || may_stand_in_block(line),
        ScriptWhy::NotInBlock,
    )?;
    Ok(sum)
}

/// Whether a line rests on no USIM and on no line of an earlier round, so that it may stand in a block.
fn may_stand_in_block(line: &Line) -> bool
    ensures { result ≡ may_stand_in_block line.now }
{
    matches!(
        line,
        Line::Draw { .. } | Line::Sync { .. } | Line::Eps { .. } | Line::Sites(_) | Line::Sim(_)
    )
}
