//! Why a scenario is refused.

ghost use Rattle.std.specs.Prelude.{◌≡◌};
ghost use Rattle.auc_script.specs.declared.refusal.ScriptRefusal.TheVariants as refusal;
ghost use Rattle.auc_script.specs.InnerRefusal.{refusal_at};

use auc_memory::NoMemory;
use auc_reading::{LineRefusal, ScriptWhy};

/// Why a scenario isn't read.
#[derive(Clone, Copy)]
pub enum ScriptRefusal {
    /// The line of this number, from 1, is the first that is wrong.
    Line(u32, ScriptWhy),
    /// Memory ran out.
    NoMemory,
}

impl From<NoMemory> for ScriptRefusal {
    ghost from_gives = { λ _ e. e ≡ refusal.NoMemory };

    fn from(_: NoMemory) -> ScriptRefusal {
        ScriptRefusal::NoMemory
    }
}

impl ScriptRefusal {
    /// The refusal of the scenario whose line of this number isn't taken.
    pub fn at(number: u32, line: LineRefusal) -> ScriptRefusal
        ensures { result ≡ refusal_at number line }
    {
        match line {
            LineRefusal::Why(why) => ScriptRefusal::Line(number, why),
            LineRefusal::NoMemory => ScriptRefusal::NoMemory,
        }
    }
}
