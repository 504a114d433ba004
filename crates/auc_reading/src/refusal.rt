//! Why a line is refused.

ghost use Rattle.std.specs.Prelude.{◌≡◌};
ghost use Rattle.auc_reading.specs.declared.refusal.LineRefusal.TheVariants as line;
ghost use Rattle.auc_reading.specs.Field.{require};

use auc_memory::NoMemory;
use auc_subs::SubsWhy;

/// What is wrong with a line, in the order of the tests, except the last cause.
#[derive(Clone, Copy, Debug, PartialEq, Eq)]
pub enum ScriptWhy {
    /// Its first word begins no line.
    UnknownWord,
    /// Its first word may not stand in this place.
    OutOfOrder,
    /// It has another number of fields, or a field of another form.
    Fields,
    /// A number is out of its range.
    Number,
    /// A hexadecimal field isn't its stated number of hexadecimal digits.
    Hex,
    /// The fields of a subscriber are wrong, by this fault first.
    Subscriber(SubsWhy),
    /// No subscriber has the IMSI.
    UnknownSubscriber,
    /// No earlier line of the job opens this session.
    UnknownSession,
    /// The same word of the header, a session of this number, or a `start` of this session came before.
    Twice,
    /// An earlier job of the round presents a vector to this USIM, or has a session of it.
    UsimBusy,
    /// A limit of the scenario is passed.
    Limit,
    /// It may not stand in a block: it is a second round or a restart, or rests on a USIM or on an earlier round.
    NotInBlock,
    /// The input ended in it, before the line `end` of its block. No reading of lines gives this cause.
    Unfinished,
}

/// A test that has to hold, else the cause.
pub fn require(holds: bool, why: ScriptWhy) -> Result<(), ScriptWhy>
    ensures { result ≡ require holds why }
{
    if holds { Ok(()) } else { Err(why) }
}

/// Why a line isn't taken.
#[derive(Clone, Copy)]
pub enum LineRefusal {
    /// It is wrong.
    Why(ScriptWhy),
    /// Memory ran out.
    NoMemory,
}

impl From<ScriptWhy> for LineRefusal {
    ghost from_gives = { λ why e. e ≡ line.Why why };

    fn from(why: ScriptWhy) -> LineRefusal {
        LineRefusal::Why(why)
    }
}

impl From<NoMemory> for LineRefusal {
    ghost from_gives = { λ _ e. e ≡ line.NoMemory };

    fn from(_: NoMemory) -> LineRefusal {
        LineRefusal::NoMemory
    }
}
