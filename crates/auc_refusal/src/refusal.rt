//! Why a run is refused.

ghost use Rattle.std.specs.Prelude.{◌≡◌};
ghost use Rattle.auc_refusal.specs.Causes.{compact_refusal, open_refusal, read_refusal, subs_refusal, trouble_refusal};
ghost use Rattle.auc_refusal.specs.Refusal.{status_of};
ghost use Rattle.auc_refusal.specs.declared.refusal.Refusal.TheVariants as refused;

use crate::status::Status;
use auc_block::Trouble;
use auc_compact::CompactRefusal;
use auc_edge::ReadRefusal;
use auc_journal::OpenWhy;
use auc_memory::{Failed, NoMemory};
use auc_reading::ScriptWhy;
use auc_subs::{SubsRefusal, SubsWhy};

/// Why a run is refused, or ends early.
#[derive(Clone, Copy)]
pub enum Refusal {
    /// The words have none of the program's forms.
    Usage,
    /// The subscriber file's first wrong record, the header being 0, and its first fault.
    Subscribers(u32, SubsWhy),
    /// The scenario's first wrong line, from 1, and its first fault.
    Scenario(u32, ScriptWhy),
    /// An input file could not be read.
    ReadFault,
    /// The output could not be written.
    WriteFault,
    /// A call of the journal's disk failed.
    StoreFault,
    /// The journal's file is none, which this place shows.
    NotJournal(u64),
    /// The journal has no room for another limit.
    StoreFull,
    /// An input file has more than 67108864 bytes, or a journal anew would have more than 2^30.
    TooLong,
    /// Memory ran out.
    NoMemory,
}

impl Refusal {
    /// The status with which a run ends that was refused.
    pub fn status(self) -> Status
        ensures { result ≡ status_of self }
    {
        match self {
            Refusal::Usage => Status::Usage,
            Refusal::Subscribers(_, _) => Status::SubscribersRefused,
            Refusal::Scenario(_, _) => Status::ScenarioRefused,
            Refusal::ReadFault => Status::ReadFault,
            Refusal::WriteFault => Status::WriteFault,
            Refusal::StoreFault => Status::StoreFault,
            Refusal::NotJournal(_) => Status::NotJournal,
            Refusal::StoreFull => Status::StoreFull,
            Refusal::TooLong => Status::TooLong,
            Refusal::NoMemory => Status::NoMemory,
        }
    }
}

impl From<ReadRefusal> for Refusal {
    ghost from_gives = { λ read e. e ≡ read_refusal read };

    fn from(read: ReadRefusal) -> Refusal {
        match read {
            ReadRefusal::ReadFault => Refusal::ReadFault,
            ReadRefusal::TooLong => Refusal::TooLong,
            ReadRefusal::NoMemory => Refusal::NoMemory,
        }
    }
}

impl From<SubsRefusal> for Refusal {
    ghost from_gives = { λ subs e. e ≡ subs_refusal subs };

    fn from(subs: SubsRefusal) -> Refusal {
        match subs {
            SubsRefusal::Row(row, why) => Refusal::Subscribers(row, why),
            SubsRefusal::NoMemory => Refusal::NoMemory,
        }
    }
}

impl From<OpenWhy> for Refusal {
    ghost from_gives = { λ unopened e. e ≡ open_refusal unopened };

    fn from(unopened: OpenWhy) -> Refusal {
        match unopened {
            OpenWhy::StoreFault => Refusal::StoreFault,
            OpenWhy::NotJournal(place) => Refusal::NotJournal(place),
            OpenWhy::NoMemory => Refusal::NoMemory,
        }
    }
}

impl From<CompactRefusal> for Refusal {
    ghost from_gives = { λ unmade e. e ≡ compact_refusal unmade };

    fn from(unmade: CompactRefusal) -> Refusal {
        match unmade {
            CompactRefusal::TooLong => Refusal::TooLong,
            CompactRefusal::NoMemory => Refusal::NoMemory,
        }
    }
}

impl From<Failed> for Refusal {
    ghost from_gives = { λ _ e. e ≡ refused.WriteFault };

    fn from(_: Failed) -> Refusal {
        Refusal::WriteFault
    }
}

impl From<NoMemory> for Refusal {
    ghost from_gives = { λ _ e. e ≡ refused.NoMemory };

    fn from(_: NoMemory) -> Refusal {
        Refusal::NoMemory
    }
}

impl From<Trouble> for Refusal {
    ghost from_gives = { λ trouble e. e ≡ trouble_refusal trouble };

    fn from(trouble: Trouble) -> Refusal {
        match trouble {
            Trouble::Failed => Refusal::ReadFault,
            Trouble::NoMemory => Refusal::NoMemory,
            Trouble::Endless => Refusal::TooLong,
        }
    }
}
