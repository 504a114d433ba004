//! How a run ends.

ghost use Rattle.std.specs.Prelude.{◌≡◌};
ghost use Rattle.auc_refusal.specs.Refusal.{number_of_status};

/// How a run ends.
#[derive(Clone, Copy, Debug, PartialEq, Eq)]
pub enum Status {
    /// What the words ask for was written.
    Done,
    /// The words have none of the program's forms.
    Usage,
    /// A record of the subscriber file is wrong.
    SubscribersRefused,
    /// A line of the scenario is wrong.
    ScenarioRefused,
    /// An input file could not be read.
    ReadFault,
    /// The output could not be written.
    WriteFault,
    /// A call of the journal's disk failed.
    StoreFault,
    /// The journal's file is none.
    NotJournal,
    /// The journal has no room for another limit.
    StoreFull,
    /// An input file has more than 67108864 bytes, or a journal anew would have more than 2^30.
    TooLong,
    /// Memory ran out.
    NoMemory,
}

impl Status {
    /// The exit status of the program.
    pub fn number(self) -> u8
        ensures { result ≡ number_of_status self }
    {
        match self {
            Status::Done => 0,
            Status::Usage => 1,
            Status::SubscribersRefused => 2,
            Status::ScenarioRefused => 3,
            Status::ReadFault => 4,
            Status::WriteFault => 5,
            Status::StoreFault => 6,
            Status::NotJournal => 7,
            Status::StoreFull => 8,
            Status::TooLong => 9,
            Status::NoMemory => 10,
        }
    }
}
