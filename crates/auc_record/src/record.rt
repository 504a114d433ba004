//! The records.

use crate::event::BoxedEvent;
use crate::further::BoxedFurther;
use auc_lines::End;
use auc_memory::Items;
use auc_released::Number;
use auc_vector::{NumberNote, ResyncNote, Vector};

/// What one line of the output says of a job.
#[derive(Drop)]
pub enum LineRecord {
    /// The centre was asked for the subscriber's next number, with its answer. The vector of a number that it drew was
    /// released.
    Number {
        sub: u32,
        note: NumberNote,
    },
    /// A synchronisation failure was reported for the subscriber, with what the centre made of its AUTS.
    Sync {
        sub: u32,
        note: ResyncNote,
    },
    /// The vector of the number was presented to the subscriber's USIM, with the USIM's answer.
    Give {
        sub: u32,
        n: u64,
        verdict: GiveVerdict,
    },
    /// What follows from a vector that was released for the line, an event of the line's sites, or one of its session of
    /// EAP-SIM.
    Further(BoxedFurther),
    /// An event of the job's sessions.
    Event(BoxedEvent),
}

impl LineRecord {
    ghost use Rattle.std.specs.Prelude.{◌≡◌};
    ghost use Rattle.auc_record.specs.Lines.{number_of, number_said, resync_said};
    ghost use Rattle.auc_record.specs.Record.{subscriber_of};

    /// The subscriber whom the line names, by its place: an event's is the one for whom the centre was asked, if it was
    /// asked.
    pub fn subscriber(&self) -> Option<u32>
        ensures { result ≡ subscriber_of self.now }
    {
        match self {
            LineRecord::Number { sub, .. }
            | LineRecord::Sync { sub, .. }
            | LineRecord::Give { sub, .. } => Some(*sub),
            LineRecord::Further(further) => further.said().subscriber(),
            LineRecord::Event(event) => event.record().asked(),
        }
    }

    /// What the centre answered, if the line asked it for a number.
    pub fn number_note(&self) -> Option<NumberNote>
        ensures { result ≡ number_said self.now }
    {
        match self {
            LineRecord::Number { note, .. } => Some(*note),
            LineRecord::Event(event) => event.record().number_note(),
            LineRecord::Sync { .. } | LineRecord::Give { .. } | LineRecord::Further(_) => None,
        }
    }

    /// What the centre made of a synchronisation failure, if the line reported one.
    pub fn resync_note(&self) -> Option<ResyncNote>
        ensures { result ≡ resync_said self.now }
    {
        match self {
            LineRecord::Sync { note, .. } => Some(*note),
            LineRecord::Event(event) => event.record().resync_note(),
            LineRecord::Number { .. } | LineRecord::Give { .. } | LineRecord::Further(_) => None,
        }
    }

    /// The number that the line releases, if it releases one.
    pub(crate) fn number(&self) -> Option<Number>
        ensures { result ≡ number_of self.now }
    {
        match (self.subscriber(), self.number_note()) {
            (Some(sub), Some(NumberNote::Drew(n))) => Some(Number { sub, n }),
            _ => None,
        }
    }
}

/// What a USIM answers to a vector (TS 33.102 §6.3.3).
#[derive(Clone, Copy)]
pub enum GiveVerdict {
    /// The USIM accepted the vector.
    Accepted,
    /// The USIM answered a synchronisation failure: the 6 bytes are SQN_MS, the SQN of the greatest entry
    /// of its index array.
    Sync([u8; 6]),
    /// No vector of the number was released for the subscriber, so the USIM wasn't asked.
    Absent,
}

/// The records of a job's lines, in their order.
pub type JobRecord = Items<LineRecord>;

/// The vectors that a job's lines released, in the order of these lines.
pub type JobVectors = Items<Vector>;

/// How the numbers of a subscriber stood at the end of a round in which they moved.
#[derive(Clone, Copy)]
pub struct Closing {
    pub sub: u32,
    /// The word at which the round opened the subscriber.
    pub first: u64,
    /// The word at which the round closed it.
    pub last: u64,
    /// How many numbers were drawn, marks above the greatest number among them.
    pub drawn: u64,
    /// How many numbers resynchronisations passed over.
    pub skipped: u64,
    /// How many vectors were released.
    pub released: u64,
    /// How many drawn numbers were withheld.
    pub withheld: u64,
}

/// Whether the ends of a session of which both ended in Success have equal keys.
#[derive(Clone, Copy)]
pub struct SessionVerdict {
    pub session: u32,
    pub agree: bool,
}

/// A delivery that breaks the premise: an end found a right MAC over bytes that no end of the other role had sent with the
/// same inputs of its keys.
#[derive(Clone, Copy)]
pub struct Breach {
    /// The number of the session that the packet was delivered to.
    pub session: u32,
    /// The end that received it.
    pub end: End,
    /// The number of the packet, which counts the packets of the job from 1.
    pub packet: u32,
}

/// What the sessions of a job came to.
#[derive(Drop)]
pub struct JobSessions {
    /// The sessions of which both ends ended in Success, in the order in which they were opened.
    pub verdicts: Items<SessionVerdict>,
    /// Whether the job opened a session.
    pub any: bool,
    /// The first delivery that breaks the premise of equal keys.
    pub broken: Option<Breach>,
}

/// Whether the premise of equal keys held in a round: each delivery in which an end found a right MAC was of bytes that
/// an end of the other role had sent in the same job, with the same inputs of its keys.
#[derive(Clone, Copy)]
pub enum Premise {
    /// The round has no session.
    NoSession,
    /// It held.
    Held,
    /// It didn't: the first delivery that breaks it, in the first job that has one, by the job's number from 1.
    Broken { job: u32, breach: Breach },
}

/// What a round did.
#[derive(Drop)]
pub struct RoundRecord {
    /// Its number, counted from 1.
    pub number: u64,
    /// Its jobs' records, in the order of the jobs.
    pub jobs: Items<JobRecord>,
    /// The closings of the subscribers whose numbers moved, in the subscribers' order.
    pub closings: Items<Closing>,
    /// The sessions of which both ends ended in Success, in the order of their numbers.
    pub sessions: Items<SessionVerdict>,
    /// Whether the premise of equal keys held.
    pub premise: Premise,
}

/// What one part of a scenario did.
#[derive(Drop)]
pub enum PartRecord {
    /// A round.
    Round(RoundRecord),
    /// The authentication centre started again. The words at which it opened its subscribers show in the
    /// next round.
    Restart,
}
