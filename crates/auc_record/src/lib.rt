//! The records of a scenario's rounds, and what is made of records alone.
//!
//! A transcript is a list of [`PartRecord`]s: the [`RoundRecord`] of a round, or a restart. The record of a job is a list of
//! [`LineRecord`]s. That of a line that releases a vector has its subscriber and its number, which determine the vector's
//! bytes (`specs/Vectors`); that of an [`Event`] has the vector itself, and the [`Note`] of what came of it. `specs/Lines`,
//! `specs/Event` and `specs/Entries` say what lines tell of a subscriber, and `specs/Told` what a text tells of records.
//!
//! [`printed_vectors`] makes the vectors of the full print, [`counts`] and [`closings`] what lines did to each subscriber's
//! numbers (`specs/Counts`), and [`reopened`] the words at which the next round opens (`specs/Openings`). [`note`] and
//! [`note_all`] keep a set of the numbers that lines release (`specs/Released`), and leave it as it was if memory runs out.
//!
//! Nothing here needs the ends of a session. Which records a round may have is said in `auc_world`. Contracts see a record as
//! its parts, and a [`BoxedEvent`] or a [`BoxedFurther`] as what it keeps. What takes memory returns an error if there is none.
#![tactic(auto)]

mod bytes;
mod closing;
mod copying;
mod counting;
mod event;
mod further;
mod noting;
mod record;
mod sites;

pub use auc_lines::End;
pub use auc_subs::Setting;
pub use bytes::{printed_vectors, vector_at};
pub use closing::{closings, reopened};
pub use copying::{copy_if_any, copy_of};
pub use counting::{Count, counts};
pub use event::{BoxedEvent, Event, EventRecord, Note, NoteStep, WorldRefusal};
pub use further::{BoxedFurther, FivegOutcome, Further};
pub use noting::{note, note_all};
pub use record::{
    Breach, Closing, GiveVerdict, JobRecord, JobSessions, JobVectors, LineRecord, PartRecord,
    Premise, RoundRecord, SessionVerdict,
};
pub use sites::{SitesNote, SitesOutcome};
