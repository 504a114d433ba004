//! What a lawful transcript is, and the network of a job's sessions.
//!
//! A transcript is a list of parts: the records of a round, or a restart (`auc_record`). A round is lawful if its records
//! are what its jobs ask for, and if the jobs' entries of each subscriber split a legal history of its
//! numbers (`specs/Given`, `specs/Round`). A transcript is lawful if each round is opened where the part before it
//! leads (`specs/Transcript`). The centre's answers are free within that. No definition speaks of an order
//! between the steps of different jobs.
//!
//! A [`World`] is a job's network with the homes and the devices of its subscribers: its sessions of EAP-AKA and EAP-AKA',
//! the packets that their ends sent, the ordinals of the homes' names, the homes' contexts and what the devices keep (`specs/Net`). What the
//! last two leave passes from round to round (`specs/Start`). [`World::apply`] makes an [`Event`] happen and answers a
//! [`Note`] (`specs/Happened`, `specs/Came`). The premise is that each right MAC that an end finds is of a packet that an
//! end of the other role sent with the same inputs of its keys; a [`Breach`] is the first delivery that breaks it. Laws say
//! that a server and a peer of one challenge or of one fast re-authentication then agree on the keys
//! ([`each_honest_run_agrees`]), and that a plain session, whose packets reach the other end in their order, succeeds
//! ([`each_plain_session_succeeds`], [`each_resumed_session_succeeds`]) and ends ([`each_plain_session_ends`]). Each event
//! moves the contexts of a home or of a device as `auc_reauth` says (`specs/Places`, [`each_event_moves_contexts_once`]).
//!
//! Two laws are about a round that several workers serve, each without the others' lines (`specs/Pieces`).
//! Put together, the workers' pieces are what the jobs give, and their entries split the same history. Two more
//! say that a restart opens no subscriber below a released number, and that a USIM remembers what it accepted.
//!
//! The types and the calls of `auc_record` that the crates above need are passed on.
#![tactic(auto)]

mod acting;
mod agreement;
mod bits;
mod changing;
mod copying;
mod inputs;
mod law;
mod net;
mod opening;
mod places;
mod posting;
mod turning;
mod verdicts;
mod world;

pub use agreement::{
    breach_is_the_first_delivery_that_is_not_honest, each_acceptance_is_of_the_own_context,
    each_event_moves_contexts_once, each_honest_run_agrees, each_plain_session_ends,
    each_plain_session_succeeds, each_resumed_session_succeeds,
};
pub use auc_record::{
    BoxedEvent, BoxedFurther, Breach, Closing, Count, End, Event, EventRecord, FivegOutcome,
    Further, GiveVerdict, JobRecord, JobSessions, JobVectors, LineRecord, Note, NoteStep,
    PartRecord, Premise, RoundRecord, SessionVerdict, Setting, SitesNote, SitesOutcome,
    WorldRefusal, closings, counts, note, note_all, printed_vectors, reopened, vector_at,
};
pub use bits::{auts_of, turned};
pub use law::{
    jobs_give_after_all_lines, past_has_each_accepted_sqn, pieces_split_the_round,
    restart_opens_above_released_numbers,
};
pub use net::{FastInputs, FullInputs, Inputs, SentPacket, Session};
pub use verdicts::{round_premise, round_verdicts};
pub use world::{DeviceList, HomeList, World};
