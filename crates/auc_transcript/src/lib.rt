//! What every lawful transcript of a scenario promises.
//!
//! A transcript is the records of a scenario's rounds, and restarts between them; `auc_world` says which ones
//! are lawful. Restarts cut a subscriber's entries into stretches, and resynchronisations cut a stretch into
//! periods.
//!
//! These laws hold for every lawful transcript. No two vectors of a subscriber have the same SQN, and each is above
//! what was reserved for the subscriber at first. Its USIM accepts no SQN twice. Within a period a vector gets a synchronisation failure if and only if it, or one
//! drawn a positive multiple of 2^b places later, or the age limit or more later, was accepted before; b is how many bits the
//! subscriber's index has (TS 33.102 Annex C; `specs/Headline`).
//!
//! The third law holds of transcripts without a restart also with the entries of all rounds taken together
//! (`specs/Rounds`). Two laws say that periods and places are positions in a history (`specs/Position`), and
//! one that a restart may follow every lawful transcript.
//!
//! Sessions add four. The third law holds of vectors that they present, too (`specs/Presented`). What is told
//! of a lawful transcript determines it, with the bytes, vectors and keys that aren't told (`specs/OneTold`). The two
//! ends of an authentication have equal keys, in whichever jobs and rounds they are, if no delivery broke the
//! premise in these jobs; and a round tells of a breach exactly if one did (`specs/Keys`). A session whose ends suit
//! each other and whose only event line is `plain` ends in Success at both ends, unless a record of it tells why not
//! (`specs/Completeness`); so does one whose server takes up a context again that its device has with the same counter. No counter
//! of a fast re-authentication is used twice, no identity is resumed twice, and a peer accepts a counter only under the identity that
//! its device's context has at that moment (`specs/Counters`). All of them hold of EAP-AKA and of EAP-AKA'.
//!
//! A 5G authentication whose ends know the serving network by one name, and whose RES* arrives as it was sent, is confirmed exactly
//! if the USIM accepts, and both ends have the same keys (`specs/Systems`).
//!
//! A number that a site hands out is that of a vector which its line released before, and no number is handed out twice for a
//! subscriber (`specs/Leases`).
//!
//! Whatever packets are delivered in a session of EAP-SIM, two ends that both end in Success have equal keys; by the plain schedule
//! both do, if the RANDs differ (`specs/SimSessions`).
//!
//! None of these promises is empty: transcripts of a few lines meet the premise of each (`specs/Witnesses`).
#![tactic(auto)]

mod law;

pub use law::{
    each_authentication_agrees, each_breach_is_told, each_failure_in_rounds_is_by_place,
    each_failure_in_sessions_is_by_place, each_failure_is_by_place,
    each_honest_authentication_is_confirmed, each_job_leads_on,
    each_leased_number_is_handed_out_once, each_number_is_above_what_was_reserved,
    each_plain_session_agrees, each_promise_has_a_witness, each_resumed_session_agrees,
    each_sim_session_agrees, each_sqn_outside_sessions_is_genuine, each_told_transcript_is_one,
    each_transcript_keeps_contexts, each_transcript_may_restart, each_usim_accepts_none_twice,
    move_between_numbers_stands_between, no_vector_comes_twice, place_is_a_position,
};
