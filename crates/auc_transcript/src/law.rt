//! Laws of every lawful transcript.

ghost use Rattle.auc_transcript.specs.Completeness.{EachPlainSessionAgrees, EachResumedSessionAgrees};
ghost use Rattle.auc_transcript.specs.Counters.{EachJobLeadsOn, EachTranscriptKeepsContexts};
ghost use Rattle.auc_transcript.specs.Headline.{EachNumberIsAboveReserved, EachTranscriptKeepsNumbersApart, EachTranscriptMayRestart, EachUsimAcceptsNoneTwice, EachFailureIsByPlace, EachSqnOutsideSessionsIsGenuine};
ghost use Rattle.auc_transcript.specs.Keys.{EachAuthenticationAgrees, EachBreachIsTold, EachTranscriptHasItsNets};
ghost use Rattle.auc_transcript.specs.Leases.{EachLeasedNumberIsHandedOutOnce};
ghost use Rattle.auc_transcript.specs.OneTold.{EachToldTranscriptIsOne};
ghost use Rattle.auc_transcript.specs.Position.{EachMoveStandsBetween, EachPlaceIsAPosition};
ghost use Rattle.auc_transcript.specs.Presented.{EachFailureInSessionsIsByPlace, EachFailureInSessionsOfRoundsIsByPlace, EachPresentedVectorHasARightMac};
ghost use Rattle.auc_transcript.specs.Rounds.{EachFailureInRoundsIsByPlace, EachSqnInRoundsIsGenuine};
ghost use Rattle.auc_transcript.specs.SimSessions.{EachSimSessionAgrees};
ghost use Rattle.auc_transcript.specs.Systems.{EachHonestAuthenticationIsConfirmed};
ghost use Rattle.auc_transcript.specs.Witnesses.{AcceptanceIsOwn, AgesDecide, AuthenticationIsConfirmed, ContextsAreKept, CountersAreNoted, KeysAreEqual, LeaseIsKept, MacIsRight, PlacesDecide, PlacesDecideInSessions, PlainSessionWins, ResumedSessionWins, SimEndsAgree, SimSessionIsNone, SimSessionSucceeds};

use auc_5g::each_device_agrees_with_its_home;
use auc_attr::bytes_have_one_reading_or_one_fault;
use auc_ident::each_name_is_given_once;
use auc_packet::{
    equal_bytes_are_received_alike, sealed_messages_are_read, written_packets_are_read,
};
use auc_peer::{
    each_accepted_counter_is_of_the_context,
    each_turn_keeps_the_keys_of_its_inputs as each_peer_keeps_its_keys,
    each_turn_keeps_what_keys_are_made_from,
};
use auc_reauth::{no_counter_is_used_twice, no_identity_is_resumed_twice};
use auc_seal::{
    encrypted_attributes_are_decrypted, encrypted_attributes_may_be_written, opening_has_one_answer,
};
use auc_server::{
    each_turn_keeps_the_challenge_or_sends_one, each_turn_keeps_the_keys_of_its_inputs,
    no_turn_gives_an_ordinal_back,
};
use auc_sim::{
    each_card_has_the_triplet_of_its_vector,
    each_plain_session_succeeds as each_plain_sim_session_succeeds, each_session_agrees,
    each_session_has_one_run,
};
use auc_sites::each_number_is_handed_out_once;
use auc_vector::each_autn_carries_the_sqn_of_its_number;
use auc_world::{
    each_acceptance_is_of_the_own_context, each_event_moves_contexts_once,
    each_plain_session_succeeds, each_resumed_session_succeeds,
};

/// No two vectors of a subscriber carry the same SQN, in whichever rounds and jobs they were released, and
/// whatever restarts are between.
pub fn no_vector_comes_twice()
    ensures { EachTranscriptKeepsNumbersApart }
{}

/// Each released number is above what was reserved for its subscriber at first, whatever resynchronisations and restarts
/// are between.
pub fn each_number_is_above_what_was_reserved()
    ensures { EachNumberIsAboveReserved }
{}

/// No USIM accepts an SQN twice.
pub fn each_usim_accepts_none_twice()
    ensures { EachUsimAcceptsNoneTwice }
{}

/// Between resynchronisations and restarts a released vector gets a synchronisation failure if and only if it,
/// or one drawn a positive multiple of 2^b places later, or the age limit or more later, was accepted before. Here b is how
/// many bits the subscriber's index has, and without an age limit the second case falls away (TS 33.102 Annex C).
pub fn each_failure_is_by_place()
    ensures { EachFailureIsByPlace }
{}

/// In a transcript without a restart a released vector gets a synchronisation failure if and only if it, or one
/// drawn a positive multiple of 2^b places later, or the age limit or more later, was accepted before. Periods and places are
/// counted there over the entries of all rounds, and end at resynchronisations alone.
pub fn each_failure_in_rounds_is_by_place()
    ensures { EachFailureInRoundsIsByPlace }
{}

/// Each released vector that a session presents to its subscriber's USIM gets a synchronisation failure by the same rule,
/// and is accepted otherwise, since its MAC is right.
pub fn each_failure_in_sessions_is_by_place()
    ensures stretches { EachFailureInSessionsIsByPlace }
    ensures rounds { EachFailureInSessionsOfRoundsIsByPlace }
    ensures mac { EachPresentedVectorHasARightMac }
{
    equal_bytes_are_received_alike();
}

/// As long as no session has an event, each SQN that a USIM accepted was drawn for its subscriber. So the premise
/// `genuine` of the laws of failures is one on sessions alone.
pub fn each_sqn_outside_sessions_is_genuine()
    ensures stretches { EachSqnOutsideSessionsIsGenuine }
    ensures rounds { EachSqnInRoundsIsGenuine }
{}

/// A restart may follow every lawful transcript without a stop, if the numbers that were reserved are at most
/// the greatest number: some limits meet what is asked of them.
pub fn each_transcript_may_restart()
    ensures { EachTranscriptMayRestart }
{}

/// A move is between two numbers of a history if and only if it stands between their draws.
pub fn move_between_numbers_stands_between()
    ensures { EachMoveStandsBetween }
{}

/// The place of a number of a history is its position among the draws since its period began.
pub fn place_is_a_position()
    ensures { EachPlaceIsAPosition }
{}

/// Two lawful transcripts of the same parts of which the same is told are one: what isn't told, the bytes, vectors and
/// keys, the subscribers of events and the options of sessions, follows from the parts and from what is told.
pub fn each_told_transcript_is_one()
    ensures { EachToldTranscriptIsOne }
{
    bytes_have_one_reading_or_one_fault();
    equal_bytes_are_received_alike();
    opening_has_one_answer();
    each_session_has_one_run();
}

/// A server and a peer that ended in Success over one challenge or in one fast re-authentication have equal keys, by whichever
/// method and in whichever jobs and rounds they are, if no delivery broke the premise in the jobs of both.
pub fn each_authentication_agrees()
    ensures { EachAuthenticationAgrees }
{
    each_peer_keeps_its_keys();
    each_turn_keeps_what_keys_are_made_from();
    each_turn_keeps_the_challenge_or_sends_one();
    each_turn_keeps_the_keys_of_its_inputs();
    each_autn_carries_the_sqn_of_its_number();
    equal_bytes_are_received_alike();
    written_packets_are_read();
    sealed_messages_are_read();
    encrypted_attributes_may_be_written();
    encrypted_attributes_are_decrypted();
    each_transcript_keeps_contexts();
}

/// Whatever was lost, repeated, delivered out of order or to another session: a session's records tell the counter that its server
/// resumed and the one that its device accepted, and no other; no server resumes a counter twice under the keys of one
/// full authentication, and no device accepts one twice (RFC 4187 §5.1); no identity is resumed twice, and a peer accepts a
/// re-authentication only under the identity that its device's context has at that moment (RFC 4187 §5.3).
pub fn each_transcript_keeps_contexts()
    ensures { EachTranscriptKeepsContexts }
{
    each_accepted_counter_is_of_the_context();
    no_counter_is_used_twice();
    no_identity_is_resumed_twice();
    each_name_is_given_once();
    no_turn_gives_an_ordinal_back();
    each_event_moves_contexts_once();
    each_acceptance_is_of_the_own_context();
    bytes_have_one_reading_or_one_fault();
    equal_bytes_are_received_alike();
    opening_has_one_answer();
    each_session_has_one_run();
}

/// The lines of a job lead from its first network to its last, and to no other. So there is one network before each event of a job,
/// which is the moment of which [`each_transcript_keeps_contexts`] speaks.
pub fn each_job_leads_on()
    ensures { EachJobLeadsOn }
{
    bytes_have_one_reading_or_one_fault();
    equal_bytes_are_received_alike();
    opening_has_one_answer();
    each_session_has_one_run();
}

/// A lawful transcript leads to networks of its jobs' sessions, and to no others. Each round tells of a breach
/// exactly if a delivery broke the premise in one of its jobs.
pub fn each_breach_is_told()
    ensures nets { EachTranscriptHasItsNets }
    ensures told { EachBreachIsTold }
{
    bytes_have_one_reading_or_one_fault();
    equal_bytes_are_received_alike();
    opening_has_one_answer();
    each_session_has_one_run();
}

/// A session whose ends suit each other, and that has its `plain` line and no other event line, ends in Success at both ends
/// under the same keys, and its round says that they agree, unless a record of the session tells why not: the centre was asked
/// for another subscriber, or gave no number, or its number was too far above the SEQ that the USIM reported, or it refused
/// AUTS, or the USIM reported two synchronisation failures. It refuses an AUTS of the subscriber's own USIM if the SEQ is above the
/// subscriber's greatest number: the USIM may have accepted such a SEQ from a subscriber with the same K and OPc and a longer
/// index. The ends of EAP-AKA' suit each other if the subscriber's separation bit is set, the
/// network has a name and the peer expects no other one; those of EAP-AKA unless the server bids for EAP-AKA' and the device has
/// it (RFC 9048 §3.1 and §4). In both the peer's first identity is one of the device's own. The device may keep a pseudonym of an
/// earlier session, whether or not the server can resolve it.
pub fn each_plain_session_agrees()
    ensures { EachPlainSessionAgrees }
{
    bytes_have_one_reading_or_one_fault();
    equal_bytes_are_received_alike();
    opening_has_one_answer();
    each_session_has_one_run();
    each_plain_session_succeeds();
}

/// A session that has its `plain` line and no other event line, and whose server takes up a context again, ends in Success at both
/// ends under the same keys, and its round says that they agree, if its device has that context with the same counter when the
/// line begins (RFC 4187 §5).
pub fn each_resumed_session_agrees()
    ensures { EachResumedSessionAgrees }
{
    bytes_have_one_reading_or_one_fault();
    equal_bytes_are_received_alike();
    opening_has_one_answer();
    each_session_has_one_run();
    each_resumed_session_succeeds();
}

/// If nothing happens to RES* on its way to the networks, and both ends know the serving network by one name, then both networks
/// confirm a 5G authentication exactly if the USIM accepts the vector, and the device has the home network's XRES*, K_AUSF and
/// K_SEAF (TS 33.501 §6.1.3.2). The vector of a subscriber without the separation bit is none of 5G.
pub fn each_honest_authentication_is_confirmed()
    ensures { EachHonestAuthenticationIsConfirmed }
{
    each_device_agrees_with_its_home();
}

/// No number is handed out twice at the sites of a subscriber, in whichever lines, jobs and rounds they are, and each is the number of
/// a vector that its line released before. Whatever the network between a master and its sites loses, repeats or reorders, and
/// whoever starts again, two grants of a line with a common number are equal.
pub fn each_leased_number_is_handed_out_once()
    ensures { EachLeasedNumberIsHandedOutOnce }
{
    each_number_is_handed_out_once();
}

/// Whatever is lost, repeated or reordered, two ends of a session of EAP-SIM that both end in Success have equal keys, so no line says
/// that they differ. If each packet is delivered once to the other end, and the RANDs of the vectors differ, both end in Success
/// (RFC 4186 §3). A line that gets fewer vectors than it asks for has no session.
pub fn each_sim_session_agrees()
    ensures { EachSimSessionAgrees }
{
    each_card_has_the_triplet_of_its_vector();
    each_session_agrees();
    each_plain_sim_session_succeeds();
}

/// No promise is empty: for each there are transcripts of a few lines that meet its premise, with a part left open that the promise
/// determines.
pub fn each_promise_has_a_witness()
    ensures places { PlacesDecide }
    ensures ages { AgesDecide }
    ensures sessions { PlacesDecideInSessions }
    ensures macs { MacIsRight }
    ensures keys { KeysAreEqual }
    ensures contexts { ContextsAreKept }
    ensures counters { CountersAreNoted }
    ensures acceptances { AcceptanceIsOwn }
    ensures plain { PlainSessionWins }
    ensures resumed { ResumedSessionWins }
    ensures authentications { AuthenticationIsConfirmed }
    ensures leases { LeaseIsKept }
    ensures sim_ends { SimEndsAgree }
    ensures sim_plain { SimSessionSucceeds }
    ensures sim_none { SimSessionIsNone }
{
    written_packets_are_read();
}
