//! Laws of a job's sessions, over every list of events.

ghost use Rattle.auc_world.specs.Agreement.{BreachIsFirst, BrokenTells, EachHonestRunAgrees};
ghost use Rattle.auc_world.specs.Ending.{EachDeliveryLeavesFewer, EachPlainSessionEnds, StartLeavesSixteen};
ghost use Rattle.auc_world.specs.Plain.{EachPlainSessionSucceeds, EachResumedSessionSucceeds};
ghost use Rattle.auc_world.specs.Places.{EachEventMovesDevicesOnce, EachEventMovesHomesOnce};
ghost use Rattle.auc_world.specs.Resumption.{EachAcceptanceIsOwn};

use auc_ident::permanent_identities_are_read_back;
use auc_packet::{
    equal_bytes_are_received_alike, sealed_messages_are_read, sealed_messages_are_right,
    written_packets_are_read,
};
use auc_peer::{
    each_accepted_counter_is_of_the_context, each_turn_keeps_contexts_of_the_method,
    each_turn_keeps_the_keys_of_its_inputs as each_peer_keeps_its_keys,
    each_turn_keeps_what_keys_are_made_from, each_turn_leaves_the_other_method,
    each_turn_moves_at_most_one_context,
};
use auc_seal::{
    encrypted_attributes_are_decrypted, encrypted_attributes_may_be_written,
    lists_open_as_they_decrypt, opening_has_one_answer,
};
use auc_server::{
    each_turn_keeps_the_challenge_or_sends_one, each_turn_keeps_the_keys_of_its_inputs,
    each_turn_keeps_the_re_authentication_or_resumes, each_turn_leaves_fewer_packets,
};
use auc_vector::{
    each_autn_carries_the_sqn_of_its_number, each_autn_has_the_mac_of_its_sqn,
    each_auts_is_read_back,
};

/// A network knows no breach of the premise exactly if each delivery was honest: if an end found a right MAC, an end of the
/// other role had sent these bytes with the same inputs of its keys. A breach is the first delivery that wasn't.
pub fn breach_is_the_first_delivery_that_is_not_honest()
    ensures tells { BrokenTells }
    ensures first { BreachIsFirst }
{}

/// If no number was released twice, no identity resumed twice, and no breach is known, a server and a peer that ended in Success
/// over one challenge or in one fast re-authentication have equal keys, whatever was lost, repeated, delivered out of order or to
/// another session.
pub fn each_honest_run_agrees()
    ensures { EachHonestRunAgrees }
{
    each_peer_keeps_its_keys();
    each_turn_keeps_what_keys_are_made_from();
    each_turn_keeps_the_challenge_or_sends_one();
    each_turn_keeps_the_keys_of_its_inputs();
    each_autn_carries_the_sqn_of_its_number();
    equal_bytes_are_received_alike();
    written_packets_are_read();
    sealed_messages_are_read();
    encrypted_attributes_may_be_written();
    encrypted_attributes_are_decrypted();
}

/// An event makes at most one move of the contexts in each home, and at most one on each device (RFC 4187 §5.1 and §5.3): what the
/// laws of `auc_reauth` on moves say of the counters and the identities holds of each job.
pub fn each_event_moves_contexts_once()
    ensures homes { EachEventMovesHomesOnce }
    ensures devices { EachEventMovesDevicesOnce }
{
    each_turn_keeps_the_keys_of_its_inputs();
    each_turn_keeps_what_keys_are_made_from();
    each_turn_moves_at_most_one_context();
    each_turn_keeps_contexts_of_the_method();
    each_turn_leaves_the_other_method();
}

/// A peer accepts a fast re-authentication only if the identity that it sent last is, up to its first `@`, the one that its
/// device's context has at that moment (RFC 4187 §5.3).
pub fn each_acceptance_is_of_the_own_context()
    ensures { EachAcceptanceIsOwn }
{
    each_accepted_counter_is_of_the_context();
}

/// A plain session ends in Success at both ends under the same keys, unless one of its lines tells why not: the centre was
/// asked for another subscriber, or gave no number, or its number was too far above the SEQ that the USIM reported, or AUTS
/// was refused, or the USIM reported two synchronisation failures, or its server took up a context again, and needed no
/// challenge or the device accepted the counter. The device sends the identity of its context, its pseudonym or its
/// permanent identity, and the server may ask for other identities before the challenge (RFC 4187 §4.1). The session's
/// options have to suit (`EndsSuit`): EAP-AKA' needs a subscriber whose AMF has the separation bit, and a peer that expects
/// no other name; a device that has EAP-AKA' takes no bid for it in EAP-AKA (RFC 9048 §3.1 and §4, TS 33.102 Annex H).
pub fn each_plain_session_succeeds()
    ensures { EachPlainSessionSucceeds }
{
    equal_bytes_are_received_alike();
    written_packets_are_read();
    sealed_messages_are_read();
    sealed_messages_are_right();
    encrypted_attributes_may_be_written();
    encrypted_attributes_are_decrypted();
    lists_open_as_they_decrypt();
    permanent_identities_are_read_back();
    each_autn_has_the_mac_of_its_sqn();
    each_auts_is_read_back();
}

/// A plain session whose server takes up a context again ends in Success at both ends under the same keys, if the device has that
/// context with the same counter (RFC 4187 §5).
pub fn each_resumed_session_succeeds()
    ensures { EachResumedSessionSucceeds }
{
    equal_bytes_are_received_alike();
    written_packets_are_read();
    sealed_messages_are_read();
    sealed_messages_are_right();
    encrypted_attributes_may_be_written();
    encrypted_attributes_are_decrypted();
    lists_open_as_they_decrypt();
    permanent_identities_are_read_back();
    each_autn_has_the_mac_of_its_sqn();
    each_auts_is_read_back();
}

/// A plain session ends: sixteen deliveries at most may follow its start, and fewer after each delivery to an end that
/// answers. Its server sends at most eight packets; each is delivered once, and so is the answer to it.
pub fn each_plain_session_ends()
    ensures start { StartLeavesSixteen }
    ensures delivery { EachDeliveryLeavesFewer }
    ensures lines { EachPlainSessionEnds }
{
    each_turn_leaves_fewer_packets();
}
