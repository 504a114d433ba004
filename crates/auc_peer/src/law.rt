//! Laws of a peer that no single call shows.

ghost use Rattle.auc_peer.specs.Laws.{AcceptedIsOfTheContext, EachTurnAdopts, EachTurnFits, EachTurnIsNamed, EachTurnMoves, EqualTurnsAreOne, SuccessNeedsARightMac};
ghost use Rattle.auc_peer.specs.Places.{EachTurnIsOfMethod, EachTurnLeavesTheOther, EachTurnMovesOnce};

use auc_attr::bytes_have_one_reading_or_one_fault;
use auc_packet::equal_bytes_are_received_alike;
use auc_seal::opening_has_one_answer;

/// A peer ends in Success only if it received a Challenge with a right AT_MAC before, under the keys with which it ends:
/// EAP-Success alone ends no session in Success (RFC 4187 §6.3.4).
pub fn success_needs_a_right_mac()
    ensures { SuccessNeedsARightMac }
{}

/// The keys of a peer that has answered are those of its key inputs (RFC 4187 §7, RFC 9048 §3.3): of a Challenge the secret,
/// the method, the challenge and the network's name that it accepted last and the identity that it sent last; of a
/// Reauthentication the context, the counter and NONCE_S that it decrypted last, and the identity that it sent last.
pub fn each_turn_keeps_the_keys_of_its_inputs()
    ensures { EachTurnFits }
{}

/// A turn keeps the inputs of a peer's keys, unless the peer waits for a request; its options always. Keys come only with
/// a right AT_MAC, and Success only under them (RFC 4187 §6.3.4 and §7).
pub fn each_turn_keeps_what_keys_are_made_from()
    ensures { EachTurnMoves }
{}

/// A peer of EAP-AKA' that was told its network accepts no challenge of another (RFC 9048 §3.1).
pub fn each_turn_accepts_its_own_network()
    ensures { EachTurnIsNamed }
{}

/// A peer takes up a pseudonym and a context only with a right AT_MAC. Its device adopts them only when the session ends in
/// Success (RFC 4187 §4.1.1.9 and §5.1), and beside that changes only by the counters that are accepted.
pub fn each_turn_adopts_at_success_alone()
    ensures { EachTurnAdopts }
{}

/// A peer accepts the counter of a fast re-authentication only if the identity that it sent last is, up to its first `@`, the
/// one that its device's context of the method has, and the counter is open (RFC 4187 §5.1 and §5.3).
pub fn each_accepted_counter_is_of_the_context()
    ensures { AcceptedIsOfTheContext }
{}

/// Each turn makes at most one move of the places where a context of the device and the method may be: the store, and what
/// each session would put there. A new context comes of the SQN that the USIM accepted, and a counter is accepted that was open
/// (RFC 4187 §5.1).
pub fn each_turn_moves_at_most_one_context()
    ensures { EachTurnMovesOnce }
{}

/// A peer would put a context of its method only.
pub fn each_turn_keeps_contexts_of_the_method()
    ensures { EachTurnIsOfMethod }
{}

/// Each turn leaves the device's context of the other method as it was.
pub fn each_turn_leaves_the_other_method()
    ensures { EachTurnLeavesTheOther }
{}

/// Two turns of equal peers at equal bytes, in which the USIM answered alike, are the same.
pub fn equal_turns_are_one()
    ensures { EqualTurnsAreOne }
{
    equal_bytes_are_received_alike();
    opening_has_one_answer();
    bytes_have_one_reading_or_one_fault();
}
