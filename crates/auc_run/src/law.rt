//! The law of runs and services on one disk, and the laws on which an output stands.

ghost use Rattle.auc_run.specs.Chain.{EachCutRunIsOfAChain, EachOtherRunIsOfAChain, EachRunDrawsAboveEarlierRuns, EachServedRunIsOfAChain, EachServiceIsOfAChain};
ghost use Rattle.auc_run.specs.Inner.{Laws};

use auc_disk::Disk;
use auc_transcript::{
    each_authentication_agrees, each_breach_is_told, each_failure_in_sessions_is_by_place,
    each_honest_authentication_is_confirmed, each_leased_number_is_handed_out_once,
    each_plain_session_agrees, each_resumed_session_agrees, each_sim_session_agrees,
    each_told_transcript_is_one, each_transcript_keeps_contexts,
};

/// Runs and services one after the other on one disk, each begun on an image that a crash after the one before may leave: each
/// number that one releases for an identity is above each that an earlier one released for it, whatever each of them ended with
/// and whatever subscribers it named.
pub fn no_later_run_draws_a_number_again()
    ensures { EachRunDrawsAboveEarlierRuns }
{}

/// What the clauses `ran` and `remembers` of [`crate::run`] say of a run, and those of [`crate::serve`] of a service, makes it
/// one of such a chain, if the disk told its bytes and a crash would have left just these: with the lines of its rounds, if it
/// served any. What `always` says makes a call one that a crash cut off at any moment, without what it released.
pub fn each_run_is_one_of_a_chain<D: Disk>()
    ensures served { EachServedRunIsOfAChain D.seen D.may_leave D.moment D.left_since }
    ensures other { EachOtherRunIsOfAChain D.seen D.may_leave }
    ensures cut { EachCutRunIsOfAChain D.seen D.may_leave D.moment D.left_since }
    ensures service { EachServiceIsOfAChain D.seen D.may_leave D.moment D.left_since }
{}

/// The laws of transcripts.
pub(crate) fn laws_of_transcripts()
    ensures { Laws }
{
    each_told_transcript_is_one();
    each_authentication_agrees();
    each_breach_is_told();
    each_failure_in_sessions_is_by_place();
    each_transcript_keeps_contexts();
    each_plain_session_agrees();
    each_resumed_session_agrees();
    each_honest_authentication_is_confirmed();
    each_leased_number_is_handed_out_once();
    each_sim_session_agrees();
}
