//! Laws of every run of events.

ghost use Rattle.auc_events.specs.Promises.{EachJobHoldsItsSubscribers, EachRunDrawsNoNumberTwice, EachRunAcceptsNoneTwice, EachRunFailsByPlace, EachRunAgreesOnKeys, EachRunIsLawful, EachRunMayGoOn};

use auc_transcript::{each_authentication_agrees, each_failure_in_sessions_is_by_place};

/// The records of each run of events are those of a lawful transcript.
pub fn each_run_is_lawful()
    ensures { EachRunIsLawful }
{}

/// A run may begin with the homes and devices of any subscribers among which are those of its sessions.
pub fn each_job_holds_its_subscribers()
    ensures { EachJobHoldsItsSubscribers }
{}

/// After each run the homes of the network are subscribers of the centre, as `World::apply` asks.
pub fn each_run_may_go_on()
    ensures { EachRunMayGoOn }
{}

/// Whatever is lost, repeated, changed, delivered out of order or to another session: no two vectors of a subscriber that a run
/// releases have the same SQN, no USIM accepts one twice, a released vector that is presented to its subscriber's USIM gets a
/// synchronisation failure exactly by its place, and two ends that succeed over one challenge or in one re-authentication have
/// equal keys, if no delivery broke the premise of equal keys.
pub fn each_run_keeps_its_promises()
    ensures vectors { EachRunDrawsNoNumberTwice }
    ensures usims { EachRunAcceptsNoneTwice }
    ensures failures { EachRunFailsByPlace }
    ensures keys { EachRunAgreesOnKeys }
{
    each_failure_in_sessions_is_by_place();
    each_authentication_agrees();
}
