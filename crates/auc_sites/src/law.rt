//! Laws over every list of events: what is asked, delivered, drawn and restarted, in any order.

ghost use Rattle.auc_sites.specs.Law.{EachAwaitedGrantIsTaken, EachNumberIsHandedOutOnce, EachRunHandsOutOnce};

use auc_vector::Centre;

/// Two grants with a common number are equal, no number is handed out by two draws, and each number that is handed out
/// is one of those that were given, if no number is given twice.
pub fn each_number_is_handed_out_once()
    ensures { EachNumberIsHandedOutOnce }
{}

/// The same holds, without a premise on the numbers, if they are those of a [`Centre`], whatever else it is called for
/// between the events, for as long as it is one value.
pub fn each_run_hands_out_once<C: Centre>()
    ensures { EachRunHandsOutOnce C.goes C.kept C.top }
{}

/// A site that waits for a request takes the first grant of it that is delivered.
pub fn each_awaited_grant_is_taken()
    ensures { EachAwaitedGrantIsTaken }
{}
