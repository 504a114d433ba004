//! Laws over every list of events.

ghost use Rattle.auc_core.specs.Step.{EachHistoryIsLegal, NoNumberComesTwice};

/// Whatever the events were, what they did to a subscriber's number is a legal history, from its word
/// before them to its word after them.
pub fn each_history_is_legal()
    ensures { EachHistoryIsLegal }
{}

/// Whatever the events were, no number was drawn twice for a subscriber.
pub fn no_number_comes_twice()
    ensures { NoNumberComesTwice }
{}
