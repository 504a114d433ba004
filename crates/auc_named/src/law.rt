//! A round of some of the subscribers is a round of all of them.

ghost use Rattle.auc_named.specs.Law.{EachNamedRoundIsLawful};

/// A lawful round of some subscribers, which its plain lines name, is one of all.
pub fn each_named_round_is_lawful()
    ensures { EachNamedRoundIsLawful }
{}
