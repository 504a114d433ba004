//! Laws of the reading of subscribers, which say each fault as a condition by itself.

ghost use Rattle.auc_subs.specs.Law.{EachRefusedRecordIsTheFirstWrong, EachFileThatIsReadIsRight, EachRefusedLineHasTheFirstFault, EachLineThatIsAddedIsASubscriber};

/// If a file is refused, each record before the refused one is right, and the record itself has the fault
/// and no earlier one.
pub fn refused_record_is_the_first_wrong()
    ensures { EachRefusedRecordIsTheFirstWrong }
{}

/// If a file is read, it has the header and right records, one for each row.
#[tactic(auto, using(crate::proofs::LawLemmas::file_that_is_read_is_right))]
pub fn file_that_is_read_is_right()
    ensures { EachFileThatIsReadIsRight }
{}

/// If a line is refused, it has the fault and no earlier one.
pub fn refused_line_has_the_first_fault()
    ensures { EachRefusedLineHasTheFirstFault }
{}

/// If a line is added, its fields are a subscriber's, and that row stands after the others.
#[tactic(auto, using(crate::proofs::LawLemmas::line_that_is_added_is_a_subscriber))]
pub fn line_that_is_added_is_a_subscriber()
    ensures { EachLineThatIsAddedIsASubscriber }
{}
