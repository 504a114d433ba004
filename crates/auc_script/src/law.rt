//! Laws of the reading of scenarios.

ghost use Rattle.auc_script.specs.Law.{EachRightTextIsReadWhole, EachTextThatIsReadIsRight, EachRefusedLineIsTheFirstWrong};

/// If each line of a text is right, by the table and the lines before it, the text is read whole.
#[tactic(auto, using(crate::proofs::LawLemmas::right_text_is_read_whole))]
pub fn right_text_is_read_whole()
    ensures { EachRightTextIsReadWhole }
{}

/// If a text is read, each of its lines is right.
#[tactic(auto, using(crate::proofs::LawLemmas::text_that_is_read_is_right))]
pub fn text_that_is_read_is_right()
    ensures { EachTextThatIsReadIsRight }
{}

/// If a line is refused, each line before it is right, and the line itself is wrong for its cause.
#[tactic(auto, using(crate::proofs::LawLemmas::refused_line_is_the_first_wrong))]
pub fn refused_line_is_the_first_wrong()
    ensures { EachRefusedLineIsTheFirstWrong }
{}
