//! Laws of rounds that several workers serve, of restarts, and of USIMs.

ghost use Rattle.auc_world.specs.Given.{EachAcceptedSqnIsInThePast};
ghost use Rattle.auc_world.specs.Pieces.{JobsGiveAfterAllLines, PiecesSplitTheRound};
ghost use Rattle.auc_world.specs.Transcript.{EachRestartOpensAboveReleased};

/// If the pieces of several workers, each after its worker's earlier lines, have entries of a subscriber
/// that split a history, then the entries of the round's jobs split it too.
pub fn pieces_split_the_round()
    ensures { PiecesSplitTheRound }
{}

/// If each job gives its lines after its worker's earlier lines, and no two jobs give to one USIM, then
/// each job gives them after the lines of all earlier jobs.
pub fn jobs_give_after_all_lines()
    ensures { JobsGiveAfterAllLines }
{}

/// A restart opens each subscriber at no less than each number that was released for it. None of them may be above its
/// greatest number.
pub fn restart_opens_above_released_numbers()
    ensures { EachRestartOpensAboveReleased }
{}

/// The past of a USIM has each SQN that it accepted, by its SEQ and IND.
pub fn past_has_each_accepted_sqn()
    ensures { EachAcceptedSqnIsInThePast }
{}
