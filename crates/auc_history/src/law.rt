//! Laws of histories and of the lists that split them.

ghost use Rattle.auc_history.specs.Merge.{CutHistoryMergesToItself, SplitIsMerged};
ghost use Rattle.auc_history.specs.Recut.{RecutSplitIsASplit, SplitWithoutLooksIsASplit};
ghost use Rattle.auc_history.specs.Split.{CutHistoryIsASplit, SplitDrawsNoNumberTwice, SplitCountsItsNumbers};

/// Lists that a legal history is cut into, one after the other, split it.
pub fn cut_history_is_a_split()
    ensures { CutHistoryIsASplit }
{}

/// In a split no number is drawn twice, and each drawn number is above the opening and at most the
/// closing.
pub fn split_draws_no_number_twice()
    ensures { SplitDrawsNoNumberTwice }
{}

/// In a split the closing is the opening, the drawn numbers and the skipped ones together.
pub fn split_counts_its_numbers()
    ensures { SplitCountsItsNumbers }
{}

/// The merge of a split is a legal history, and has each entry as often as the lists.
pub fn split_is_merged()
    ensures { SplitIsMerged }
{}

/// Lists that a legal history is cut into merge to it again.
pub fn cut_history_merges_to_itself()
    ensures { CutHistoryMergesToItself }
{}

/// A split without some of its looks is a split.
pub fn split_without_looks_is_a_split()
    ensures { SplitWithoutLooksIsASplit }
{}

/// If the entries of a split are put into other lists, in any order, and each list is in order, the
/// lists are a split.
pub fn recut_split_is_a_split()
    ensures { RecutSplitIsASplit }
{}
