//! What no single call shows.

ghost use Rattle.auc_disk.specs.Replay.{EachChoiceLeavesAnImage};

/// Whatever the calls of a disk in memory and the choice are, a crash may leave the image by that choice.
pub fn each_choice_leaves_an_image()
    ensures { EachChoiceLeavesAnImage }
{}
