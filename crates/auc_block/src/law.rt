//! What no single call shows.

ghost use Rattle.auc_block.specs.Block.{EachBlockIsSplitOff, EachBlockStands, EarlierBlocksStand};

/// More text after a first block changes nothing of it.
pub fn each_block_stands()
    ensures { EachBlockStands }
{}

/// The blocks of a text are its first block and the blocks of the bytes after it.
pub fn each_block_is_split_off()
    ensures { EachBlockIsSplitOff }
{}

/// More text changes no earlier block: the others are the blocks of what was left and of what is more.
pub fn earlier_blocks_stand()
    ensures { EarlierBlocksStand }
{}
