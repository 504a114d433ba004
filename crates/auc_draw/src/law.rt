//! A law of the claims.

ghost use Rattle.auc_draw.specs.Book.{EachJobIsClaimedOnce};

/// If the number of the last job or a higher one was claimed in a book that was closed, each job was claimed once.
pub fn each_job_is_claimed_once()
    ensures { EachJobIsClaimedOnce }
{}
