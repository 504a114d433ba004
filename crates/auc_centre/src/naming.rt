//! The names of a round's table, of its subscribers' greatest numbers, of its passes and of its opening.

use std::marker::Brand;

/// Names the table of a round's shared words, the subscribers' greatest numbers, how many passes the table has, and the
/// journal with which the round begins. Whoever opens the book of a round picks all four, at one call.
pub trait Naming<D> {
    ghost use Rattle.std.specs.Prelude.{ℕ, List, Option};
    ghost use Rattle.atomic_table.specs.Seated.{TableId};
    ghost use Rattle.auc_journal.specs.Journal.{JournalState};

    /// The table of the round's book.
    ghost table: { TableId };

    /// Each subscriber's greatest number.
    ghost tops: { List ℕ };

    /// How many passes were split from the keeper's.
    ghost passes: { ℕ };

    /// The journal as the round began, if one began.
    ghost opening: { Option (JournalState D) };
}

/// A call with `Brand` picks its own. This table is that of no book, and no round began.
impl<D> Naming<D> for Brand {
    ghost use Rattle.std.specs.Prelude.{[], None};

    ghost table = { record { words = 0; slots = 0; views_name = 0; atom = 0; block = 0; offset = 0; slot_names = [] } };

    ghost tops = { [] };

    ghost passes = { 0 };

    ghost opening = { None };
}
