//! The book of shared words, from its opening to its closing.

ghost use Rattle.std.specs.Prelude.{◌≡◌, ◌<◌, ◌≤◌, ◌+◌, ◌++◌, ℕ, [], ◌∷◌, All, length, map, slice_index, IfOk};
ghost use Rattle.std.specs.Slots.{slots_items, slots_len, IsFull};
ghost use mathlib.Core.Option.{some};
ghost use lib.ListN.{get_elem?};
ghost use Rattle.auc_sqn.specs.Number.{max_seq};
ghost use Rattle.auc_draw.specs.Book.{IsOf, Opens, Closes};
ghost use Rattle.auc_draw.specs.InnerLimits.{limit_at};
ghost use Rattle.auc_draw.specs.InnerRule.{keeper_view, keeper_view_with};
ghost use Rattle.auc_draw.specs.InnerSplit.{AreSplit};

use crate::closed::Closed;
use crate::keeper::KeeperPass;
use crate::pass::Pass;
use crate::rule::{JoinPass, Key, Rule, SplitLists, SplitPass, View};
use atomic_table::{Seat, Shared, Table};
use auc_memory::NoMemory;
use std::alloc::Global;
use std::marker::Model;

/// The shared words: each subscriber's number, the number of the next job, why reservations ended, and each subscriber's
/// limit. Contracts see which book it is, the openings, each subscriber's greatest number, and the limits that were given
/// with them.
#[derive(Drop)]
pub struct Book {
    pub(crate) table: Table<(), View, Key, Rule, Global>,
    pub(crate) key: Key,
}

impl Model for Book {
    ghost use Rattle.auc_draw.specs.Values.{BookValue};
    ghost use Rattle.auc_draw.specs.InnerBook.{IsBook};

    ghost Value = { BookValue };

    ghost view = { λ b. record {
      id = b.table.shared.table_id;
      openings = b.key.openings.items;
      tops = b.key.tops.items;
      limits = b.key.limits.items;
    } };

    ghost invariant = { IsBook };
}

impl Book {
    /// Opens a book whose numbers stand at `openings` and whose limits at `limits`, with a pass for each worker. No
    /// subscriber's number goes above its greatest number, which `tops` has. Each pass takes memory for one word per
    /// subscriber, so that no later call takes any. If memory runs out, there is no book.
    pub fn open(
        alloc: Global,
        openings: &[u64],
        tops: &[u64],
        limits: &[u64],
        workers: u32,
    ) -> Result<(Book, Vec<Pass>, KeeperPass), NoMemory>
        requires count { length openings.now ≤ 65536 }
        requires many { (length tops.now ≡ length openings.now) × (length limits.now ≡ length openings.now) }
        requires numbers { (sub : ℕ) → sub < length openings.now → slice_index openings.now sub ≤ slice_index tops.now sub }
        requires tops { All (λ n. n ≤ max_seq) tops.now }
        requires limits { All (λ n. n ≤ max_seq) limits.now }
        requires workers { (1 ≤ workers) × (workers ≤ 64) }
        ensures { IfOk result (λ r. Opens openings.now tops.now limits.now workers r.0 r.1.items r.2) }
    {
        let subs = openings.len();
        let words = lay_words(alloc, openings, limits)?;
        let openings = openings.to_vec(alloc)?;
        let tops = tops.to_vec(alloc)?;
        let limits = limits.to_vec(alloc)?;
        let key = Key {
            openings,
            tops,
            limits,
        };
        let (table, seat) = Table::of_words(alloc, words.as_slice(), &key)?;
        let (passes, keeper) = split(alloc, &table.shared, seat, subs, workers)?;
        Ok((Book { table, key }, passes, keeper))
    }

    /// Closes the book, of which these are all passes. Their lists split a history of each subscriber from its opening
    /// to its word, the claimed numbers are those below some number, each once, and what was released, withheld and read of
    /// a stop is so by the keeper's pass.
    pub fn close(self, passes: Vec<Pass>, keeper: KeeperPass) -> Closed
        requires own { All (IsOf self.id self.tops) passes.items }
        requires keeper { keeper.id ≡ self.id }
        requires all { length passes.items ≡ keeper.passes }
        ensures { Closes self (map (λ p. p.deeds) passes.items) keeper result }
    {
        let Book { table, key } = self;
        let Key {
            openings,
            tops: _,
            limits: _,
        } = key;
        let KeeperPass { seat } = keeper;
        let mut seat = join(&table.shared, seat, passes);
        let shown = table.shared.split_seat::<SplitLists>(&mut seat);
        let closed = table.close_with(seat);
        let words = read(&closed, openings);
        closed.free();
        Closed { words, seat: shown }
    }
}

/// The words at the opening: the numbers, the job word, the stop word and the limits.
fn lay_words(alloc: Global, openings: &[u64], limits: &[u64]) -> Result<Vec<u64>, NoMemory>
    ensures { IfOk result (λ words. words.items ≡ openings.now ++ 0 ∷ 0 ∷ limits.now) }
{
    let mut words = openings.to_vec(alloc)?;
    words.push(0)?;
    words.push(0)?;
    words.extend_from_slice(limits)?;
    Ok(words)
}

/// Splits a pass for each worker from the keeper's seat.
fn split(
    alloc: Global,
    shared: &Shared<(), View, Key, Rule>,
    mut seat: Seat<(), View>,
    subs: usize,
    workers: u32,
) -> Result<(Vec<Pass>, KeeperPass), NoMemory>
    requires own { seat.table_id ≡ shared.now.table_id }
    requires first { (seat.id ≡ 0) × (seat.me ≡ (keeper_view 0 seat.me.0.tops seat.me.0.note, [])) }
    requires words { shared.now.table_id.words ≡ limit_at subs subs }
    requires workers { workers ≤ 64 }
    ensures { IfOk result (λ r. AreSplit shared.now.table_id seat.me.0.tops workers seat.me.0.note r.0.items r.1) }
{
    let mut passes = Vec::with_capacity(alloc, workers as usize)?;
    for i in 0..workers {
        let marks = Vec::from_elem(alloc, 0u64, subs)?;
        let own = shared.split_seat::<SplitPass>(&mut seat);
        passes.push(Pass {
            seat: own,
            marks,
            ended: None,
        })?;
    }
    Ok((passes, KeeperPass { seat }))
}

/// Joins all passes into the keeper's seat.
fn join(
    shared: &Shared<(), View, Key, Rule>,
    mut seat: Seat<(), View>,
    passes: Vec<Pass>,
) -> Seat<(), View>
    requires own { seat.table_id ≡ shared.now.table_id }
    requires first { (seat.id ≡ 0) × (seat.me ≡ (keeper_view seat.me.0.split seat.me.0.tops seat.me.0.note, [])) }
    requires words { 0 < shared.now.table_id.words }
    requires passes { All (λ p. p.id ≡ shared.now.table_id) passes.items }
    ensures own { (result.table_id ≡ shared.now.table_id) × (result.id ≡ 0) }
    ensures view { result.me ≡ (keeper_view_with seat.me.0.split seat.me.0.tops seat.me.0.note (map (λ p. p.deeds) passes.items), []) }
{
    for pass in passes {
        let Pass {
            seat: own,
            marks: _,
            ended: _,
        } = pass;
        shared.join_seat::<JoinPass>(&mut seat, own);
    }
    seat
}

/// The subscribers' words, written over these numbers.
fn read(closed: &atomic_table::Closed<(), Global>, mut numbers: Vec<u64>) -> Vec<u64>
    requires words { (length numbers.items ≤ slots_len closed.now.words) × IsFull closed.now.words }
    ensures many { length result.items ≡ length numbers.items }
    ensures each { (i : ℕ) → i < length numbers.items → get_elem? (slots_items closed.now.words) i ≡ some (slice_index result.items i) }
{
    for i in 0..numbers.len() {
        numbers[i] = closed.word(i);
    }
    numbers
}
