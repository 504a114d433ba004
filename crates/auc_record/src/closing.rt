//! How the subscribers' numbers stand at the end of a round.

ghost use Rattle.std.specs.Prelude.{◌≡◌, ◌+◌, ◌≤◌, ◌<◌, ◌^◌, ℕ, Some, length, IfOk, slice_get, slice_index};
ghost use Rattle.std.specs.Option.{option_to_list};
ghost use Rattle.auc_subs.specs.Subscriber.{top_at};
ghost use Rattle.auc_record.specs.Openings.{reopened as reopened_by};
ghost use Rattle.auc_record.specs.declared.counting.Count.{Count};
ghost use Rattle.auc_record.specs.Counts.{counted_closing, counted_closings};

use crate::counting::Count;
use crate::record::Closing;
use auc_memory::{Items, NoMemory};
use auc_sqn::top;
use auc_subs::Subscribers;
use std::alloc::Global;

/// The words at which the next round opens the subscribers: no higher than their greatest numbers.
pub fn reopened(alloc: Global, subs: &Subscribers, words: &[u64]) -> Result<Items<u64>, NoMemory>
    requires { length words.now ≡ length subs.now }
    ensures value { IfOk result (λ openings. openings ≡ reopened_by subs.now words.now) }
    ensures bound { IfOk result (λ openings. (sub : ℕ) → sub < length subs.now
        → slice_index openings sub ≤ top_at subs.now sub) }
{
    let mut openings = Items::new(alloc);
    for sub in 0..subs.len() {
        openings.push(top(subs.row(sub).bits).min(words[sub as usize]))?;
    }
    Ok(openings)
}

/// The closing of a subscriber, or `None` if its word is where the round opened it.
fn closing(sub: u32, first: u64, last: u64, count: Count) -> Option<Closing>
    requires { first + count.skipped ≤ last }
    ensures { option_to_list result ≡ counted_closing sub first last count }
{
    if first == last {
        return None;
    }
    Some(Closing {
        sub,
        first,
        last,
        drawn: last - first - count.skipped,
        skipped: count.skipped,
        released: count.released,
        withheld: count.withheld,
    })
}

/// The closings of all subscribers whose words rose, in the subscribers' order.
pub fn closings(
    alloc: Global,
    openings: &[u64],
    words: &[u64],
    counts: &[Count],
) -> Result<Items<Closing>, NoMemory>
    requires words { length words.now ≡ length openings.now }
    requires counts { length counts.now ≡ length openings.now }
    requires limit { length openings.now < 2 ^ 32 }
    requires forward { (k : ℕ) (count : Count) → slice_get counts.now k ≡ Some count
        → slice_index openings.now k + count.skipped ≤ slice_index words.now k }
    ensures { IfOk result (λ all. all ≡ counted_closings 0 openings.now words.now counts.now) }
{
    let mut all = Items::new(alloc);
    for sub in 0..openings.len() {
        if let Some(closing) = closing(sub as u32, openings[sub], words[sub], counts[sub]) {
            all.push(closing)?;
        }
    }
    Ok(all)
}
