//! The rows at some places, by themselves.

ghost use Rattle.std.specs.Prelude.{◌<◌, All, AllPairs, IfOk, length};
ghost use Rattle.auc_named.specs.Named.{AreAt};

use auc_memory::NoMemory;
use auc_subs::Subscribers;
use std::alloc::Global;

/// The subscribers at some places, which rise.
pub(crate) fn own_rows(
    alloc: Global,
    subs: &Subscribers,
    places: &[u32],
) -> Result<Subscribers, NoMemory>
    requires rising { AllPairs ◌<◌ places.now }
    requires within { All (λ place. place < length subs.now) places.now }
    ensures { IfOk result (AreAt subs.now places.now) }
{
    // (its clauses say what holds of all lists of subscribers)
    let _ = subs.len();
    let mut own = Subscribers::new(alloc);
    for place in places {
        own.push(*subs.row(*place))?;
    }
    Ok(own)
}
