//! Failure of a call of the outside.

ghost use Rattle.std.specs.Prelude.{◌≡◌, IsErr, MatchResult};
ghost use Rattle.auc_memory.specs.Faults.{raised};

use std::io;

/// A call of the outside failed: the object's count of faults rose.
#[derive(Clone, Copy, PartialEq, Eq)]
pub struct Failed;

/// The answer of a real call. If the call failed, a fault is counted.
pub fn counted<T>(faults: &mut u64, answer: io::Result<T>) -> Result<T, Failed>
    ensures { MatchResult answer
        (λ value. (result ≡ Ok value) × (faults.new ≡ faults.old))
        (λ _. IsErr result × (faults.new ≡ raised faults.old)) }
{
    match answer {
        Ok(value) => Ok(value),
        Err(_) => {
            *faults = faults.saturating_add(1);
            Err(Failed)
        }
    }
}
