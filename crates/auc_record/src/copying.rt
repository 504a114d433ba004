//! Copies of the texts and names of a session.

ghost use Rattle.std.specs.Prelude.{◌≡◌, IfOk};

use auc_lines::Identity;
use auc_memory::{NoMemory, Octets};
use std::alloc::Global;

/// A copy of some bytes.
pub fn copy_of(alloc: Global, bytes: &Octets) -> Result<Octets, NoMemory>
    ensures { IfOk result (λ copy. copy ≡ bytes.now) }
{
    Octets::copied_from(alloc, bytes.as_slice())
}

/// A copy of some bytes, if there are any.
pub fn copy_if_any(alloc: Global, bytes: &Option<Octets>) -> Result<Option<Octets>, NoMemory>
    ensures { IfOk result (λ copy. copy ≡ bytes.now) }
{
    match bytes {
        Some(bytes) => Ok(Some(copy_of(alloc, bytes)?)),
        None => Ok(None),
    }
}

/// A copy of the identity that a session's peer gives first.
pub(crate) fn copy_identity(alloc: Global, identity: &Identity) -> Result<Identity, NoMemory>
    ensures { IfOk result (λ copy. copy ≡ identity.now) }
{
    match identity {
        Identity::Held => Ok(Identity::Held),
        Identity::Permanent => Ok(Identity::Permanent),
        Identity::Text(text) => Ok(Identity::Text(copy_of(alloc, text)?)),
    }
}
