//! Copies of the identities that sessions begin with.

ghost use Rattle.std.specs.Prelude.{◌≡◌, IfOk};
ghost use Rattle.auc_world.specs.Happened.{first_of};

use auc_lines::Identity;
use auc_memory::NoMemory;
use auc_peer::FirstIdentity;
use auc_record::copy_of;
use std::alloc::Global;

/// What a peer is told of the identity that it gives first.
pub(crate) fn first_of(alloc: Global, identity: &Identity) -> Result<FirstIdentity, NoMemory>
    ensures { IfOk result (λ first. first ≡ first_of identity.now) }
{
    match identity {
        Identity::Held => Ok(FirstIdentity::Held),
        Identity::Permanent => Ok(FirstIdentity::Permanent),
        Identity::Text(text) => Ok(FirstIdentity::Text(copy_of(alloc, text)?)),
    }
}
