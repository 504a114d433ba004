//! The permanent identity.

ghost use Rattle.std.specs.Prelude.{◌≡◌, IfOk};
ghost use Rattle.auc_sim.specs.Identity.{sim_identity};

use auc_ident::with_realm;
use auc_memory::{Imsi, NoMemory, Octets, Room};
use std::alloc::Global;

/// `1` and the IMSI, followed by `@` and the realm if there is one (RFC 4186 §4.2.1.6).
pub fn sim_identity(alloc: Global, imsi: Imsi, realm: &[u8]) -> Result<Octets, NoMemory>
    ensures { IfOk result (λ identity. identity ≡ sim_identity imsi realm.now) }
{
    let mut name = [b'1'; 16];
    let size = 1 + usize::from(imsi.digits());
    imsi.put_digits(&mut name[1..size]);
    let room = Room::new(alloc, size + 1 + realm.len())?;
    Ok(with_realm(&name[..size], realm, room))
}
