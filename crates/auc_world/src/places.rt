//! At which place a device is.

ghost use Rattle.std.specs.Prelude.{map, IfOk};
ghost use Rattle.indexmap.specs.IndexMap.{get};
ghost use Rattle.auc_memory.specs.IdentityKey.{is_key};
ghost use Rattle.auc_peer.specs.Subscription.{subscription_of};
ghost use Rattle.auc_world.specs.InnerWorld.{ArePlaced};

use auc_memory::{IdentityKey, NoMemory};
use auc_peer::Device;
use indexmap::IndexMap;
use std::alloc::Global;

/// The places of devices, by their identities.
pub(crate) type DevicePlaces = IndexMap<IdentityKey, u32>;

/// The places of some devices. Of devices with one identity the first is found.
pub(crate) fn places(alloc: Global, devices: &[Device]) -> Result<DevicePlaces, NoMemory>
    ensures { IfOk result (λ places. ArePlaced (get is_key places) (map subscription_of devices.now)) }
{
    if devices.len() > u32::MAX as usize {
        return Err(NoMemory);
    }
    let mut places = IndexMap::new(alloc);
    let mut left = devices.len();
    while left > 0 {
        left -= 1;
        let device = &devices[left];
        places.insert(device.imsi.key(), left as u32)?;
    }
    Ok(places)
}
