//! Whether a message has AT_MAC.

ghost use Rattle.std.specs.Prelude.{◌≡◌};
ghost use Rattle.auc_sim_packet.specs.Attributes.{has};

use crate::attr_list::SimList;
use crate::conversion::parts_of;

/// Whether a list has AT_MAC (RFC 4186 §10.14).
pub fn has_mac(list: &SimList) -> bool
    ensures { result ≡ has list.now 11 }
{
    list.as_slice().iter().any(|attr| parts_of(attr).kind == 11)
}
