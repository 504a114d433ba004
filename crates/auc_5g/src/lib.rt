//! Keys of EPS and of 5G, at the home network and at the device (TS 33.401 Annex A.2, TS 33.501 Annexes A.2 and A.4 to A.6).
//!
//! [`eps_key`] makes K_ASME of an authentication vector, for a serving network. [`home`] makes what a home network gives
//! for a 5G authentication, [`device`] what a device makes of its USIM's answer, and [`judge`] compares RES* as the serving
//! network and then the home network do. The vector is one for EAP-AKA: one for EAP-AKA' has other keys in place of CK and IK.
//!
//! There is one departure from the standard: HXRES* of [`home`] and HRES* of [`judge`] are the first half of their digest,
//! as [`front_hxres_star`] makes them. TS 33.501 Annex A.5 takes the second half, as [`standard_hxres_star`] does.
//!
//! Contracts give each value as a function of bytes (`specs/Keys`), and two laws say that both ends have the same values
//! (`specs/Agree`). Nothing here takes memory, waits or fails. The tests stand in `auc_vector_tests`.
#![tactic(auto)]

mod derivation;
mod device_keys;
mod eps;
mod halves;
mod home_keys;
mod judging;
mod law;

pub use device_keys::{DeviceKeys, device};
pub use eps::eps_key;
pub use halves::{front_hxres_star, standard_hxres_star};
pub use home_keys::{HomeKeys, home};
pub use judging::{Judged, judge};
pub use law::{each_accepting_device_agrees, each_device_agrees_with_its_home};
