//! What a peer looks for in the requests of EAP-AKA (RFC 4187 §10) and EAP-AKA' (RFC 9048 §3 and §4).
//!
//! [`rand_in`] and its sisters find the value of an attribute in a message, [`request_in`] tells which identity a message
//! asks for, and [`enclosed_in`] finds what decrypted attributes give. [`is_known_kdf`], [`is_right_name`] and
//! [`is_separated`] are the tests of a Challenge of EAP-AKA'.
//!
//! Contracts cite `specs/Request`. Nothing here takes memory, waits or fails.
#![tactic(auto)]

mod demands;
mod enclosed;
mod identities;
mod values;

pub use demands::{is_known_kdf, is_right_name, is_separated};
pub use enclosed::{Enclosed, counter_in, enclosed_in};
pub use identities::{IdentityRequest, request_in};
pub use values::{autn_in, bids, checkcode_in, code_in, kdf_in, name_in, rand_in};
