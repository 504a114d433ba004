//! What becomes of a device's context.

use auc_ident::Name;
use auc_reauth::Context;

/// What becomes of the device's context when a session ends in Success (RFC 4187 §5.1 and §5.3).
#[derive(Clone, Copy)]
pub enum NextContext {
    /// It stays: a Challenge was answered that gave no identity for a fast re-authentication.
    Same,
    /// A Challenge was answered that gave one: this context takes its place, for the method of its master key.
    New(Context),
    /// A fast re-authentication under the first identity was answered: the context gets the second one, or is dropped if none
    /// was given; unless it has another identity by then.
    Renamed(Name, Option<Name>),
}
