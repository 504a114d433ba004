//! What a request has encrypted.

use auc_request::Enclosed;

/// What the encrypted attributes of a request are (RFC 4187 §10.12).
#[derive(Clone, Copy)]
pub enum Decrypted {
    /// They don't decrypt to attributes.
    Unreadable,
    /// They decrypt to attributes, which give this, or there are none.
    Attributes(Enclosed),
}
