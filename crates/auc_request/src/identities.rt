//! Which identity a message asks for.

ghost use Rattle.std.specs.Prelude.{◌≡◌};
ghost use Rattle.auc_request.specs.Request.{request_in};

use auc_attr::AttrList;

/// Which identity an AKA-Identity request asks for (RFC 4187 §4.1.4).
#[derive(Clone, Copy, PartialEq, Eq)]
pub enum IdentityRequest {
    /// Any identity (RFC 4187 §10.3).
    Any,
    /// One for full authentication: a pseudonym or the permanent identity (RFC 4187 §10.4).
    Fullauth,
    /// The permanent identity (RFC 4187 §10.2).
    Permanent,
}

/// Which identity an AKA-Identity request asks for, if it asks for one.
pub fn request_in(list: &AttrList) -> IdentityRequest
    ensures { result ≡ request_in list.now }
{
    if list.has(10) {
        IdentityRequest::Permanent
    } else if list.has(17) {
        IdentityRequest::Fullauth
    } else {
        IdentityRequest::Any
    }
}
