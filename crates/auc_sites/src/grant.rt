//! Grants.

ghost use Rattle.std.specs.Prelude.{◌≡◌};

use crate::lease::Lease;
use crate::request::Request;

/// The numbers that a master leases to a site for a request.
#[derive(Drop)]
pub struct Grant {
    /// The request.
    pub request: Request,
    /// The numbers.
    pub lease: Lease,
}

impl Grant {
    /// The same grant once more, to be sent and to be kept.
    pub fn copy(&self) -> Grant
        ensures { result ≡ self.now }
    {
        Grant {
            request: self.request,
            lease: self.lease.copy(),
        }
    }
}
