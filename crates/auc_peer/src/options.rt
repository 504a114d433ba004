//! What a peer is told before its session.

use crate::identity::FirstIdentity;
use auc_hmac::Method;
use auc_memory::Octets;
use std::marker::Model;

/// What a peer is told before its session. A first identity that is a text has at most 255 bytes.
#[derive(Drop)]
pub struct PeerOptions {
    /// The number of the session, whose random bytes the peer draws.
    pub session: u32,
    /// The method.
    pub method: Method,
    /// The name of the network that the peer means, or `None` if it takes any; EAP-AKA asks for none (RFC 9048 §3.1).
    pub name: Option<Octets>,
    /// Whether the device has EAP-AKA', so that it isn't bid down to EAP-AKA (RFC 9048 §4).
    pub has_prime: bool,
    /// What answers the Identity request of EAP.
    pub first: FirstIdentity,
}

impl Model for PeerOptions {
    ghost use Rattle.auc_peer.specs.Identities.{IsShortFirst};
    ghost use Rattle.auc_peer.specs.Told.{ToldSession};

    ghost Value = { ToldSession };

    ghost view = { λ o. record { session = o.session; method = o.method; name = o.name; has_prime = o.has_prime; first = o.first } };

    ghost invariant = { λ o. IsShortFirst o.first };

    ghost inverse = { λ told. record { session = told.session; method = told.method; name = told.name; has_prime = told.has_prime; first = told.first } };
}
