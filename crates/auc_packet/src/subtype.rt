//! Subtypes and methods by their numbers.

ghost use Rattle.std.specs.Prelude.{◌≡◌, IfSome};
ghost use Rattle.std.specs.Option.{is_some};
ghost use Rattle.auc_attr.specs.Frame.{is_method, is_subtype};
ghost use Rattle.auc_packet.specs.Packet.{method_type, subtype_number};

use auc_hmac::{Method, method_type};

/// What a message of EAP-AKA or EAP-AKA' is (RFC 4187 §9 and §11).
#[derive(Clone, Copy, Debug, PartialEq, Eq)]
pub enum Subtype {
    /// AKA-Challenge (RFC 4187 §9.3 and §9.4).
    Challenge,
    /// AKA-Authentication-Reject (RFC 4187 §9.5).
    AuthenticationReject,
    /// AKA-Synchronization-Failure (RFC 4187 §9.6).
    SynchronizationFailure,
    /// AKA-Identity (RFC 4187 §9.1 and §9.2).
    Identity,
    /// AKA-Notification (RFC 4187 §9.10 and §9.11).
    Notification,
    /// AKA-Reauthentication (RFC 4187 §9.7 and §9.8).
    Reauthentication,
    /// AKA-Client-Error (RFC 4187 §9.9).
    ClientError,
}

/// The Subtype of a number, or `None` if no Subtype has it.
pub fn subtype_of(number: u8) -> Option<Subtype>
    ensures value { IfSome result (λ subtype. subtype_number subtype ≡ number) }
    ensures exact { is_some result ≡ is_subtype number }
{
    match number {
        1 => Some(Subtype::Challenge),
        2 => Some(Subtype::AuthenticationReject),
        4 => Some(Subtype::SynchronizationFailure),
        5 => Some(Subtype::Identity),
        12 => Some(Subtype::Notification),
        13 => Some(Subtype::Reauthentication),
        14 => Some(Subtype::ClientError),
        _ => None,
    }
}

/// The number of a Subtype.
pub fn subtype_number(subtype: Subtype) -> u8
    ensures { result ≡ subtype_number subtype }
{
    match subtype {
        Subtype::Challenge => 1,
        Subtype::AuthenticationReject => 2,
        Subtype::SynchronizationFailure => 4,
        Subtype::Identity => 5,
        Subtype::Notification => 12,
        Subtype::Reauthentication => 13,
        Subtype::ClientError => 14,
    }
}

/// The method of a type, or `None` if no method has it.
pub fn method_of(kind: u8) -> Option<Method>
    ensures value { IfSome result (λ method. method_type method ≡ kind) }
    ensures exact { is_some result ≡ is_method kind }
{
    if kind == method_type(Method::Aka) {
        Some(Method::Aka)
    } else if kind == method_type(Method::Prime) {
        Some(Method::Prime)
    } else {
        None
    }
}
