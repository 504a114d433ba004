//! The methods.

ghost use Rattle.std.specs.Prelude.{◌≡◌};
ghost use Rattle.auc_hmac.specs.Method.{method_type};

/// A method of authentication over EAP.
#[derive(Clone, Copy, Debug, PartialEq, Eq)]
pub enum Method {
    /// EAP-AKA (RFC 4187).
    Aka,
    /// EAP-AKA' (RFC 9048).
    Prime,
}

/// The EAP type of a method (RFC 4187 §8.1, RFC 9048 §3).
pub fn method_type(method: Method) -> u8
    ensures { result ≡ method_type method }
{
    match method {
        Method::Aka => 23,
        Method::Prime => 50,
    }
}
