//! What a peer demands of a Challenge before it asks the USIM.

ghost use Rattle.std.specs.Prelude.{◌≡◌};
ghost use Rattle.auc_request.specs.Request.{has_bytes, is_known_kdf, is_own, is_right_name, is_separated};

use auc_memory::Octets;

/// Whether the key derivation function that is offered first is the one that the peer has (RFC 9048 §3.2).
pub fn is_known_kdf(first: Option<u16>) -> bool
    ensures { result ≡ is_known_kdf first }
{
    match first {
        None => false,
        Some(kdf) => kdf == 1,
    }
}

/// Whether a name was received, and is that of the network that the peer means, if it means one (RFC 9048 §3.1).
pub fn is_right_name(own: &Option<Octets>, name: &[u8]) -> bool
    ensures { result ≡ is_right_name own.now name.now }
{
    has_bytes(name) && is_own(own, name)
}

fn is_own(own: &Option<Octets>, name: &[u8]) -> bool
    ensures { result ≡ is_own own.now name.now }
{
    match own {
        None => true,
        Some(own) => name == own.as_slice(),
    }
}

/// Whether the separation bit, the first bit of AMF, is set in AUTN (TS 33.102 Annex H).
pub fn is_separated(autn: [u8; 16]) -> bool
    ensures { result ≡ is_separated autn }
{
    128 <= autn[6]
}

/// Whether a text isn't empty.
fn has_bytes(text: &[u8]) -> bool
    ensures { result ≡ has_bytes text.now }
{
    !text.is_empty()
}
