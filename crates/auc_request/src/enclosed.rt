//! What a message has encrypted.

ghost use Rattle.std.specs.Prelude.{◌≡◌};
ghost use Rattle.std.specs.Option.{option_copied};
ghost use Rattle.auc_request.specs.Request.{Gives, Has, block_in, next_name, number_in};

use auc_attr::value_in;
use auc_ident::Name;

/// What a message gives in its encrypted attributes (RFC 4187 §10.12). A name is what a device keeps of a text: its username,
/// if that has 1 to 255 bytes.
#[derive(Clone, Copy, PartialEq, Eq)]
pub struct Enclosed {
    /// The next pseudonym (RFC 4187 §10.10), without its realm.
    pub pseudonym: Option<Name>,
    /// The next re-authentication identity (RFC 4187 §10.11), without its realm.
    pub identity: Option<Name>,
    /// The counter of a fast re-authentication (RFC 4187 §10.16).
    pub counter: Option<u16>,
    /// NONCE_S of a fast re-authentication (RFC 4187 §10.18).
    pub nonce: Option<[u8; 16]>,
}

/// What decrypted attributes give.
pub fn enclosed_in(bytes: &[u8]) -> Enclosed
    ensures { Gives bytes.now result }
{
    Enclosed {
        pseudonym: name_in(bytes, 132),
        identity: name_in(bytes, 133),
        counter: counter_in(bytes),
        nonce: nonce_in(bytes),
    }
}

/// The counter among decrypted attributes.
pub fn counter_in(bytes: &[u8]) -> Option<u16>
    ensures { Has number_in 19 bytes.now result }
{
    number_of(value_in(bytes, 19))
}

/// NONCE_S among decrypted attributes.
fn nonce_in(bytes: &[u8]) -> Option<[u8; 16]>
    ensures { Has block_in 21 bytes.now result }
{
    block_of(value_in(bytes, 21))
}

/// The name of a type among decrypted attributes.
fn name_in(bytes: &[u8], kind: u8) -> Option<Name>
    ensures { Has next_name kind bytes.now result }
{
    name_of(value_in(bytes, kind))
}

/// What a device keeps of the value of AT_NEXT_PSEUDONYM or AT_NEXT_REAUTH_ID.
fn name_of(value: Option<&[u8]>) -> Option<Name>
    ensures { result ≡ next_name (option_copied value.entry) }
{
    Name::kept(value?)
}

/// The number in the value of AT_COUNTER.
fn number_of(value: Option<&[u8]>) -> Option<u16>
    ensures { result ≡ number_in (option_copied value.entry) }
{
    let value = value?;
    if value.len() != 2 {
        return None;
    }
    Some(u16::from_be_bytes([value[0], value[1]]))
}

/// The sixteen bytes in the value of AT_NONCE_S.
fn block_of(value: Option<&[u8]>) -> Option<[u8; 16]>
    ensures { result ≡ block_in (option_copied value.entry) }
{
    let value = value?;
    if value.len() != 16 {
        return None;
    }
    let mut block = [0; 16];
    block.copy_from_slice(value);
    Some(block)
}
