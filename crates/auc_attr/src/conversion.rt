//! Attributes from their types and values, and back.

ghost use Rattle.std.specs.Prelude.{◌≡◌, length, true, IfOk};
ghost use Rattle.std.specs.Int.{w16, to_be_bytes};
ghost use Rattle.auc_attr.specs.Item.{item, item_of, is_named, is_skipped_row};
ghost use Rattle.auc_attr.specs.Laws.{is_value};
ghost use Rattle.auc_attr.specs.Spelling.{fits_item};
ghost use Rattle.auc_attr.specs.InnerParts.{value_bytes};

use crate::attr::Attr;
use crate::table::{Row, Shape, Table, row_in};
use auc_memory::{NoMemory, Octets};
use std::alloc::Global;

/// The attribute of a type with a value.
#[tactic(auto, unfolding(crate::specs::Spelling::fits_item, crate::specs::Spelling::fits, crate::specs::Table::row_of))]
pub fn attr_of(alloc: Global, kind: u8, value: &[u8]) -> Result<Attr, NoMemory>
    requires { fits_item (item kind value.now) ≡ true }
    ensures value { IfOk result (λ a. item_of a ≡ item kind value.now) }
    ensures named { IfOk result (λ a. is_named a ≡ true) }
    ensures values { IfOk result (λ a. is_value a ≡ true) }
{
    match kind {
        1 => Ok(Attr::Rand(array_of(value))),
        2 => Ok(Attr::Autn(array_of(value))),
        3 => Ok(Attr::Res(Octets::copied_from(alloc, value)?)),
        4 => Ok(Attr::Auts(array_of(value))),
        6 => Ok(Attr::Padding(Octets::copied_from(alloc, value)?)),
        10 => Ok(Attr::PermanentIdReq),
        11 => Ok(Attr::Mac(array_of(value))),
        12 => Ok(Attr::Notification(number_of(value))),
        13 => Ok(Attr::AnyIdReq),
        14 => Ok(Attr::Identity(Octets::copied_from(alloc, value)?)),
        17 => Ok(Attr::FullauthIdReq),
        19 => Ok(Attr::Counter(number_of(value))),
        20 => Ok(Attr::CounterTooSmall),
        21 => Ok(Attr::NonceS(array_of(value))),
        22 => Ok(Attr::ClientErrorCode(number_of(value))),
        23 => Ok(Attr::KdfInput(Octets::copied_from(alloc, value)?)),
        24 => Ok(Attr::Kdf(number_of(value))),
        129 => Ok(Attr::Iv(array_of(value))),
        130 => Ok(Attr::EncrData(Octets::copied_from(alloc, value)?)),
        132 => Ok(Attr::NextPseudonym(Octets::copied_from(alloc, value)?)),
        133 => Ok(Attr::NextReauthId(Octets::copied_from(alloc, value)?)),
        134 => Ok(Attr::Checkcode(Octets::copied_from(alloc, value)?)),
        135 => Ok(Attr::ResultInd),
        136 => Ok(Attr::Bidding(value[0] == 1)),
        _ => Ok(Attr::Skipped(kind, Octets::copied_from(alloc, value)?)),
    }
}

/// A value of so many bytes.
fn array_of<const N: usize>(value: &[u8]) -> [u8; N]
    requires { length value.now ≡ N }
    ensures { result ≡ value.now }
{
    let mut array = [0; N];
    array.copy_from_slice(value);
    array
}

/// The number that a value of two bytes is.
fn number_of(value: &[u8]) -> u16
    requires { length value.now ≡ 2 }
    ensures { to_be_bytes w16 result ≡ value.now }
{
    u16::from_be_bytes([value[0], value[1]])
}

/// The value of an attribute, as the list keeps it.
#[derive(Clone, Copy)]
pub enum Value<'a> {
    Slice(&'a [u8]),
    Number([u8; 2]),
    Bit([u8; 1]),
}

impl Value<'_> {
    /// The bytes of the value.
    pub fn as_slice(&self) -> &[u8]
        ensures { result.now ≡ value_bytes self.now }
    {
        match self {
            Value::Slice(value) => value,
            Value::Number(value) => value,
            Value::Bit(value) => value,
        }
    }
}

/// An attribute's type and value.
#[derive(Clone, Copy)]
pub struct Parts<'a> {
    pub kind: u8,
    pub value: Value<'a>,
}

/// The type and the value of an attribute.
pub fn parts_of(attr: &Attr) -> Parts<'_>
    ensures { item result.kind (value_bytes result.value) ≡ item_of attr.now }
{
    let (kind, value) = match attr {
        Attr::Rand(v) => (1, Value::Slice(v)),
        Attr::Autn(v) => (2, Value::Slice(v)),
        Attr::Res(v) => (3, Value::Slice(v.as_slice())),
        Attr::Auts(v) => (4, Value::Slice(v)),
        Attr::Padding(v) => (6, Value::Slice(v.as_slice())),
        Attr::PermanentIdReq => (10, Value::Slice(&[])),
        Attr::Mac(v) => (11, Value::Slice(v)),
        Attr::Notification(n) => (12, Value::Number(n.to_be_bytes())),
        Attr::AnyIdReq => (13, Value::Slice(&[])),
        Attr::Identity(v) => (14, Value::Slice(v.as_slice())),
        Attr::FullauthIdReq => (17, Value::Slice(&[])),
        Attr::Counter(n) => (19, Value::Number(n.to_be_bytes())),
        Attr::CounterTooSmall => (20, Value::Slice(&[])),
        Attr::NonceS(v) => (21, Value::Slice(v)),
        Attr::ClientErrorCode(n) => (22, Value::Number(n.to_be_bytes())),
        Attr::KdfInput(v) => (23, Value::Slice(v.as_slice())),
        Attr::Kdf(n) => (24, Value::Number(n.to_be_bytes())),
        Attr::Iv(v) => (129, Value::Slice(v)),
        Attr::EncrData(v) => (130, Value::Slice(v.as_slice())),
        Attr::NextPseudonym(v) => (132, Value::Slice(v.as_slice())),
        Attr::NextReauthId(v) => (133, Value::Slice(v.as_slice())),
        Attr::Checkcode(v) => (134, Value::Slice(v.as_slice())),
        Attr::ResultInd => (135, Value::Slice(&[])),
        Attr::Bidding(bit) => (136, Value::Bit([u8::from(*bit)])),
        Attr::Skipped(kind, v) => (*kind, Value::Slice(v.as_slice())),
    };
    Parts { kind, value }
}

impl Attr {
    /// The attribute's type.
    pub fn kind(&self) -> u8
        ensures { result ≡ (item_of self.now).kind }
    {
        parts_of(self).kind
    }
}

/// Whether an attribute goes by its own name: only an attribute of an unknown type is `Skipped`.
pub fn is_named(attr: &Attr) -> bool
    ensures { result ≡ is_named attr.now }
{
    match attr {
        Attr::Skipped(kind, _) => is_skipped_row(row_in(Table::Aka, *kind)),
        _ => true,
    }
}

fn is_skipped_row(row: Option<Row>) -> bool
    ensures { result ≡ is_skipped_row row }
{
    matches!(
        row,
        Some(Row {
            shape: Shape::Skipped,
            ..
        })
    )
}
