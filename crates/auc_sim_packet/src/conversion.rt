//! Attributes from their types and values, and back.

ghost use Rattle.std.specs.Prelude.{◌≡◌, length, true, IfOk};
ghost use Rattle.std.specs.Int.{w16, to_be_bytes};
ghost use Rattle.auc_attr.specs.Item.{item};
ghost use Rattle.auc_attr.specs.Spelling.{fits_item_in};
ghost use Rattle.auc_attr.specs.declared.table.Table.TheVariants as tables;
ghost use Rattle.auc_sim_packet.specs.Attributes.{item_of, is_named, is_value};
ghost use Rattle.auc_sim_packet.specs.InnerParts.{value_bytes};

use crate::attr::SimAttr;
use auc_memory::{NoMemory, Octets};
use std::alloc::Global;

/// The attribute of a type with a value.
#[tactic(auto, unfolding(auc_attr::specs::Spelling::sim_fits_item, auc_attr::specs::Spelling::fits, auc_attr::specs::Table::sim_row_of))]
pub fn attr_of(alloc: Global, kind: u8, value: &[u8]) -> Result<SimAttr, NoMemory>
    requires { fits_item_in tables.Sim (item kind value.now) ≡ true }
    ensures value { IfOk result (λ a. item_of a ≡ item kind value.now) }
    ensures named { IfOk result (λ a. is_named a ≡ true) }
    ensures values { IfOk result (λ a. is_value a ≡ true) }
{
    match kind {
        1 => Ok(SimAttr::Rand(Octets::copied_from(alloc, value)?)),
        7 => Ok(SimAttr::NonceMt(block_of(value))),
        10 => Ok(SimAttr::PermanentIdReq),
        11 => Ok(SimAttr::Mac(block_of(value))),
        13 => Ok(SimAttr::AnyIdReq),
        14 => Ok(SimAttr::Identity(Octets::copied_from(alloc, value)?)),
        15 => Ok(SimAttr::VersionList(Octets::copied_from(alloc, value)?)),
        16 => Ok(SimAttr::SelectedVersion(number_of(value))),
        17 => Ok(SimAttr::FullauthIdReq),
        22 => Ok(SimAttr::ClientErrorCode(number_of(value))),
        _ => Ok(SimAttr::Skipped(kind, Octets::copied_from(alloc, value)?)),
    }
}

/// A value of 16 bytes.
fn block_of(value: &[u8]) -> [u8; 16]
    requires { length value.now ≡ 16 }
    ensures { result ≡ value.now }
{
    let mut block = [0; 16];
    block.copy_from_slice(value);
    block
}

/// The number that a value of two bytes is.
fn number_of(value: &[u8]) -> u16
    requires { length value.now ≡ 2 }
    ensures { to_be_bytes w16 result ≡ value.now }
{
    u16::from_be_bytes([value[0], value[1]])
}

/// The value of an attribute, as the list keeps it.
#[derive(Clone, Copy)]
pub enum SimValue<'a> {
    Slice(&'a [u8]),
    Number([u8; 2]),
}

impl SimValue<'_> {
    /// The bytes of the value.
    pub fn as_slice(&self) -> &[u8]
        ensures { result.now ≡ value_bytes self.now }
    {
        match self {
            SimValue::Slice(value) => value,
            SimValue::Number(value) => value,
        }
    }
}

/// An attribute's type and value.
#[derive(Clone, Copy)]
pub struct SimParts<'a> {
    pub kind: u8,
    pub value: SimValue<'a>,
}

/// The type and the value of an attribute.
pub fn parts_of(attr: &SimAttr) -> SimParts<'_>
    ensures { item result.kind (value_bytes result.value) ≡ item_of attr.now }
{
    let (kind, value) = match attr {
        SimAttr::Rand(v) => (1, SimValue::Slice(v.as_slice())),
        SimAttr::NonceMt(v) => (7, SimValue::Slice(v)),
        SimAttr::PermanentIdReq => (10, SimValue::Slice(&[])),
        SimAttr::Mac(v) => (11, SimValue::Slice(v)),
        SimAttr::AnyIdReq => (13, SimValue::Slice(&[])),
        SimAttr::Identity(v) => (14, SimValue::Slice(v.as_slice())),
        SimAttr::VersionList(v) => (15, SimValue::Slice(v.as_slice())),
        SimAttr::SelectedVersion(n) => (16, SimValue::Number(n.to_be_bytes())),
        SimAttr::FullauthIdReq => (17, SimValue::Slice(&[])),
        SimAttr::ClientErrorCode(n) => (22, SimValue::Number(n.to_be_bytes())),
        SimAttr::Skipped(kind, v) => (*kind, SimValue::Slice(v.as_slice())),
    };
    SimParts { kind, value }
}
