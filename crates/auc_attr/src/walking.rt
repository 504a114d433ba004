//! Attributes from bytes.

ghost use Rattle.std.specs.Prelude.{◌≡◌, ◌≢◌, List, true, IfOk, IfErr, IfSome, IfNone};
ghost use Rattle.std.specs.List.{list_all};
ghost use Rattle.std.specs.Option.{option_copied};
ghost use Rattle.auc_attr.specs.declared.refusal.AttrRefusal.TheVariants as refusal;
ghost use Rattle.auc_attr.specs.Grammar.{FirstFault, Reads, ReadsAttrs};
ghost use Rattle.auc_attr.specs.Item.{Item};
ghost use Rattle.auc_attr.specs.InnerValue.{value_or};
ghost use Rattle.auc_attr.specs.Laws.{is_value};
ghost use Rattle.auc_attr.specs.Value.{IsValueIn};

use crate::attr_list::AttrList;
use crate::conversion::attr_of;
use crate::front::item_at;
use crate::refusal::AttrRefusal;
use crate::seen::Seen;
use crate::table::Table;
use std::alloc::Global;

/// The attributes that bytes are, or their first fault (RFC 4187 §8.1). Reserved bytes and fill are passed
/// over, and an unknown type from 128 on is `Skipped`.
pub fn read_attrs(alloc: Global, bytes: &[u8]) -> Result<AttrList, AttrRefusal>
    ensures read { IfOk result (λ list. ReadsAttrs bytes.now list) }
    ensures values { IfOk result (λ list. list_all is_value list ≡ true) }
    ensures fault { IfErr result (λ fault. FirstFault bytes.now fault) }
{
    let mut list = AttrList::new(alloc);
    let mut seen = Seen::new();
    let mut rest = bytes;
    while !rest.is_empty() {
        let found = item_at(Table::Aka, seen.is_marked(rest[0]), rest)?;
        let attr = attr_of(alloc, found.kind, found.value)?;
        list.push(attr)?;
        seen.mark(found.kind);
        rest = found.rest;
    }
    Ok(list)
}

/// The first fault of bytes as attributes, or `None` if the bytes are attributes: the fault that
/// [`crate::read_attrs`] reports. Takes no memory.
pub fn first_fault(bytes: &[u8]) -> Option<AttrRefusal>
    ensures fault { IfSome result (λ fault. FirstFault bytes.now fault) }
    ensures named { IfSome result (λ fault. fault ≢ refusal.NoMemory) }
    ensures none { IfNone result ((items : List Item) × Reads bytes.now items) }
{
    let mut seen = Seen::new();
    let mut rest = bytes;
    while !rest.is_empty() {
        let found = match item_at(Table::Aka, seen.is_marked(rest[0]), rest) {
            Ok(found) => found,
            Err(fault) => return Some(fault),
        };
        seen.mark(found.kind);
        rest = found.rest;
    }
    None
}

/// The value of the first attribute of a type (RFC 4187 §8.1), without length, reserved bytes and fill; a number
/// takes two bytes, and the bit D of AT_BIDDING one. `None` if no attribute has the type, or if the bytes have a
/// fault. Takes no memory.
pub fn value_in(bytes: &[u8], kind: u8) -> Option<&[u8]>
    ensures { IsValueIn kind bytes.now (option_copied result) }
{
    let mut value = None;
    let mut seen = Seen::new();
    let mut rest = bytes;
    while !rest.is_empty() {
        let found = match item_at(Table::Aka, seen.is_marked(rest[0]), rest) {
            Ok(found) => found,
            Err(_) => return None,
        };
        value = value_or(value, kind, found.kind, found.value);
        seen.mark(found.kind);
        rest = found.rest;
    }
    value
}

/// The value that was found before, or that of an attribute if it has the wanted type.
fn value_or<'a>(before: Option<&'a [u8]>, wanted: u8, kind: u8, value: &'a [u8]) -> Option<&'a [u8]>
    ensures { option_copied result ≡ value_or (option_copied before.entry) wanted kind value.now }
{
    match before {
        Some(_) => before,
        None if kind == wanted => Some(value),
        None => None,
    }
}
