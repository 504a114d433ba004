//! Attributes by type and value: which may be written, and their bytes.

ghost use Rattle.std.specs.Prelude.{◌≡◌, ◌≤◌, length, true};
ghost use Rattle.auc_attr.specs.Item.{item};
ghost use Rattle.auc_attr.specs.Spelling.{fits_item_in, may_stand_row, item_text_in};
ghost use Rattle.auc_attr.specs.Table.{row_in};
ghost use Rattle.auc_memory.specs.Reserved.{wrote};

use crate::layout::{fits, layout_of, put_layout, size_of};
use crate::table::{Table, row_in};
use auc_memory::Room;

/// Whether an attribute of a type has a spelling for a value.
pub fn fits_item(table: Table, kind: u8, value: &[u8]) -> bool
    ensures { result ≡ fits_item_in table (item kind value.now) }
{
    match row_in(table, kind) {
        None => false,
        Some(row) => fits(row.shape, value),
    }
}

/// Whether an attribute of a type may stand, given whether its type stood before.
pub fn may_stand(table: Table, kind: u8, stood: bool) -> bool
    ensures { result ≡ may_stand_row (row_in table kind) stood }
{
    match row_in(table, kind) {
        None => false,
        Some(row) => !(row.once && stood),
    }
}

/// How many bytes a written attribute takes: at most 1020.
pub fn size_of_item(table: Table, kind: u8, value: &[u8]) -> usize
    requires { fits_item_in table (item kind value.now) ≡ true }
    ensures value { result ≡ length (item_text_in table (item kind value.now)) }
    ensures most { result ≤ 1020 }
{
    match row_in(table, kind) {
        Some(row) => size_of(layout_of(row.shape, value)),
        None => 0,
    }
}

/// Writes an attribute after what is written in memory that was taken before this call, with zeros as reserved
/// bytes and fill (RFC 4187 §8.1).
pub fn put_item(table: Table, kind: u8, value: &[u8], room: &mut Room)
    requires fits { fits_item_in table (item kind value.now) ≡ true }
    requires room { length (item_text_in table (item kind value.now)) ≤ room.old.left }
    ensures { room.new ≡ wrote room.old (item_text_in table (item kind value.now)) }
{
    if let Some(row) = row_in(table, kind) {
        put_layout(room, kind, layout_of(row.shape, value));
    }
}
