//! The attribute at the front of bytes.

ghost use Rattle.std.specs.Prelude.{◌≡◌, ◌≢◌, ◌<◌, ℕ, List, length, true, IfOk, IfErr};
ghost use Rattle.auc_attr.specs.declared.refusal.AttrRefusal.TheVariants as refusal;
ghost use Rattle.auc_attr.specs.Fault.{kind_at};
ghost use Rattle.auc_attr.specs.Grammar.{IsAttrIn, IsFaultIn};
ghost use Rattle.auc_attr.specs.InnerFront.{Gives, row_at, item_at};
ghost use Rattle.auc_attr.specs.Item.{item};
ghost use Rattle.auc_attr.specs.Spelling.{stands_in, fits_item_in};

use crate::body::value_at;
use crate::refusal::AttrRefusal;
use crate::table::{Row, Table, row_in};

/// An attribute's type and value, and the bytes after it.
#[derive(Clone, Copy)]
pub struct Found<'a> {
    /// The type.
    pub kind: u8,
    /// The value, without length, reserved bytes and fill.
    pub value: &'a [u8],
    /// The bytes after the attribute.
    pub rest: &'a [u8],
}

/// The attribute at the front, given whether its type stood before, or its first fault (RFC 4187 §8.1). Takes no
/// memory.
pub fn item_at(table: Table, stood: bool, bytes: &[u8]) -> Result<Found<'_>, AttrRefusal>
    requires { 0 < length bytes.now }

    ensures found { IfOk result (λ f. (seen : List ℕ) → stood ≡ stands_in seen (kind_at bytes.now)
        → IsAttrIn table seen (item f.kind f.value.now) bytes.now f.rest.now) }
    ensures fits { IfOk result (λ f. fits_item_in table (item f.kind f.value.now) ≡ true) }
    ensures shorter { IfOk result (λ f. length f.rest.now < length bytes.now) }

    ensures fault { IfErr result (λ fault. (seen : List ℕ) → stood ≡ stands_in seen (kind_at bytes.now)
        → IsFaultIn table seen bytes.now fault) }
    ensures named { IfErr result (λ fault. fault ≢ refusal.NoMemory) }
{
    item_by_steps(table, stood, bytes)
}

#[tactic(auto, unfolding(crate::specs::InnerFront::item_at))]
fn item_by_steps(table: Table, stood: bool, bytes: &[u8]) -> Result<Found<'_>, AttrRefusal>
    ensures { Gives (λ f. (item f.kind f.value.now, f.rest.now)) result (item_at table stood bytes.now) }
{
    match bytes {
        [kind, units, after @ ..] => match row_in(table, *kind) {
            None => Err(AttrRefusal::UnknownType(*kind)),
            Some(row) => row_at(row, stood, *kind, *units, after),
        },
        _ => Err(AttrRefusal::Truncated),
    }
}

fn row_at(
    row: Row,
    stood: bool,
    kind: u8,
    units: u8,
    after: &[u8],
) -> Result<Found<'_>, AttrRefusal>
    ensures { Gives (λ f. (item f.kind f.value.now, f.rest.now)) result (row_at row stood kind units after.now) }
{
    if row.once && stood {
        return Err(AttrRefusal::Twice(kind));
    }
    if units == 0 {
        return Err(AttrRefusal::ZeroLength);
    }
    let size = 4 * units as usize;
    if after.len() + 2 < size {
        return Err(AttrRefusal::Truncated);
    }
    let value = value_at(row.shape, kind, &after[..size - 2])?;
    Ok(Found {
        kind,
        value,
        rest: &after[size - 2..],
    })
}
