//! The form `reserved`: the limits of a journal.

ghost use Rattle.std.specs.Prelude.{◌≡◌, ◌<◌, ◌≤◌, ◌+◌, ◌*◌, ◌++◌, All, Some, IfOk, OnOk, flat_map, length, slice_get};
ghost use Rattle.auc_journal.specs.Limits.{AreSingle};
ghost use Rattle.auc_forms.specs.Reserved.{AreListed, IsReservedText, asks_reserved, limit_line};

use auc_journal::{Limit, LimitList};
use auc_memory::{Imsi, NoMemory, Octets};
use std::alloc::Global;

/// Whether the words are `reserved` alone.
pub fn is_reserved(words: &[Octets]) -> bool
    ensures { result ≡ asks_reserved words.now }
{
    match words {
        [word] => word.as_slice() == b"reserved".as_slice(),
        _ => false,
    }
}

/// The lines of the limits of a journal, each identity once, by rising number and then by rising count of digits.
pub fn reserved_lines(alloc: Global, limits: &LimitList) -> Result<Octets, NoMemory>
    ensures { IfOk result (IsReservedText limits.now.written) }
{
    let sorted = in_order(alloc, limits)?;
    lines(alloc, sorted.as_slice())
}

/// A line for each of some limits.
fn lines(alloc: Global, limits: &[Limit]) -> Result<Octets, NoMemory>
    ensures { IfOk result (λ text. text ≡ flat_map limit_line limits.now) }
{
    let mut text = Octets::new(alloc);
    for limit in limits {
        append_limit(&mut text, limit)?;
    }
    Ok(text)
}

/// Appends the line of a limit.
fn append_limit(text: &mut Octets, limit: &Limit) -> Result<(), NoMemory>
    ensures { OnOk result (text.new ≡ text.old ++ limit_line limit.now) }
{
    text.append(b"reserved ")?;
    limit.imsi.write_to(text)?;
    text.append(b" ")?;
    text.append_number(limit.limit)?;
    text.append(b"\n")
}

/// The limits in the order of their lines.
fn in_order(alloc: Global, limits: &LimitList) -> Result<Vec<Limit>, NoMemory>
    ensures { IfOk result (λ sorted. AreListed limits.now.written sorted.items) }
{
    let mut all = copied(alloc, limits)?;
    all.sort_by_key(|limit| rank(limit.imsi))?;
    Ok(all)
}

/// The limits in the order of the list.
fn copied(alloc: Global, limits: &LimitList) -> Result<Vec<Limit>, NoMemory>
    ensures same { IfOk result (λ all. all.items ≡ limits.now.written) }
    ensures digits { IfOk result (λ all. All (λ limit. limit.imsi.digits ≤ 15) all.items) }
    ensures single { AreSingle limits.now.written }
{
    let mut all = Vec::new(alloc);
    for place in 0..limits.len() {
        all.push(limit_at(limits, place))?;
    }
    Ok(all)
}

/// The limit at a place.
fn limit_at(limits: &LimitList, place: u32) -> Limit
    requires { place < length limits.now.written }
    ensures limit { slice_get limits.now.written place ≡ Some result }
    ensures digits { result.imsi.digits ≤ 15 }
{
    let (imsi, limit) = limits.get(place);
    Limit { imsi, limit }
}

/// A number that rises with an identity's number, and for equal numbers with its count of digits.
fn rank(imsi: Imsi) -> u128
    ensures { result ≡ 16 * imsi.number + imsi.digits }
{
    16 * u128::from(imsi.number()) + u128::from(imsi.digits())
}
