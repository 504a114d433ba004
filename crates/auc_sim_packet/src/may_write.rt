//! Which packets may be written.

ghost use Rattle.std.specs.Prelude.{◌≡◌, ◌≤◌, ◌&&◌, length, true, IsTrue, ◌↔◌};
ghost use Rattle.auc_attr.specs.Frame.{is_subtype_in};
ghost use Rattle.auc_attr.specs.Item.{is_skipped_row};
ghost use Rattle.auc_attr.specs.Spelling.{may_follow_in};
ghost use Rattle.auc_attr.specs.Table.{row_in};
ghost use Rattle.auc_attr.specs.declared.table.Table.TheVariants as tables;
ghost use Rattle.auc_sim_packet.specs.Attributes.{is_named, item_of};
ghost use Rattle.auc_sim_packet.specs.Spelling.{spelling, writable, MayBeWrittenSim};

use crate::attr::SimAttr;
use crate::attr_list::SimList;
use crate::conversion::parts_of;
use crate::packet::SimPacket;
use crate::writing::size_of_attr;
use auc_attr::{Seen, Table, fits_item, may_stand};

impl SimPacket {
    /// Whether the packet may be written: its Subtype is 10, 11 or 14, its attributes may be written, and it has at most
    /// 4096 bytes.
    pub fn writable(&self) -> bool
        ensures { IsTrue result ↔ MayBeWrittenSim self.now }
    {
        match self {
            SimPacket::Success(_) | SimPacket::Failure(_) => true,
            SimPacket::Sim {
                request: _,
                id: _,
                subtype,
                attrs,
            } => is_subtype(*subtype) && attrs.writable() && are_short(attrs, 4088),
        }
    }
}

impl SimList {
    /// Whether the list may be written: each value has a length that its attribute allows, a `Skipped` has an unknown
    /// type from 128 on, and no known type stands twice.
    pub fn writable(&self) -> bool
        ensures { result ≡ writable self.now }
    {
        let mut seen = Seen::new();
        for attr in self.as_slice() {
            let kind = parts_of(attr).kind;
            if !may_follow(attr, seen.is_marked(kind)) {
                return false;
            }
            seen.mark(kind);
        }
        true
    }
}

fn is_subtype(subtype: u8) -> bool
    ensures { result ≡ is_subtype_in tables.Sim subtype }
{
    matches!(subtype, 10 | 11 | 14)
}

/// Whether an attribute may be written, given whether its type stood before.
fn may_follow(attr: &SimAttr, stood: bool) -> bool
    ensures { result ≡ (may_follow_in tables.Sim (item_of attr.now) stood && is_named attr.now) }
{
    let parts = parts_of(attr);
    fits_item(Table::Sim, parts.kind, parts.value.as_slice())
        && may_stand(Table::Sim, parts.kind, stood)
        && is_named(attr)
}

/// Whether an attribute goes by its own name: only an attribute of an unknown type is `Skipped`.
fn is_named(attr: &SimAttr) -> bool
    ensures { result ≡ is_named attr.now }
{
    match attr {
        SimAttr::Skipped(kind, _) => is_skipped(*kind),
        _ => true,
    }
}

#[tactic(auto, unfolding(auc_attr::specs::Table::sim_row_of))]
fn is_skipped(kind: u8) -> bool
    ensures { result ≡ is_skipped_row (row_in tables.Sim kind) }
{
    kind >= 128
}

/// Whether attributes take at most so many bytes.
fn are_short(attrs: &SimList, most: usize) -> bool
    requires { writable attrs.now ≡ true }
    ensures { IsTrue result ↔ (length (spelling attrs.now) ≤ most) }
{
    let mut left = most;
    for attr in attrs.as_slice() {
        let size = size_of_attr(attr);
        if left < size {
            return false;
        }
        left -= size;
    }
    true
}
