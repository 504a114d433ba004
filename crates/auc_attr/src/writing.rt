//! Attributes as bytes.

ghost use Rattle.std.specs.Prelude.{◌≡◌, ◌+◌, ◌^◌, ◌≤◌, ◌<◌, ◌++◌, ◌&&◌, length, true, IsTrue, ◌↔◌, OnOk, OnErr};
ghost use Rattle.auc_attr.specs.Item.{item_of, is_named};
ghost use Rattle.auc_attr.specs.Spelling.{fits_item, may_follow, writable, spelling, item_text};
ghost use Rattle.auc_memory.specs.Reserved.{wrote};

use crate::attr::Attr;
use crate::attr_list::AttrList;
use crate::conversion::{is_named, parts_of};
use crate::items::{fits_item, may_stand, put_item, size_of_item};
use crate::seen::Seen;
use crate::table::Table;
use auc_memory::{NoMemory, Octets, Room};

/// Appends attributes to `out`, with zeros as reserved bytes and fill (RFC 4187 §8.1). If memory runs out,
/// `out` stays as it was.
pub fn write_attrs(list: &AttrList, out: &mut Octets) -> Result<(), NoMemory>
    requires { writable list.now ≡ true }

    ensures written { OnOk result (out.new ≡ out.old ++ spelling list.now) }
    ensures kept { OnErr result (out.new ≡ out.old) }
{
    if !list.is_within(usize::MAX) {
        return Err(NoMemory);
    }
    let mut room = out.room(list.size())?;
    put_attrs(list, &mut room);
    out.append(room.as_slice())
}

/// Writes attributes into memory that was taken before this call.
pub fn put_attrs(list: &AttrList, room: &mut Room)
    requires writable { writable list.now ≡ true }
    requires room { length (spelling list.now) ≤ room.old.left }
    ensures { room.new ≡ wrote room.old (spelling list.now) }
{
    for attr in list.as_slice() {
        put_attr(attr, room);
    }
}

fn put_attr(attr: &Attr, room: &mut Room)
    requires fits { fits_item (item_of attr.now) ≡ true }
    requires room { length (item_text (item_of attr.now)) ≤ room.old.left }
    ensures { room.new ≡ wrote room.old (item_text (item_of attr.now)) }
{
    let parts = parts_of(attr);
    put_item(Table::Aka, parts.kind, parts.value.as_slice(), room);
}

/// How many bytes a written attribute takes.
fn size_of_attr(attr: &Attr) -> usize
    requires { fits_item (item_of attr.now) ≡ true }
    ensures { result ≡ length (item_text (item_of attr.now)) }
{
    let parts = parts_of(attr);
    size_of_item(Table::Aka, parts.kind, parts.value.as_slice())
}

/// Whether an attribute may be written, given whether its type stood before.
#[tactic(auto, unfolding(crate::specs::Spelling::fits_item))]
fn may_follow(attr: &Attr, stood: bool) -> bool
    ensures { result ≡ may_follow attr.now stood }
{
    let parts = parts_of(attr);
    fits_item(Table::Aka, parts.kind, parts.value.as_slice())
        && is_named(attr)
        && may_stand(Table::Aka, parts.kind, stood)
}

impl AttrList {
    /// Whether the list may be written: each value has a length and bytes that its attribute allows, a
    /// `Skipped` has an unknown type from 128 on, and no known type other than AT_KDF stands twice.
    pub fn writable(&self) -> bool
        ensures { result ≡ writable self.now }
    {
        let mut seen = Seen::new();
        for attr in self.as_slice() {
            let kind = parts_of(attr).kind;
            if !may_follow(attr, seen.is_marked(kind)) {
                return false;
            }
            seen.mark(kind);
        }
        true
    }

    /// How many bytes the written attributes take. [`AttrList::is_within`] tells whether a `usize` can count them.
    pub fn size(&self) -> usize
        requires writable { writable self.now ≡ true }
        requires counted { length (spelling self.now) < 2 ^ 64 }
        ensures { result ≡ length (spelling self.now) }
    {
        let mut size = 0;
        for attr in self.as_slice() {
            size += size_of_attr(attr);
        }
        size
    }

    /// Whether the written attributes take at most so many bytes.
    pub fn is_within(&self, most: usize) -> bool
        requires { writable self.now ≡ true }
        ensures { IsTrue result ↔ (length (spelling self.now) ≤ most) }
    {
        let mut left = most;
        for attr in self.as_slice() {
            let size = size_of_attr(attr);
            if left < size {
                return false;
            }
            left -= size;
        }
        true
    }
}
