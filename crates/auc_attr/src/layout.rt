//! How an attribute is laid out after its type and its length.

ghost use Rattle.std.specs.Prelude.{◌≡◌, ◌+◌, ◌*◌, ◌≤◌, ◌<◌, ℕ, [], length, true, replicate};
ghost use Rattle.std.specs.Int.{w16, to_be_bytes};
ghost use Rattle.auc_attr.specs.Spelling.{fill, fits, shape_text};
ghost use Rattle.auc_attr.specs.InnerParts.{front_bytes, layout_text};
ghost use Rattle.auc_memory.specs.Reserved.{wrote};

use crate::body::are_zeros;
use crate::table::Shape;
use auc_memory::Room;

/// Two bytes or none, the value, and zero bytes.
#[derive(Clone, Copy)]
pub struct Layout<'a> {
    pub front: Option<[u8; 2]>,
    pub value: &'a [u8],
    pub zeros: &'static [u8],
}

/// Whether a shape has a layout for a value.
#[tactic(auto, unfolding(crate::specs::Spelling::fits))]
pub fn fits(shape: Shape, value: &[u8]) -> bool
    ensures { result ≡ fits shape value.now }
{
    let size = value.len();
    match shape {
        Shape::Fixed(n) | Shape::AfterReserved(n) => size == n as usize,
        Shape::BitCounted => 4 <= size && size <= 16,
        Shape::ByteCounted => size <= 1016,
        Shape::Several => size == 32 || size == 48,
        Shape::Versions => size % 2 == 0 && 2 <= size && size <= 1016,
        Shape::Ciphertext => size <= 1016 && size % 4 == 0,
        Shape::Hash => size == 0 || size == 20 || size == 32,
        Shape::Zeros => (size == 2 || size == 6 || size == 10) && are_zeros(value),
        Shape::Flag => size == 1 && value[0] <= 1,
        Shape::Skipped => 2 <= size && size <= 1018 && size % 4 == 2,
    }
}

/// The layout of a value in a shape.
#[tactic(auto, unfolding(crate::specs::Spelling::fits, crate::specs::Spelling::shape_text))]
pub fn layout_of(shape: Shape, value: &[u8]) -> Layout<'_>
    requires { fits shape value.now ≡ true }
    ensures text { (kind : ℕ) → layout_text kind result ≡ shape_text shape kind value.now }
    ensures size { length (front_bytes result.front) + length result.value.now + length result.zeros.now + 2 ≤ 1020 }
{
    match shape {
        Shape::Fixed(_) | Shape::Zeros | Shape::Skipped => bare(value),
        Shape::AfterReserved(_) | Shape::Several | Shape::Ciphertext | Shape::Hash => {
            after([0, 0], value)
        }
        Shape::BitCounted => counted(8, value),
        Shape::ByteCounted | Shape::Versions => counted(1, value),
        Shape::Flag => after([128 * value[0], 0], &[]),
    }
}

/// A value alone.
fn bare(value: &[u8]) -> Layout<'_>
    ensures front { result.front ≡ None }
    ensures value { result.value.now ≡ value.now }
    ensures zeros { result.zeros.now ≡ [] }
{
    Layout {
        front: None,
        value,
        zeros: &[],
    }
}

/// Two bytes and a value.
fn after(front: [u8; 2], value: &[u8]) -> Layout<'_>
    ensures front { result.front ≡ Some front }
    ensures value { result.value.now ≡ value.now }
    ensures zeros { result.zeros.now ≡ [] }
{
    Layout {
        front: Some(front),
        value,
        zeros: &[],
    }
}

/// A value after its length, which is counted in this part of a byte, and fill.
fn counted(unit: u16, value: &[u8]) -> Layout<'_>
    requires fits { unit * length value.now < 65536 }
    ensures front { result.front ≡ Some (to_be_bytes w16 (unit * length value.now)) }
    ensures value { result.value.now ≡ value.now }
    ensures zeros { result.zeros.now ≡ replicate (fill (length value.now)) 0 }
{
    let length = unit as usize * value.len();
    Layout {
        front: Some((length as u16).to_be_bytes()),
        value,
        zeros: filling(value.len()),
    }
}

/// The zero bytes that are missing to a multiple of 4.
fn filling(size: usize) -> &'static [u8]
    ensures { result.now ≡ replicate (fill size) 0 }
{
    match size % 4 {
        1 => &[0, 0, 0],
        2 => &[0, 0],
        3 => &[0],
        _ => &[],
    }
}

/// How many bytes a layout takes, with type and length.
pub fn size_of(layout: Layout<'_>) -> usize
    requires { length (front_bytes layout.front) + length layout.value.now + length layout.zeros.now + 2 ≤ 1020 }
    ensures sum { result ≡ length (front_bytes layout.entry.front) + length layout.entry.value.now + length layout.entry.zeros.now + 2 }
    ensures value { (kind : ℕ) → result ≡ length (layout_text kind layout.entry) }
    ensures most { result ≤ 1020 }
{
    2 + front_size(layout.front) + layout.value.len() + layout.zeros.len()
}

fn front_size(front: Option<[u8; 2]>) -> usize
    ensures { result ≡ length (front_bytes front) }
{
    match front {
        None => 0,
        Some(_) => 2,
    }
}

/// Writes an attribute after what is written.
pub fn put_layout(room: &mut Room, kind: u8, layout: Layout<'_>)
    requires size { length (front_bytes layout.front) + length layout.value.now + length layout.zeros.now + 2 ≤ 1020 }
    requires room { length (layout_text kind layout) ≤ room.old.left }
    ensures { room.new ≡ wrote room.old (layout_text kind layout.entry) }
{
    let units = size_of(layout) / 4;
    room.put(&[kind, units as u8]);
    if let Some(front) = layout.front {
        room.put(&front);
    }
    room.put(layout.value);
    room.put(layout.zeros);
}
