//! The bytes after an attribute's type and length.

ghost use Rattle.std.specs.Prelude.{◌≡◌, ◌+◌, ◌-◌, ◌*◌, ◌%◌, ◌≤◌, ◌<◌, ◌==◌, ◌&&◌, [], ◌∷◌, length, nat_lt, if◌then◌else◌, IsTrue, ◌↔◌};
ghost use Rattle.std.specs.List.{list_all};
ghost use Rattle.std.specs.Int.{w16, from_be_bytes};
ghost use Rattle.auc_attr.specs.InnerFront.{Gives, value_if, zeros_if, counted, counted_value, value_at};
ghost use Rattle.auc_attr.specs.Spelling.{is_zero, fill};

use crate::refusal::AttrRefusal;
use crate::table::Shape;

/// The value in the bytes after type and length, if they have a length that the shape allows.
#[tactic(auto, unfolding(crate::specs::InnerFront::value_at))]
pub fn value_at(shape: Shape, kind: u8, body: &[u8]) -> Result<&[u8], AttrRefusal>
    requires { 2 ≤ length body.now }
    ensures { Gives (λ v. v.now) result (value_at shape kind body.now) }
{
    let size = body.len();
    match shape {
        Shape::Fixed(n) => value_if(size == n as usize, kind, body),
        Shape::AfterReserved(n) => value_if(size == 2 + n as usize, kind, &body[2..]),
        Shape::BitCounted => counted_at(8, 4, 16, kind, body),
        Shape::ByteCounted => counted_at(1, 0, 1016, kind, body),
        Shape::Several => value_if(size == 34 || size == 50, kind, &body[2..]),
        Shape::Versions => versions_at(kind, body),
        Shape::Ciphertext => Ok(&body[2..]),
        Shape::Hash => value_if(size == 2 || size == 22 || size == 34, kind, &body[2..]),
        Shape::Zeros => zeros_if(size == 2 || size == 6 || size == 10, kind, body),
        Shape::Flag => value_if(size == 2, kind, flag_of(body[0])),
        Shape::Skipped => Ok(body),
    }
}

fn value_if(holds: bool, kind: u8, value: &[u8]) -> Result<&[u8], AttrRefusal>
    ensures { Gives (λ v. v.now) result (value_if holds kind value.now) }
{
    if holds {
        Ok(value)
    } else {
        Err(AttrRefusal::BadLength(kind))
    }
}

fn zeros_if(holds: bool, kind: u8, body: &[u8]) -> Result<&[u8], AttrRefusal>
    ensures { Gives (λ v. v.now) result (zeros_if holds kind body.now) }
{
    if holds && !are_zeros(body) {
        return Err(AttrRefusal::BadPadding);
    }
    value_if(holds, kind, body)
}

/// Whether each byte is zero.
pub fn are_zeros(bytes: &[u8]) -> bool
    ensures { result ≡ list_all is_zero bytes.now }
{
    bytes.iter().all(|byte| *byte == 0)
}

/// A value after its length.
fn counted_at(
    unit: usize,
    least: usize,
    most: usize,
    kind: u8,
    body: &[u8],
) -> Result<&[u8], AttrRefusal>
    requires unit { 0 < unit }
    requires long { 2 ≤ length body.now }
    ensures { Gives (λ v. v.now) result (value_if (counted unit least most body.now) kind (counted_value unit body.now)) }
{
    if !is_counted(unit, least, most, body) {
        return Err(AttrRefusal::BadLength(kind));
    }
    let size = count_of(body) / unit;
    Ok(&body[2..2 + size])
}

/// Versions of two bytes each after their length in bytes.
fn versions_at(kind: u8, body: &[u8]) -> Result<&[u8], AttrRefusal>
    requires { 2 ≤ length body.now }
    ensures { Gives (λ v. v.now) result (value_if ((from_be_bytes w16 body.now % 2 == 0) && counted 1 2 1016 body.now) kind (counted_value 1 body.now)) }
{
    if count_of(body) % 2 != 0 {
        return Err(AttrRefusal::BadLength(kind));
    }
    counted_at(1, 2, 1016, kind, body)
}

/// Whether a body is no longer than the value after its length needs.
fn is_counted(unit: usize, least: usize, most: usize, body: &[u8]) -> bool
    requires unit { 0 < unit }
    requires long { 2 ≤ length body.now }
    ensures { result ≡ counted unit least most body.now }
{
    let count = count_of(body);
    let size = count / unit;
    count % unit == 0 && least <= size && size <= most && body.len() == 2 + size + fill(size)
}

/// The length that a body begins with.
fn count_of(body: &[u8]) -> usize
    requires { 2 ≤ length body.now }
    ensures value { result ≡ from_be_bytes w16 body.now }
    ensures small { result < 65536 }
{
    u16::from_be_bytes([body[0], body[1]]) as usize
}

/// How many bytes are missing to a multiple of 4.
pub fn fill(size: usize) -> usize
    ensures { result ≡ fill size }
{
    (4 - size % 4) % 4
}

/// The bit D, the top bit of a byte, as a value.
fn flag_of(first: u8) -> &'static [u8]
    ensures { result.now ≡ (if nat_lt first 128 then 0 else 1) ∷ [] }
{
    if first < 128 { &[0] } else { &[1] }
}
