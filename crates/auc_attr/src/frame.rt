//! What stands before the attributes of a packet.

ghost use Rattle.std.specs.Prelude.{◌≡◌, ◌≤◌, ◌<◌, ◌+◌, length, true, IfOk, IfErr, nat_lt, nat_le, not, ◌==◌, ◌||◌, if◌then◌else◌};
ghost use Rattle.auc_attr.specs.Frame.{is_code, is_method_in, is_subtype_in, is_identity_in, frame_at, frame_at_in, length_of, IsFramed, IsFramedIn};
ghost use Rattle.auc_attr.specs.FrameView.{Frames, frame_of, IsLongFor};
ghost use Rattle.auc_attr.specs.InnerFrame.{is_wrong_length, typed_at, sized_at, frame_by_steps};

use crate::table::Table;

/// The first fault of a packet's bytes before its attributes.
#[derive(Clone, Copy)]
pub enum FrameFault {
    /// There are fewer than 4 bytes.
    Short,
    /// The code isn't 1 to 4 (RFC 3748 §4).
    BadCode,
    /// Length counts more bytes than there are, or a number that the code or the type doesn't have.
    LengthDisagrees,
    /// This type isn't 1, 23 or 50, or in EAP-SIM not 18.
    OtherType(u8),
    /// The method has no such Subtype (RFC 4187 §11, RFC 4186 §11).
    UnknownSubtype(u8),
}

/// What stands before a packet's attributes, and its text or attributes, without the bytes after Length.
#[derive(Clone, Copy)]
pub enum Framed<'a> {
    /// Success or Failure (RFC 3748 §4.2).
    Ended {
        /// Whether it is Success.
        success: bool,
        /// The Identifier.
        id: u8,
    },
    /// Identity (RFC 3748 §5.1).
    Named {
        /// Whether it is a Request.
        request: bool,
        /// The Identifier.
        id: u8,
        /// The text.
        text: &'a [u8],
    },
    /// A message of EAP-AKA or EAP-AKA' (RFC 4187 §8.1), or of EAP-SIM (RFC 4186 §8.1).
    Message {
        /// Whether it is a Request.
        request: bool,
        /// The Identifier.
        id: u8,
        /// The type of the method: 23 or 50, or 18 of EAP-SIM.
        kind: u8,
        /// The Subtype.
        subtype: u8,
        /// The bytes of the attributes.
        attrs: &'a [u8],
    },
}

/// What the bytes of a packet are before the attributes, or their first fault there. Takes no memory.
pub fn read_frame(bytes: &[u8]) -> Result<Framed<'_>, FrameFault>
    ensures read { Frames result (frame_at bytes.now) }
    ensures framed { IfOk result (λ f. IsFramed (frame_of f) bytes.now) }
    ensures long { IfErr result (λ fault. IsLongFor fault bytes.now) }
{
    read_frame_in(Table::Aka, bytes)
}

/// The same by a table: what bytes are before the attributes, or their first fault there. Takes no memory.
pub fn read_frame_in(table: Table, bytes: &[u8]) -> Result<Framed<'_>, FrameFault>
    ensures read { Frames result (frame_at_in table bytes.now) }
    ensures framed { IfOk result (λ f. IsFramedIn table (frame_of f) bytes.now) }
    ensures long { IfErr result (λ fault. IsLongFor fault bytes.now) }
{
    frame_by_steps(table, bytes)
}

#[tactic(auto, unfolding(crate::specs::InnerFrame::frame_by_steps))]
fn frame_by_steps(table: Table, bytes: &[u8]) -> Result<Framed<'_>, FrameFault>
    ensures steps { Frames result (frame_by_steps table bytes.now) }
    ensures long { IfErr result (λ fault. IsLongFor fault bytes.now) }
{
    if bytes.len() < 4 {
        return Err(FrameFault::Short);
    }
    if !is_code(bytes[0]) {
        return Err(FrameFault::BadCode);
    }
    sized(table, bytes[0], bytes[1], length_of(bytes), bytes)
}

/// The number of bytes that Length counts.
pub fn length_of(bytes: &[u8]) -> usize
    requires { 4 ≤ length bytes.now }
    ensures { result ≡ length_of bytes.now }
{
    u16::from_be_bytes([bytes[2], bytes[3]]) as usize
}

fn sized(
    table: Table,
    code: u8,
    id: u8,
    size: usize,
    bytes: &[u8],
) -> Result<Framed<'_>, FrameFault>
    ensures { Frames result (sized_at table code id size bytes.now) }
{
    if is_wrong_length(code, size, bytes.len()) {
        return Err(FrameFault::LengthDisagrees);
    }
    if 3 <= code {
        return Ok(Framed::Ended {
            success: code == 3,
            id,
        });
    }
    typed(table, code == 1, id, bytes[4], &bytes[..size])
}

fn typed(
    table: Table,
    request: bool,
    id: u8,
    kind: u8,
    bytes: &[u8],
) -> Result<Framed<'_>, FrameFault>
    requires { 5 ≤ length bytes.now }
    ensures { Frames result (typed_at table request id kind bytes.now) }
{
    if is_identity_in(table, kind) {
        return Ok(Framed::Named {
            request,
            id,
            text: &bytes[5..],
        });
    }
    if !is_method_in(table, kind) {
        return Err(FrameFault::OtherType(kind));
    }
    if bytes.len() < 8 {
        return Err(FrameFault::LengthDisagrees);
    }
    if !is_subtype_in(table, bytes[5]) {
        return Err(FrameFault::UnknownSubtype(bytes[5]));
    }
    Ok(Framed::Message {
        request,
        id,
        kind,
        subtype: bytes[5],
        attrs: &bytes[8..],
    })
}

fn is_code(code: u8) -> bool
    ensures { result ≡ is_code code }
{
    1 <= code && code <= 4
}

fn is_wrong_length(code: u8, size: usize, given: usize) -> bool
    ensures { result ≡ is_wrong_length code size given }
{
    given < size || if 3 <= code { size != 4 } else { size < 5 }
}

fn is_identity_in(table: Table, kind: u8) -> bool
    ensures { result ≡ is_identity_in table kind }
{
    match table {
        Table::Aka => kind == 1,
        Table::Sim => false,
    }
}

fn is_method_in(table: Table, kind: u8) -> bool
    ensures { result ≡ is_method_in table kind }
{
    match table {
        Table::Aka => kind == 23 || kind == 50,
        Table::Sim => kind == 18,
    }
}

fn is_subtype_in(table: Table, subtype: u8) -> bool
    ensures { result ≡ is_subtype_in table subtype }
{
    match table {
        Table::Aka => matches!(subtype, 1 | 2 | 4 | 5 | 12 | 13 | 14),
        Table::Sim => matches!(subtype, 10 | 11 | 14),
    }
}
