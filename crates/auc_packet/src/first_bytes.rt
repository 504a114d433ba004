//! The first bytes of a packet.

ghost use Rattle.std.specs.Prelude.{◌≡◌};
ghost use Rattle.auc_packet.specs.Head.{head_as, head_of_frame, head_at};
ghost use Rattle.auc_attr.specs.FrameView.{frame_of};

use crate::packet::Head;
use auc_attr::{FrameFault, Framed, read_frame};

/// Code, Identifier and type, or `None` if there are too few bytes, no such code exists or Length disagrees.
/// Takes no memory.
pub fn head(bytes: &[u8]) -> Option<Head>
    ensures { result ≡ head_at bytes.now }
{
    match read_frame(bytes) {
        Ok(framed) => Some(head_of(framed)),
        Err(FrameFault::Short) => None,
        Err(FrameFault::BadCode) => None,
        Err(FrameFault::LengthDisagrees) => None,
        Err(FrameFault::OtherType(kind)) => head_as(bytes[0], bytes[1], Some(kind)),
        Err(FrameFault::UnknownSubtype(_)) => head_as(bytes[0], bytes[1], Some(bytes[4])),
    }
}

fn head_of(framed: Framed<'_>) -> Head
    ensures { result ≡ head_of_frame (frame_of framed.entry) }
{
    match framed {
        Framed::Ended { success, id } => Head {
            code: if success { 3 } else { 4 },
            id,
            kind: None,
        },
        Framed::Named {
            request,
            id,
            text: _,
        } => Head {
            code: if request { 1 } else { 2 },
            id,
            kind: Some(1),
        },
        Framed::Message {
            request,
            id,
            kind,
            subtype: _,
            attrs: _,
        } => Head {
            code: if request { 1 } else { 2 },
            id,
            kind: Some(kind),
        },
    }
}

fn head_as(code: u8, id: u8, kind: Option<u8>) -> Option<Head>
    ensures { result ≡ Some (head_as code id kind) }
{
    Some(Head { code, id, kind })
}
