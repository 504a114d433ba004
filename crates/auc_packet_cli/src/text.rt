//! The text that is printed of a line.

use crate::answer::{Answer, answer_of};
use crate::attr_text::push_attr;
use auc_attr::{AttrList, AttrRefusal};
use auc_hmac::Method;
use auc_packet::{Packet, PacketRefusal, Subtype};
use hex::FromHexError;
use std::alloc::{AllocError, Global};

/// What is printed of a line: what its packet is and the bytes that writing it gives, or why it is refused.
pub fn text_of_line(alloc: Global, line: &str) -> Result<String, AllocError> {
    match hex::decode(alloc, line) {
        Ok(bytes) => text_of_bytes(alloc, bytes.as_slice()),
        Err(FromHexError::OutOfMemory) => Err(AllocError),
        Err(_) => String::from_str(alloc, "not hexadecimal"),
    }
}

fn text_of_bytes(alloc: Global, bytes: &[u8]) -> Result<String, AllocError> {
    if 4096 < bytes.len() {
        return String::from_str(alloc, "more than 4096 bytes");
    }
    match answer_of(alloc, bytes) {
        Ok(Answer::Read(packet, written)) => {
            let packet = text_of_packet(alloc, &packet)?;
            let written = hex::encode(alloc, written.as_slice())?;
            format!(in alloc; "{packet}\nwritten {written}")
        }
        Ok(Answer::Refused(refusal)) => text_of_refusal(alloc, refusal),
        Err(_) => Err(AllocError),
    }
}

fn text_of_packet(alloc: Global, packet: &Packet) -> Result<String, AllocError> {
    match packet {
        Packet::Success(id) => format!(in alloc; "success {id}"),
        Packet::Failure(id) => format!(in alloc; "failure {id}"),
        Packet::Identity { request, id, text } => {
            let direction = direction_of(*request);
            let text = hex::encode(alloc, text.as_slice())?;
            format!(in alloc; "identity {direction} {id} text={text}")
        }
        Packet::Aka {
            request,
            id,
            method,
            subtype,
            attrs,
        } => {
            let method = name_of_method(*method);
            let direction = direction_of(*request);
            let subtype = name_of_subtype(*subtype);
            let attrs = text_of_attrs(alloc, attrs)?;
            format!(in alloc; "{method} {direction} {id} {subtype}{attrs}")
        }
    }
}

fn direction_of(request: bool) -> &'static str {
    if request { "request" } else { "response" }
}

fn name_of_method(method: Method) -> &'static str {
    match method {
        Method::Aka => "aka",
        Method::Prime => "prime",
    }
}

fn name_of_subtype(subtype: Subtype) -> &'static str {
    match subtype {
        Subtype::Challenge => "challenge",
        Subtype::AuthenticationReject => "authentication-reject",
        Subtype::SynchronizationFailure => "synchronization-failure",
        Subtype::Identity => "identity",
        Subtype::Notification => "notification",
        Subtype::Reauthentication => "reauthentication",
        Subtype::ClientError => "client-error",
    }
}

fn text_of_attrs(alloc: Global, attrs: &AttrList) -> Result<String, AllocError> {
    let mut text = String::new(alloc);
    for attr in attrs.as_slice() {
        push_attr(alloc, &mut text, attr)?;
    }
    Ok(text)
}

fn text_of_refusal(alloc: Global, refusal: PacketRefusal) -> Result<String, AllocError> {
    match refusal {
        PacketRefusal::Short => String::from_str(alloc, "refused short"),
        PacketRefusal::BadCode => String::from_str(alloc, "refused badcode"),
        PacketRefusal::LengthDisagrees => String::from_str(alloc, "refused lengthdisagrees"),
        PacketRefusal::OtherType(kind) => format!(in alloc; "refused othertype {kind}"),
        PacketRefusal::UnknownSubtype(number) => {
            format!(in alloc; "refused unknownsubtype {number}")
        }
        PacketRefusal::Attr(fault) => text_of_fault(alloc, fault),
        PacketRefusal::NoMemory => Err(AllocError),
    }
}

fn text_of_fault(alloc: Global, fault: AttrRefusal) -> Result<String, AllocError> {
    match fault {
        AttrRefusal::Truncated => String::from_str(alloc, "refused attr truncated"),
        AttrRefusal::ZeroLength => String::from_str(alloc, "refused attr zerolength"),
        AttrRefusal::BadLength(kind) => format!(in alloc; "refused attr badlength {kind}"),
        AttrRefusal::UnknownType(kind) => format!(in alloc; "refused attr unknowntype {kind}"),
        AttrRefusal::Twice(kind) => format!(in alloc; "refused attr twice {kind}"),
        AttrRefusal::BadPadding => String::from_str(alloc, "refused attr badpadding"),
        AttrRefusal::NoMemory => Err(AllocError),
    }
}
