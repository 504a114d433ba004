//! The text that is printed of an attribute.

use auc_attr::Attr;
use std::alloc::{AllocError, Global};

/// Appends a space, the name of an attribute and its value to a text: bytes in hexadecimal digits, numbers in
/// decimal.
pub fn push_attr(alloc: Global, text: &mut String, attr: &Attr) -> Result<(), AllocError> {
    match attr {
        Attr::Rand(value) => push_bytes(alloc, text, "RAND", value),
        Attr::Autn(value) => push_bytes(alloc, text, "AUTN", value),
        Attr::Res(value) => push_bytes(alloc, text, "RES", value.as_slice()),
        Attr::Auts(value) => push_bytes(alloc, text, "AUTS", value),
        Attr::Padding(value) => push_bytes(alloc, text, "PADDING", value.as_slice()),
        Attr::PermanentIdReq => text.push_str(" PERMANENT_ID_REQ"),
        Attr::Mac(value) => push_bytes(alloc, text, "MAC", value),
        Attr::Notification(code) => push_number(alloc, text, "NOTIFICATION", *code),
        Attr::AnyIdReq => text.push_str(" ANY_ID_REQ"),
        Attr::Identity(value) => push_bytes(alloc, text, "IDENTITY", value.as_slice()),
        Attr::FullauthIdReq => text.push_str(" FULLAUTH_ID_REQ"),
        Attr::Counter(number) => push_number(alloc, text, "COUNTER", *number),
        Attr::CounterTooSmall => text.push_str(" COUNTER_TOO_SMALL"),
        Attr::NonceS(value) => push_bytes(alloc, text, "NONCE_S", value),
        Attr::ClientErrorCode(code) => push_number(alloc, text, "CLIENT_ERROR_CODE", *code),
        Attr::KdfInput(value) => push_bytes(alloc, text, "KDF_INPUT", value.as_slice()),
        Attr::Kdf(number) => push_number(alloc, text, "KDF", *number),
        Attr::Iv(value) => push_bytes(alloc, text, "IV", value),
        Attr::EncrData(value) => push_bytes(alloc, text, "ENCR_DATA", value.as_slice()),
        Attr::NextPseudonym(value) => push_bytes(alloc, text, "NEXT_PSEUDONYM", value.as_slice()),
        Attr::NextReauthId(value) => push_bytes(alloc, text, "NEXT_REAUTH_ID", value.as_slice()),
        Attr::Checkcode(value) => push_bytes(alloc, text, "CHECKCODE", value.as_slice()),
        Attr::ResultInd => text.push_str(" RESULT_IND"),
        Attr::Bidding(true) => text.push_str(" BIDDING=1"),
        Attr::Bidding(false) => text.push_str(" BIDDING=0"),
        Attr::Skipped(kind, value) => push_skipped(alloc, text, *kind, value.as_slice()),
    }
}

fn push_bytes(
    alloc: Global,
    text: &mut String,
    name: &str,
    value: &[u8],
) -> Result<(), AllocError> {
    let digits = hex::encode(alloc, value)?;
    let more = format!(in alloc; " {name}={digits}")?;
    text.push_str(more.as_str())
}

fn push_number(alloc: Global, text: &mut String, name: &str, value: u16) -> Result<(), AllocError> {
    let more = format!(in alloc; " {name}={value}")?;
    text.push_str(more.as_str())
}

fn push_skipped(
    alloc: Global,
    text: &mut String,
    kind: u8,
    value: &[u8],
) -> Result<(), AllocError> {
    let digits = hex::encode(alloc, value)?;
    let more = format!(in alloc; " SKIPPED_{kind}={digits}")?;
    text.push_str(more.as_str())
}
