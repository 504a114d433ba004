//! Whether the texts of a line are within their limits.

ghost use Rattle.std.specs.Prelude.{◌≡◌};
ghost use Rattle.auc_reading.specs.Texts.{has_fit_texts, is_first, is_short};

use crate::limits::{MAX_NAME, MAX_TEXT};
use auc_lines::{Identity, Line};
use auc_memory::Octets;

/// Whether the names of the session that a line opens, and its first identity, are within their limits; or the two names of
/// a line's serving network.
pub fn has_fit_texts(line: &Line) -> bool
    ensures { result ≡ has_fit_texts line.now }
{
    match line {
        Line::Session(line) => {
            line.name.len() <= MAX_NAME && is_short(&line.peer_name) && is_first(&line.identity)
        }
        Line::Fiveg(line) => line.home.len() <= MAX_NAME && line.device.len() <= MAX_NAME,
        _ => true,
    }
}

/// Whether the text of an identity, if it is one, is within its limits.
fn is_first(identity: &Identity) -> bool
    ensures { result ≡ is_first identity.now }
{
    match identity {
        Identity::Held | Identity::Permanent => true,
        Identity::Text(text) => !text.is_empty() && text.len() <= MAX_TEXT,
    }
}

/// Whether a name, if there is one, is within its limit.
fn is_short(name: &Option<Octets>) -> bool
    ensures { result ≡ is_short name.now }
{
    match name {
        None => true,
        Some(name) => name.len() <= MAX_NAME,
    }
}
