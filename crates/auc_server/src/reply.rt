//! What the response to a fast re-authentication has encrypted (RFC 4187 §9.8).

ghost use Rattle.std.specs.Prelude.{◌≡◌, ◌≤◌, [], length, IfOk};
ghost use Rattle.std.specs.Option.{option_copied};
ghost use Rattle.auc_packet.specs.Received.{attrs_in};
ghost use Rattle.auc_seal.specs.Encrypted.{ciphertext_of};
ghost use Rattle.auc_server.specs.Replies.{Counts, IsReply, IsReplyIn, Replies, reply_of, small_or_right};

use crate::server::{Resumed, Server, ServerState};
use auc_attr::{Attr, value_in};
use auc_memory::{NoMemory, Room};
use auc_packet::{Packet, Reading, attrs_in};
use auc_request::counter_in;
use auc_seal::{ciphertext_size, open_attrs};

/// The reply to the counter of a fast re-authentication.
#[derive(Clone, Copy)]
pub enum Reply {
    /// The encrypted attributes can't be read, or haven't the counter (RFC 4187 §10.16).
    Wrong,
    /// They have the counter and say that it is too small (RFC 4187 §10.17).
    TooSmall,
    /// They have the counter alone.
    Right,
}

/// The reply of attributes with the counter, by the value of AT_COUNTER_TOO_SMALL.
fn small_or_right(value: Option<&[u8]>) -> Reply
    ensures { result ≡ small_or_right (option_copied value.entry) }
{
    match value {
        None => Reply::Right,
        Some(_) => Reply::TooSmall,
    }
}

/// The reply to a counter, by the counter that was found and the value of AT_COUNTER_TOO_SMALL.
fn reply_of(counter: u16, found: Option<u16>, value: Option<&[u8]>) -> Reply
    ensures { result ≡ reply_of counter found (option_copied value.entry) }
{
    match found {
        None => Reply::Wrong,
        Some(n) => {
            if n != counter {
                return Reply::Wrong;
            }
            small_or_right(value)
        }
    }
}

/// The reply of decrypted attributes.
fn counted(counter: u16, bytes: &[u8]) -> Reply
    ensures { Counts counter bytes.now result }
{
    reply_of(counter, counter_in(bytes), value_in(bytes, 20))
}

/// The reply of a list's encrypted attributes under K_encr.
fn reply_under(k_encr: [u8; 16], counter: u16, list: &[Attr], plain: Room) -> Reply
    requires empty { plain.written ≡ [] }
    requires room { length (ciphertext_of list.now) ≤ plain.left }
    ensures { IsReply k_encr counter list.now result }
{
    match open_attrs(k_encr, list, plain) {
        Ok(bytes) => counted(counter, bytes.as_slice()),
        Err(_) => Reply::Wrong,
    }
}

/// The reply of a message to a re-authentication.
fn reply_to(sent: &Resumed, reading: &Reading, plain: Room) -> Reply
    requires empty { plain.written ≡ [] }
    requires room { length (ciphertext_of (attrs_in reading.now)) ≤ plain.left }
    ensures { IsReplyIn sent.now reading.now result }
{
    match reading {
        Reading::Read(Packet::Aka { attrs, .. }) => {
            reply_under(
                sent.context.k_encr,
                sent.context.counter,
                attrs.as_slice(),
                plain,
            )
        }
        _ => Reply::Wrong,
    }
}

impl Server {
    /// The reply of a message, if the answer to a re-authentication is awaited. Else nothing is decrypted, and it takes no
    /// memory.
    pub(crate) fn reply_in(&self, reading: &Reading) -> Result<Reply, NoMemory>
        ensures { IfOk result (λ reply. Replies self.now.state reading.now reply) }
    {
        match &self.state {
            ServerState::AwaitReauth(sent) => {
                let plain = Room::new(self.alloc, ciphertext_size(attrs_in(reading)))?;
                Ok(reply_to(sent, reading, plain))
            }
            _ => Ok(Reply::Wrong),
        }
    }
}
