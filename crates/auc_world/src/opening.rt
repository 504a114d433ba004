//! A session as it is opened.

ghost use Rattle.std.specs.Prelude.{◌≡◌, nat_eq, IfOk, OnErr, OnOk};
ghost use Rattle.indexmap.specs.IndexMap.{insert_entry, IsUnchanged};
ghost use Rattle.auc_lines.specs.Part.{IsShortIdentity};
ghost use Rattle.auc_world.specs.Happened.{new_session};

use crate::copying::first_of;
use crate::net::Session;
use auc_lines::SessionLine;
use auc_memory::NoMemory;
use auc_peer::{Peer, PeerOptions};
use auc_record::{copy_if_any, copy_of};
use auc_server::ServerOptions;
use indexmap::IndexMap;
use std::alloc::Global;

/// A session in which nothing has happened, at the device of a place, with copies of the names and the identity.
pub(crate) fn new_session(
    alloc: Global,
    opening: &SessionLine,
    device: u32,
) -> Result<Session, NoMemory>
    requires { IsShortIdentity opening.now.identity }
    ensures { IfOk result (λ session. session ≡ new_session opening.now device) }
{
    let options = ServerOptions {
        session: opening.session,
        method: opening.method,
        name: copy_of(alloc, &opening.name)?,
        pseudonym: opening.pseudonym,
        reauth: opening.reauth,
        bidding: opening.bidding,
        any: opening.any,
    };
    let own = PeerOptions {
        session: opening.session,
        method: opening.method,
        name: copy_if_any(alloc, &opening.peer_name)?,
        has_prime: opening.has_prime,
        first: first_of(alloc, &opening.identity)?,
    };
    Ok(Session {
        number: opening.session,
        sub: opening.sub,
        device,
        options,
        server: None,
        peer: Peer::new(own, alloc),
        peer_keys: None,
    })
}

/// Adds a session under its number. If memory runs out, the sessions stay as they were.
pub(crate) fn add_session(
    sessions: &mut IndexMap<u32, Session>,
    number: u32,
    session: Session,
) -> Result<(), NoMemory>
    ensures added { OnOk result (sessions.new.entries ≡ insert_entry nat_eq sessions.old.entries number session) }
    ensures kept { OnErr result (IsUnchanged sessions.old sessions.new) }
{
    sessions.insert(number, session)?;
    Ok(())
}
