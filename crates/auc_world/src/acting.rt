//! What an end of a session does by itself: its server starts or repeats its last request, or it gives up.

ghost use Rattle.std.specs.Prelude.{◌≡◌, IfOk, OnErr, None};
ghost use Rattle.auc_lines.specs.declared.part.End.TheVariants as end;
ghost use Rattle.auc_server.specs.Server.{started};
ghost use Rattle.auc_server.specs.Table.{silent};
ghost use Rattle.auc_world.specs.InnerWorld.{Acts};
ghost use Rattle.auc_world.specs.World.{IsName};
ghost use Rattle.auc_world.specs.declared.acting.Deed.TheVariants as deed;

use crate::inputs::server_inputs;
use crate::net::{SentPacket, Session};
use crate::posting::{copy_sent, make_place, post};
use auc_lines::End;
use auc_memory::{NoMemory, Octets};
use auc_record::{Note, NoteStep, WorldRefusal, copy_of};
use auc_server::{Server, ServerOptions};
use auc_vector::{Notes, Step};
use std::alloc::Global;

/// What comes of an event.
pub(crate) type Came = Result<Note, WorldRefusal>;

/// What an end does by itself.
#[derive(Clone, Copy)]
pub(crate) enum Deed {
    /// The server starts.
    Start,
    /// The server sends its last request again.
    Repeat,
    /// The end gives up.
    GiveUp(End),
}

/// A note of a step in which neither the centre nor a USIM was asked.
pub(crate) fn note(step: NoteStep, packet: Option<u32>) -> Note
    ensures { result ≡ record { notes = silent; step = step; packet = packet; asked = None; device = None; vector = None } }
{
    let notes = Notes {
        resync: None,
        number: None,
        resumed: None,
        usim: None,
        counter: None,
    };
    Note {
        notes,
        step,
        packet,
        asked: None,
        device: None,
        vector: None,
    }
}

/// A copy of the options of a session's server.
fn copy_options(alloc: Global, options: &ServerOptions) -> Result<ServerOptions, NoMemory>
    ensures { IfOk result (λ copy. copy ≡ options.now) }
{
    Ok(ServerOptions {
        session: options.session,
        method: options.method,
        name: copy_of(alloc, &options.name)?,
        pseudonym: options.pseudonym,
        reauth: options.reauth,
        bidding: options.bidding,
        any: options.any,
    })
}

/// Gives a server and the bytes of its first request back.
fn give_back(_server: Server, _bytes: Octets) {}

/// A server that starts with a copy of these options, its first request, and a copy of that.
fn started(alloc: Global, options: &ServerOptions) -> Result<(Server, Octets, Octets), NoMemory>
    requires { IsName options.now.name }
    ensures server { IfOk result (λ t. t.0 ≡ started options.now) }
    ensures sent { IfOk result (λ t. t.1 ≡ (started options.now).last) }
    ensures copy { IfOk result (λ t. t.2 ≡ (started options.now).last) }
{
    let options = copy_options(alloc, options)?;
    let (server, bytes) = Server::start(options, alloc)?;
    match copy_of(alloc, &bytes) {
        Ok(copy) => Ok((server, bytes, copy)),
        Err(error) => {
            give_back(server, bytes);
            Err(error)
        }
    }
}

/// Starts a session's server (RFC 3748 §5.1).
fn start(
    alloc: Global,
    packets: &mut Vec<SentPacket>,
    session: &mut Session,
) -> Result<Came, NoMemory>
    requires { IsName session.old.options.name }
    ensures acts { IfOk result (Acts deed.Start packets.old.items session.old packets.new.items session.new) }
    ensures packets { OnErr result (packets.new.items ≡ packets.old.items) }
    ensures session { OnErr result (session.new ≡ session.old) }
{
    if session.server.is_some() {
        return Ok(Err(WorldRefusal::Started));
    }
    make_place(packets)?;
    let (server, bytes, sent) = started(alloc, &session.options)?;
    session.server = Some(server);
    let packet = post(packets, End::Server, None, Some(sent));
    Ok(Ok(note(NoteStep::Server(Step::Sent(bytes)), packet)))
}

/// Sends the last request of a session's server again (RFC 3748 §4.1).
fn repeat(alloc: Global, packets: &mut Vec<SentPacket>, session: &Session) -> Result<Came, NoMemory>
    ensures acts { IfOk result (Acts deed.Repeat packets.old.items session.now packets.new.items session.now) }
    ensures packets { OnErr result (packets.new.items ≡ packets.old.items) }
{
    let Some(server) = &session.server else {
        return Ok(Err(WorldRefusal::NoSuchEnd));
    };
    let step = server.repeat()?;
    let sent = copy_sent(alloc, &step)?;
    let inputs = server_inputs(alloc, server)?;
    make_place(packets)?;
    let packet = post(packets, End::Server, inputs, sent);
    Ok(Ok(note(NoteStep::Server(step), packet)))
}

/// A session's server gives up. It sends nothing.
fn give_up_server(packets: &[SentPacket], session: &mut Session) -> Came
    ensures { Acts (deed.GiveUp end.Server) packets.now session.old packets.now session.new result }
{
    let Some(server) = &mut session.server else {
        return Err(WorldRefusal::NoSuchEnd);
    };
    Ok(note(NoteStep::Server(server.give_up()), None))
}

/// A session's peer gives up. It sends nothing.
fn give_up_peer(alloc: Global, packets: &[SentPacket], session: &mut Session) -> Came
    ensures { Acts (deed.GiveUp end.Peer) packets.now session.old packets.now session.new result }
{
    Ok(note(NoteStep::Peer(session.peer.give_up(alloc)), None))
}

/// Does what an end of a session does by itself.
pub(crate) fn act(
    alloc: Global,
    packets: &mut Vec<SentPacket>,
    session: &mut Session,
    deed: Deed,
) -> Result<Came, NoMemory>
    requires { IsName session.old.options.name }
    ensures acts { IfOk result (Acts deed packets.old.items session.old packets.new.items session.new) }
    ensures packets { OnErr result (packets.new.items ≡ packets.old.items) }
    ensures session { OnErr result (session.new ≡ session.old) }
{
    match deed {
        Deed::Start => start(alloc, packets, session),
        Deed::Repeat => repeat(alloc, packets, session),
        Deed::GiveUp(End::Server) => Ok(give_up_server(packets, session)),
        Deed::GiveUp(End::Peer) => Ok(give_up_peer(alloc, packets, session)),
    }
}
