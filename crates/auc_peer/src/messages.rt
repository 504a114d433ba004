//! The messages of a peer.

ghost use Rattle.std.specs.Prelude.{◌≡◌, ◌≤◌, ◌+◌, [], ◌∷◌, length};
ghost use Rattle.auc_aes.specs.Bytes.{IsBlock};
ghost use Rattle.auc_attr.specs.Laws.{AreBytes};
ghost use Rattle.auc_attr.specs.Spelling.{spelling};
ghost use Rattle.auc_packet.specs.Sealed.{sealed};
ghost use Rattle.auc_packet.specs.Spelling.{packet_text, MayBeWritten};
ghost use Rattle.auc_seal.specs.Checkcode.{IsHash};
ghost use Rattle.auc_seal.specs.Encrypted.{MayBeEncrypted, encrypted};
ghost use Rattle.auc_peer.specs.InnerRooms.{HasPlaces, IsOneBlock, IsShort, IsShortDraft, plain};
ghost use Rattle.auc_peer.specs.Messages.{counter_attrs, draft_of, identified, identity_response, own_kdf, reauth_bytes, reauth_draft, response, response_bytes, sync_failure};

use crate::rooms::CounterRooms;
use auc_attr::{Attr, AttrList};
use auc_hmac::Method;
use auc_memory::{Octets, Places, Room};
use auc_packet::{Draft, Packet, Subtype, put_packet, put_sealed};
use auc_seal::{encrypted_attributes_may_be_written, put_encrypted};

/// The bytes of a packet.
fn put(packet: &Packet, room: Room) -> Octets
    requires may { MayBeWritten packet.now }
    requires empty { room.written ≡ [] }
    requires left { length (packet_text packet.now) ≤ room.left }
    ensures { result ≡ packet_text packet.now }
{
    let mut room = room;
    put_packet(packet, &mut room);
    room.into_octets()
}

/// The method and the Identifier of an answer.
#[derive(Clone, Copy)]
pub(crate) struct Heading {
    pub(crate) method: Method,
    pub(crate) id: u8,
}

/// A message without AT_MAC.
#[derive(Clone, Copy)]
pub(crate) enum Plain {
    /// Client-Error with code 0, "unable to process packet" (RFC 4187 §9.9 and §10.20).
    ClientError,
    /// Authentication-Reject (RFC 4187 §9.5).
    Reject,
    /// The Notification response (RFC 4187 §9.11).
    Notified,
    /// Synchronization-Failure with this AT_AUTS (RFC 4187 §9.6).
    SyncFailure([u8; 14]),
}

/// AT_CHECKCODE of an answer: whether the request had it, and the peer's own value (RFC 4187 §10.13).
#[derive(Drop)]
pub(crate) struct OwnCode {
    pub(crate) has: bool,
    pub(crate) value: Octets,
}

/// A response with these attributes.
fn response(heading: Heading, subtype: Subtype, attrs: AttrList, room: Room) -> Octets
    requires short { IsShort (response heading.method heading.id subtype attrs) }
    requires empty { room.written ≡ [] }
    requires left { 76 ≤ room.left }
    ensures bytes { result ≡ packet_text (response heading.method heading.id subtype attrs) }
    ensures size { length result ≤ 76 }
{
    let packet = Packet::Aka {
        request: false,
        id: heading.id,
        method: heading.method,
        subtype,
        attrs,
    };
    put(&packet, room)
}

/// A list of none.
fn none(places: Places<Attr>) -> AttrList
    requires { HasPlaces places }
    ensures { result ≡ [] }
{
    AttrList::from_places(places)
}

/// The Identity response of EAP (RFC 3748 §5.1).
#[tactic(auto, using(crate::proofs::MessageLemmas::identity_may, crate::proofs::MessageLemmas::identity_size))]
pub(crate) fn identity_response(id: u8, text: Octets, room: Room) -> Octets
    requires short { length text ≤ 511 }
    requires empty { room.written ≡ [] }
    requires left { 5 + length text ≤ room.left }
    ensures bytes { result ≡ packet_text (identity_response id text) }
    ensures size { length result ≡ 5 + length text }
{
    let packet = Packet::Identity {
        request: false,
        id,
        text,
    };
    put(&packet, room)
}

/// The AKA-Identity response (RFC 4187 §9.2).
#[tactic(auto, using(crate::proofs::MessageLemmas::identified_may, crate::proofs::MessageLemmas::identified_size))]
pub(crate) fn identified(heading: Heading, text: Octets, places: Places<Attr>, room: Room) -> Octets
    requires short { length text ≤ 511 }
    requires places { HasPlaces places }
    requires empty { room.written ≡ [] }
    requires left { 15 + length text ≤ room.left }
    ensures bytes { result ≡ packet_text (identified heading.method heading.id text) }
    ensures size { length result ≤ 15 + length text }
{
    let packet = Packet::Aka {
        request: false,
        id: heading.id,
        method: heading.method,
        subtype: Subtype::Identity,
        attrs: AttrList::one(Attr::Identity(text), places),
    };
    put(&packet, room)
}

/// AT_AUTS, and of EAP-AKA' the key derivation function of the Challenge (RFC 9048 §3.2).
fn sync_attrs(method: Method, auts: [u8; 14], places: Places<Attr>) -> AttrList
    requires { HasPlaces places }
    ensures { result ≡ Attr.Auts auts ∷ own_kdf method }
{
    let mut places = places;
    places.put(Attr::Auts(auts));
    if let Method::Prime = method {
        places.put(Attr::Kdf(1));
    }
    AttrList::from_places(places)
}

/// Synchronization-Failure (RFC 4187 §9.6).
fn sync_failure(heading: Heading, auts: [u8; 14], places: Places<Attr>, room: Room) -> Octets
    requires places { HasPlaces places }
    requires empty { room.written ≡ [] }
    requires left { 76 ≤ room.left }
    ensures bytes { result ≡ packet_text (sync_failure heading.method heading.id auts) }
    ensures size { length result ≤ 76 }
{
    let attrs = sync_attrs(heading.method, auts, places);
    response(heading, Subtype::SynchronizationFailure, attrs, room)
}

/// The bytes of a message without AT_MAC.
pub(crate) fn plain_bytes(
    heading: Heading,
    message: Plain,
    places: Places<Attr>,
    room: Room,
) -> Octets
    requires places { HasPlaces places }
    requires empty { room.written ≡ [] }
    requires left { 76 ≤ room.left }
    ensures bytes { result ≡ packet_text (plain heading.method heading.id message) }
    ensures size { length result ≤ 76 }
{
    match message {
        Plain::ClientError => {
            let attrs = AttrList::one(Attr::ClientErrorCode(0), places);
            response(heading, Subtype::ClientError, attrs, room)
        }
        Plain::Reject => {
            let attrs = none(places);
            response(heading, Subtype::AuthenticationReject, attrs, room)
        }
        Plain::Notified => {
            let attrs = none(places);
            response(heading, Subtype::Notification, attrs, room)
        }
        Plain::SyncFailure(auts) => sync_failure(heading, auts, places, room),
    }
}

/// The Challenge response (RFC 4187 §9.4): AT_RES, AT_CHECKCODE if the request had it, and AT_MAC.
#[tactic(auto, unfolding(crate::specs::Messages::response_bytes))]
pub(crate) fn challenge_response(
    heading: Heading,
    k_aut: &[u8; 32],
    res: Octets,
    own: OwnCode,
    places: Places<Attr>,
    room: Room,
) -> Octets
    requires res { length res ≡ 8 }
    requires own { IsHash own.value }
    requires places { HasPlaces places }
    requires empty { room.written ≡ [] }
    requires left { 76 ≤ room.left }
    ensures bytes { result ≡ response_bytes heading.method heading.id k_aut.now res own.has own.value }
    ensures size { length result ≤ 76 }
{
    let OwnCode { has, value } = own;
    let mut places = places;
    places.put(Attr::Res(res));
    if has {
        places.put(Attr::Checkcode(value));
        return sealed_response(heading, k_aut, AttrList::from_places(places), room);
    }
    sealed_response(heading, k_aut, AttrList::from_places(places), room)
}

/// A Challenge response with these attributes and AT_MAC.
fn sealed_response(heading: Heading, k_aut: &[u8; 32], attrs: AttrList, room: Room) -> Octets
    requires short { IsShortDraft (draft_of heading.method heading.id attrs) }
    requires empty { room.written ≡ [] }
    requires left { 76 ≤ room.left }
    ensures bytes { result ≡ sealed k_aut.now [] (draft_of heading.method heading.id attrs) }
    ensures size { length result ≤ 76 }
{
    let draft = Draft {
        method: heading.method,
        request: false,
        id: heading.id,
        subtype: Subtype::Challenge,
        attrs,
    };
    let mut room = room;
    put_sealed(&draft, k_aut, &[], &mut room);
    room.into_octets()
}

/// What a Reauthentication response encrypts: AT_COUNTER, and AT_COUNTER_TOO_SMALL if the counter is (RFC 4187 §10.16 and
/// §10.17).
fn counter_attrs(counter: u16, small: bool, places: Places<Attr>) -> AttrList
    requires { HasPlaces places }
    ensures { result ≡ counter_attrs counter small }
{
    let mut places = places;
    places.put(Attr::Counter(counter));
    if small {
        places.put(Attr::CounterTooSmall);
    }
    AttrList::from_places(places)
}

/// The list of a counter may be encrypted.
fn counter_may(counter: u16, small: bool, list: &AttrList)
    requires { list.now ≡ counter_attrs counter small }
    ensures { MayBeEncrypted list.now }
{}

/// Key and initialisation vector are blocks, and the spelling of a counter is bytes.
fn are_blocks(k_encr: [u8; 16], iv: [u8; 16], counter: u16, small: bool)
    ensures key { IsBlock k_encr }
    ensures iv { IsBlock iv }
    ensures bytes { AreBytes (spelling (counter_attrs counter small)) }
{}

/// The ciphertext of a counter has one block.
fn counter_is_one_block(k_encr: [u8; 16], iv: [u8; 16], counter: u16, small: bool)
    ensures { IsOneBlock k_encr iv counter small }
{
    are_blocks(k_encr, iv, counter, small);
    encrypted_attributes_may_be_written();
}

/// A counter in a Reauthentication response, how it is encrypted, and what AT_MAC is under.
#[derive(Clone, Copy)]
pub(crate) struct Hidden {
    pub(crate) k_encr: [u8; 16],
    pub(crate) k_aut: [u8; 32],
    pub(crate) iv: [u8; 16],
    pub(crate) nonce: [u8; 16],
    pub(crate) counter: u16,
    pub(crate) small: bool,
}

/// AT_IV and AT_ENCR_DATA with the counter (RFC 4187 §10.12).
fn put_counter(hidden: Hidden, rooms: CounterRooms) -> Places<Attr>
    ensures written { result.written ≡ encrypted hidden.k_encr hidden.iv (counter_attrs hidden.counter hidden.small) }
    ensures left { 1 ≤ result.left }
{
    let CounterRooms {
        places,
        counter,
        encryption,
    } = rooms;
    let list = counter_attrs(hidden.counter, hidden.small, counter);
    counter_may(hidden.counter, hidden.small, &list);
    let mut places = places;
    put_encrypted(hidden.k_encr, hidden.iv, &list, encryption, &mut places);
    places
}

/// A Reauthentication response, but for its AT_MAC.
fn reauth_draft(heading: Heading, hidden: Hidden, own: OwnCode, rooms: CounterRooms) -> Draft
    ensures { result ≡ reauth_draft heading.method heading.id hidden.k_encr hidden.iv hidden.counter hidden.small own.has own.value }
{
    let OwnCode { has, value } = own;
    let mut places = put_counter(hidden, rooms);
    if has {
        places.put(Attr::Checkcode(value));
    }
    Draft {
        method: heading.method,
        request: false,
        id: heading.id,
        subtype: Subtype::Reauthentication,
        attrs: AttrList::from_places(places),
    }
}

/// The Reauthentication response (RFC 4187 §9.8): AT_IV and AT_ENCR_DATA with the counter, AT_CHECKCODE if the request had it,
/// and AT_MAC, which authenticates NONCE_S besides.
#[tactic(auto, unfolding(crate::specs::Messages::reauth_bytes))]
pub(crate) fn reauth_response(
    heading: Heading,
    hidden: Hidden,
    own: OwnCode,
    rooms: CounterRooms,
    room: Room,
) -> Octets
    requires own { IsHash own.value }
    requires empty { room.written ≡ [] }
    requires left { 104 ≤ room.left }
    ensures bytes { result ≡ reauth_bytes heading.method heading.id hidden.k_encr hidden.k_aut hidden.iv hidden.nonce hidden.counter
        hidden.small own.has own.value }
    ensures size { length result ≤ 104 }
{
    counter_is_one_block(hidden.k_encr, hidden.iv, hidden.counter, hidden.small);
    let Hidden { k_aut, nonce, .. } = hidden;
    let draft = reauth_draft(heading, hidden, own, rooms);
    let mut room = room;
    put_sealed(&draft, &k_aut, &nonce, &mut room);
    room.into_octets()
}

/// A value of an attribute, in memory that was taken before.
pub(crate) fn value(bytes: &[u8], room: Room) -> Octets
    requires empty { room.written ≡ [] }
    requires left { length bytes.now ≤ room.left }
    ensures { result ≡ bytes.now }
{
    let mut room = room;
    room.put(bytes);
    room.into_octets()
}
