//! The messages of a server.

ghost use Rattle.std.specs.Prelude.{◌≡◌, ◌+◌, ◌≤◌, [], ◌∷◌, ◌++◌, length, true};
ghost use Rattle.auc_attr.specs.declared.attr.Attr.TheVariants as attr;
ghost use Rattle.auc_ident.specs.Permanent.{with_realm};
ghost use Rattle.auc_packet.specs.Spelling.{MayBeWritten, packet_text};
ghost use Rattle.auc_seal.specs.Checkcode.{IsHash};
ghost use Rattle.auc_seal.specs.Encrypted.{HasNoneEncrypted};
ghost use Rattle.auc_server.specs.InnerRooms.{HasInner, HasPlaces, IsFresh, IsFreshIdentity, IsFreshName};
ghost use Rattle.auc_server.specs.Messages.{aka_identity, attrs_before, attrs_by, attrs_given, challenge_bytes, challenge_draft, id_req, names_in, notification, reauth_bytes, reauth_draft, reauth_in};

use crate::naming::{GivenNames, NewNames};
use crate::options::ServerOptions;
use crate::rooms::HiddenRooms;
use crate::server::{Challenged, Resumed};
use crate::sizes::{
    are_blocks, given_is_small, names_may_be_encrypted, reauth_is_small, reauth_may_be_encrypted,
};
use auc_attr::{Attr, AttrList};
use auc_hmac::{KeySet, Method};
use auc_ident::with_realm;
use auc_memory::{Octets, Places, Room};
use auc_packet::{Draft, Packet, Subtype, put_packet, put_sealed};
use auc_request::IdentityRequest;
use auc_seal::put_encrypted;
use auc_vector::Vector;

/// A packet of at most 728 bytes.
pub(crate) fn message(packet: &Packet, room: Room) -> Octets
    requires writable { MayBeWritten packet.now }
    requires small { length (packet_text packet.now) ≤ 728 }
    requires fresh { IsFresh room }
    ensures bytes { result ≡ packet_text packet.now }
    ensures size { length result ≤ 728 }
{
    let mut room = room;
    put_packet(packet, &mut room);
    room.into_octets()
}

/// AT_KDF_INPUT and AT_KDF of EAP-AKA' (RFC 9048 §3.1 and §3.2), or AT_BIDDING of a server of EAP-AKA that would rather use
/// EAP-AKA' (RFC 9048 §4).
fn put_attrs_by(options: &ServerOptions, name: Octets, places: Places<Attr>) -> Places<Attr>
    requires named { name ≡ options.now.name }
    requires places { 2 ≤ places.left }
    ensures written { result.written ≡ places.written ++ attrs_by options.now.method options.now.name options.now.bidding }
    ensures left { places.left ≤ result.left + 2 }
{
    let mut places = places;
    match options.method {
        Method::Prime => {
            places.put(Attr::KdfInput(name));
            places.put(Attr::Kdf(1));
            places
        }
        Method::Aka => {
            if !options.bidding {
                return places;
            }
            places.put(Attr::Bidding(true));
            places
        }
    }
}

/// AT_NEXT_PSEUDONYM (RFC 4187 §10.10).
fn pseudonym_attr(name: [u8; 33], room: Room) -> Attr
    requires { IsFreshName room }
    ensures { result ≡ attr.NextPseudonym name }
{
    let mut room = room;
    room.put(&name);
    Attr::NextPseudonym(room.into_octets())
}

/// AT_NEXT_REAUTH_ID, with the realm (RFC 4187 §10.11).
fn identity_attr(name: [u8; 33], realm: &[u8], room: Room) -> Attr
    requires realm { length realm.now ≤ 255 }
    requires fresh { IsFreshIdentity room }
    ensures { result ≡ attr.NextReauthId (with_realm name realm.now) }
{
    Attr::NextReauthId(with_realm(&name, realm, room))
}

/// The list of the attributes that a Challenge encrypts: the names (RFC 4187 §10.10 and §10.11).
fn names_in(
    realm: &[u8],
    names: NewNames,
    text: Room,
    identity: Room,
    inner: Places<Attr>,
) -> AttrList
    requires realm { length realm.now ≤ 255 }
    requires text { IsFreshName text }
    requires identity { IsFreshIdentity identity }
    requires inner { HasInner inner }
    ensures { result ≡ names_in realm.now names }
{
    let mut inner = inner;
    match names {
        NewNames::Pseudonym(name) => {
            inner.put(pseudonym_attr(name, text));
            AttrList::from_places(inner)
        }
        NewNames::Identity(name) => {
            inner.put(identity_attr(name, realm, identity));
            AttrList::from_places(inner)
        }
        NewNames::Both(name, other) => {
            inner.put(pseudonym_attr(name, text));
            inner.put(identity_attr(other, realm, identity));
            AttrList::from_places(inner)
        }
    }
}

/// The list of the attributes that a Reauthentication request encrypts (RFC 4187 §9.7).
fn reauth_in(realm: &[u8], sent: &Resumed, identity: Room, inner: Places<Attr>) -> AttrList
    requires realm { length realm.now ≤ 255 }
    requires identity { IsFreshIdentity identity }
    requires inner { HasInner inner }
    ensures { result ≡ reauth_in realm.now sent.now }
{
    let mut inner = inner;
    inner.put(Attr::Counter(sent.context.counter));
    inner.put(Attr::NonceS(sent.nonce));
    match sent.next {
        None => AttrList::from_places(inner),
        Some(name) => {
            inner.put(identity_attr(name, realm, identity));
            AttrList::from_places(inner)
        }
    }
}

/// The attributes of a Challenge before AT_IV aren't encrypted.
fn none_before(options: &ServerOptions, rand: [u8; 16], autn: [u8; 16], places: &Places<Attr>)
    requires { places.now.written ≡ attr.Rand rand ∷ attr.Autn autn ∷ attrs_by options.now.method options.now.name options.now.bidding }
    ensures { HasNoneEncrypted places.now.written }
{}

/// Who sends a request, and under which Identifier.
#[derive(Drop)]
pub(crate) struct Scene<'a> {
    /// What the server was told of its session.
    pub(crate) options: &'a ServerOptions,
    /// The realm of the home network.
    pub(crate) realm: &'a [u8],
    /// The Identifier.
    pub(crate) id: u8,
}

/// What a Challenge is made of, before its AT_CHECKCODE.
#[derive(Drop)]
pub(crate) struct ChallengeParts {
    /// A copy of the network name.
    pub(crate) name: Octets,
    /// Memory for a pseudonym.
    pub(crate) text: Room,
    pub(crate) rooms: HiddenRooms,
    pub(crate) places: Places<Attr>,
}

/// What a Reauthentication is made of, before its AT_CHECKCODE.
#[derive(Drop)]
pub(crate) struct ReauthParts {
    pub(crate) rooms: HiddenRooms,
    pub(crate) places: Places<Attr>,
}

/// Names that a Challenge gives, and the key under which they are encrypted.
#[derive(Clone, Copy)]
struct Hidden {
    k_encr: [u8; 16],
    given: Option<GivenNames>,
}

/// AT_IV and AT_ENCR_DATA, if names are given (RFC 4187 §10.12).
fn put_attrs_given(
    realm: &[u8],
    hidden: Hidden,
    text: Room,
    rooms: HiddenRooms,
    places: Places<Attr>,
) -> Places<Attr>
    requires realm { length realm.now ≤ 255 }
    requires text { IsFreshName text }
    requires places { 2 ≤ places.left }
    requires none { HasNoneEncrypted places.written }
    ensures written { result.written ≡ places.written ++ attrs_given realm.now hidden.k_encr hidden.given }
    ensures left { places.left ≤ result.left + 2 }
{
    match hidden.given {
        None => places,
        Some(given) => {
            let HiddenRooms {
                identity,
                inner,
                encryption,
            } = rooms;
            let list = names_in(realm, given.names, text, identity, inner);
            names_may_be_encrypted(realm, given.names);
            let mut places = places;
            put_encrypted(hidden.k_encr, given.iv, &list, encryption, &mut places);
            places
        }
    }
}

/// The attributes of a Challenge before AT_CHECKCODE.
fn attrs_before(
    scene: &Scene,
    vector: &Vector,
    hidden: Hidden,
    parts: ChallengeParts,
) -> Places<Attr>
    requires named { parts.name ≡ scene.now.options.now.name }
    requires realm { length scene.now.realm.now ≤ 255 }
    requires text { IsFreshName parts.text }
    requires places { HasPlaces parts.places }
    ensures written { result.written ≡ attrs_before scene.now.options.now scene.now.realm.now vector.now.rand vector.now.autn hidden.k_encr hidden.given }
    ensures left { 1 ≤ result.left }
{
    let ChallengeParts {
        name,
        text,
        rooms,
        mut places,
    } = parts;
    places.put(Attr::Rand(vector.rand));
    places.put(Attr::Autn(vector.autn));
    let places = put_attrs_by(scene.options, name, places);
    none_before(scene.options, vector.rand, vector.autn, &places);
    put_attrs_given(scene.realm, hidden, text, rooms, places)
}

/// A request with some attributes and AT_CHECKCODE, but for its AT_MAC.
fn draft(scene: &Scene, subtype: Subtype, places: Places<Attr>, check: Octets) -> Draft
    requires { 1 ≤ places.left }
    ensures { result ≡ record { method = scene.now.options.now.method; request = true; id = scene.now.id; subtype = subtype; attrs = places.written ++ attr.Checkcode check ∷ [] } }
{
    let mut places = places;
    places.put(Attr::Checkcode(check));
    Draft {
        method: scene.options.method,
        request: true,
        id: scene.id,
        subtype,
        attrs: AttrList::from_places(places),
    }
}

/// A Challenge, but for its AT_MAC.
fn challenge_draft(
    scene: &Scene,
    vector: &Vector,
    hidden: Hidden,
    parts: ChallengeParts,
    check: Octets,
) -> Draft
    requires named { parts.name ≡ scene.now.options.now.name }
    requires realm { length scene.now.realm.now ≤ 255 }
    requires text { IsFreshName parts.text }
    requires places { HasPlaces parts.places }
    ensures { result ≡ challenge_draft scene.now.options.now scene.now.realm.now scene.now.id vector.now.rand vector.now.autn hidden.k_encr hidden.given check }
{
    let places = attrs_before(scene, vector, hidden, parts);
    draft(scene, Subtype::Challenge, places, check)
}

/// A Challenge, with AT_MAC under K_aut (RFC 4187 §9.3, RFC 9048 §3).
pub(crate) fn challenge(
    scene: &Scene,
    sent: &Challenged,
    given: Option<GivenNames>,
    parts: ChallengeParts,
    check: Octets,
    room: Room,
) -> Octets
    requires short { length scene.now.options.now.name ≤ 255 }
    requires named { parts.name ≡ scene.now.options.now.name }
    requires realm { length scene.now.realm.now ≤ 255 }
    requires text { IsFreshName parts.text }
    requires places { HasPlaces parts.places }
    requires check { IsHash check }
    requires fresh { IsFresh room }
    ensures bytes { result ≡ challenge_bytes scene.now.options.now scene.now.realm.now scene.now.id sent.now.vector sent.now.keys given check }
    ensures size { length result ≤ 728 }
{
    let KeySet { k_encr, k_aut, .. } = sent.keys;
    are_blocks(sent.vector.rand, sent.vector.autn);
    given_is_small(scene.realm, k_encr, given);
    let hidden = Hidden { k_encr, given };
    let draft = challenge_draft(scene, &sent.vector, hidden, parts, check);
    let mut room = room;
    put_sealed(&draft, &k_aut, &[], &mut room);
    room.into_octets()
}

/// A Reauthentication request, but for its AT_MAC.
fn reauth_draft(
    scene: &Scene,
    iv: [u8; 16],
    sent: &Resumed,
    parts: ReauthParts,
    check: Octets,
) -> Draft
    requires realm { length scene.now.realm.now ≤ 255 }
    requires places { HasPlaces parts.places }
    ensures { result ≡ reauth_draft scene.now.options.now.method scene.now.realm.now scene.now.id iv sent.now check }
{
    let ReauthParts { rooms, mut places } = parts;
    let HiddenRooms {
        identity,
        inner,
        encryption,
    } = rooms;
    let list = reauth_in(scene.realm, sent, identity, inner);
    reauth_may_be_encrypted(scene.realm, sent);
    put_encrypted(sent.context.k_encr, iv, &list, encryption, &mut places);
    draft(scene, Subtype::Reauthentication, places, check)
}

/// A Reauthentication request, with AT_MAC under K_aut (RFC 4187 §9.7).
pub(crate) fn reauthentication(
    scene: &Scene,
    iv: [u8; 16],
    sent: &Resumed,
    parts: ReauthParts,
    check: Octets,
    room: Room,
) -> Octets
    requires realm { length scene.now.realm.now ≤ 255 }
    requires places { HasPlaces parts.places }
    requires check { IsHash check }
    requires fresh { IsFresh room }
    ensures bytes { result ≡ reauth_bytes scene.now.options.now.method scene.now.realm.now scene.now.id iv sent.now check }
    ensures size { length result ≤ 728 }
{
    reauth_is_small(scene.realm, iv, sent);
    let draft = reauth_draft(scene, iv, sent, parts, check);
    let mut room = room;
    put_sealed(&draft, &sent.context.k_aut, &[], &mut room);
    room.into_octets()
}

/// Notification of a general failure (RFC 4187 §9.10).
pub(crate) fn notification(method: Method, id: u8, places: Places<Attr>, room: Room) -> Octets
    requires places { HasPlaces places }
    requires fresh { IsFresh room }
    ensures bytes { result ≡ packet_text (notification method id) }
    ensures size { length result ≤ 728 }
{
    let packet = Packet::Aka {
        request: true,
        id,
        method,
        subtype: Subtype::Notification,
        attrs: AttrList::one(Attr::Notification(16384), places),
    };
    message(&packet, room)
}

/// The attribute by which an identity is asked for (RFC 4187 §10.2 to §10.4).
fn id_req(kind: IdentityRequest) -> Attr
    ensures { result ≡ id_req kind }
{
    match kind {
        IdentityRequest::Any => Attr::AnyIdReq,
        IdentityRequest::Fullauth => Attr::FullauthIdReq,
        IdentityRequest::Permanent => Attr::PermanentIdReq,
    }
}

/// AKA-Identity (RFC 4187 §9.1).
pub(crate) fn aka_identity(
    method: Method,
    id: u8,
    kind: IdentityRequest,
    places: Places<Attr>,
    room: Room,
) -> Octets
    requires places { HasPlaces places }
    requires fresh { IsFresh room }
    ensures bytes { result ≡ packet_text (aka_identity method id kind) }
    ensures size { length result ≤ 728 }
{
    let packet = Packet::Aka {
        request: true,
        id,
        method,
        subtype: Subtype::Identity,
        attrs: AttrList::one(id_req(kind), places),
    };
    message(&packet, room)
}
