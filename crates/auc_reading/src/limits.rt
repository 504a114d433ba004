//! The limits of one line.

/// How many vectors one line may ask for.
pub const MAX_COUNT: u64 = 1000;
/// The greatest number of a session.
pub const LAST_SESSION: u64 = 999999;
/// The greatest number of a packet that a line may name.
pub const LAST_PACKET: u64 = 4294967295;
/// The greatest place in a packet that a line may name, and the greatest length of its front.
pub const LAST_PLACE: u64 = 4294967295;
/// How many bytes a name of a network may have.
pub const MAX_NAME: usize = 255;
/// How many bytes the text of an identity may have.
pub const MAX_TEXT: usize = 255;
/// How many sites a line for sites may have.
pub const MAX_SITES: u64 = 64;
/// How many numbers a lease may have.
pub const MAX_LEASED: u64 = 32;
/// How few triplets the server of a session of EAP-SIM may challenge with (RFC 4186 §10.9).
pub const MIN_TRIPLETS: u64 = 2;
/// How many triplets it may challenge with.
pub const MAX_TRIPLETS: u64 = 3;
/// How many events the schedule of a line for sites may have, and how many deliveries that of a session of EAP-SIM.
pub const MAX_EVENTS: usize = 200;
