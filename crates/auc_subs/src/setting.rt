//! What all sessions of a home network share.

use crate::subscribers::Subscribers;
use auc_ident::Names;
use auc_random::Rands;
use std::marker::Model;

/// What all sessions of a home network share. Contracts see the keys of the random bytes and of the names, the
/// subscribers' rows and the realm.
#[derive(Drop)]
pub struct Setting<'a> {
    /// The subscribers.
    pub subs: &'a Subscribers,
    /// The random bytes of their vectors, and of the sessions' initialisation vectors.
    pub rands: &'a Rands,
    /// The names that are made for them.
    pub names: &'a Names,
    /// The realm of the home network, at most 255 bytes; empty if there is none.
    pub realm: &'a [u8],
}

impl<'a> Model for Setting<'a> {
    ghost use Rattle.std.specs.Prelude.{◌≤◌, length};
    ghost use Rattle.auc_subs.specs.Setting as specs;

    ghost Value = { specs.Setting };

    ghost view = { λ set. record { key = set.rands.now; names = set.names.now; rows = set.subs.now; realm = set.realm.now } };

    ghost invariant = { λ set. length set.realm.now ≤ 255 };
}
