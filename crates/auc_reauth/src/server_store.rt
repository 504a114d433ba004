//! A subscriber's contexts in the home network.

ghost use Rattle.std.specs.Prelude.{◌≡◌};
ghost use Rattle.auc_reauth.specs.Store.{IsOf, method_of, with_entry};
ghost use Rattle.auc_reauth.specs.Server.{entry_named, if_named, left, no_contexts, unless_named};

use crate::context::Context;
use auc_hmac::Method;
use auc_ident::username;
use std::marker::Model;

/// The contexts of one subscriber, at most one for each method. Contracts see them by method.
#[derive(Clone, Copy)]
pub struct ServerStore {
    aka: Option<Context>,
    prime: Option<Context>,
}

impl Model for ServerStore {
    ghost use Rattle.auc_reauth.specs.Server.{Contexts};
    ghost use Rattle.auc_reauth.specs.Store.{EachIsOf};

    ghost Value = { Contexts };

    ghost view = { λ store. record { aka = store.aka; prime = store.prime } };

    ghost invariant = { λ store. EachIsOf (record { aka = store.aka; prime = store.prime }) };

    ghost inverse = { λ contexts. record { aka = contexts.aka; prime = contexts.prime } };
}

impl ServerStore {
    /// A store with no context.
    pub fn new() -> ServerStore
        ensures { result ≡ no_contexts }
    {
        ServerStore {
            aka: None,
            prime: None,
        }
    }

    /// Takes the context of the method out, if it has this identity; else nothing changes. An identity is compared
    /// without its realm, up to the first `@`.
    pub fn take(&mut self, method: Method, identity: &[u8]) -> Option<Context>
        ensures found { result ≡ entry_named method identity.now self.old }
        ensures left { self.new ≡ left method identity.now self.old }

        // Its master key is of the method.
        ensures method { IsOf method result }
    {
        match method {
            Method::Aka => take_named(&mut self.aka, username(identity)),
            Method::Prime => take_named(&mut self.prime, username(identity)),
        }
    }

    /// Keeps a context for the method, in the place of the one that was kept.
    pub fn put(&mut self, method: Method, c: Context)
        requires { method_of c.master ≡ method }
        ensures { self.new ≡ with_entry method (Some c) self.old }
    {
        match method {
            Method::Aka => self.aka = Some(c),
            Method::Prime => self.prime = Some(c),
        }
    }
}

/// Takes the context out, if this is its identity.
fn take_named(kept: &mut Option<Context>, name: &[u8]) -> Option<Context>
    ensures found { result ≡ if_named name.now kept.old }
    ensures left { kept.new ≡ unless_named name.now kept.old }
{
    let context = (*kept)?;
    if context.identity.as_slice() != name {
        return None;
    }
    *kept = None;
    Some(context)
}
