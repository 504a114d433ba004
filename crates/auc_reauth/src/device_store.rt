//! A device's pseudonyms and contexts.

ghost use Rattle.std.specs.Prelude.{◌≡◌};
ghost use Rattle.auc_reauth.specs.Store.{IsOf, entry};
ghost use Rattle.auc_reauth.specs.Device.{accepting, advanced, is_open, nothing_kept, with_accepted, with_context, with_pseudonym};

use crate::context::Context;
use auc_hmac::Method;
use auc_ident::Name;
use std::marker::Model;

/// The names and contexts that a device was given: for each method at most one pseudonym and one context. Contracts
/// see them by method.
#[derive(Clone, Copy)]
pub struct DeviceStore {
    aka_pseudonym: Option<Name>,
    prime_pseudonym: Option<Name>,
    aka_context: Option<Context>,
    prime_context: Option<Context>,
}

impl Model for DeviceStore {
    ghost use Rattle.auc_reauth.specs.Device.{Keeps};
    ghost use Rattle.auc_reauth.specs.Store.{EachIsOf};

    ghost Value = { Keeps };

    ghost view = { λ store. record {
      pseudonyms = record { aka = store.aka_pseudonym; prime = store.prime_pseudonym };
      contexts = record { aka = store.aka_context; prime = store.prime_context };
    } };

    ghost invariant = { λ store. EachIsOf (record { aka = store.aka_context; prime = store.prime_context }) };

    ghost inverse = { λ keeps. record {
      aka_pseudonym = keeps.pseudonyms.aka;
      prime_pseudonym = keeps.pseudonyms.prime;
      aka_context = keeps.contexts.aka;
      prime_context = keeps.contexts.prime;
    } };
}

impl DeviceStore {
    /// A store with neither pseudonym nor context.
    pub fn new() -> DeviceStore
        ensures { result ≡ nothing_kept }
    {
        DeviceStore {
            aka_pseudonym: None,
            prime_pseudonym: None,
            aka_context: None,
            prime_context: None,
        }
    }

    /// The pseudonym of the method, without its realm.
    pub fn pseudonym(&self, method: Method) -> Option<Name>
        ensures { result ≡ entry method self.now.pseudonyms }
    {
        match method {
            Method::Aka => self.aka_pseudonym,
            Method::Prime => self.prime_pseudonym,
        }
    }

    /// Keeps a pseudonym for the method, in the place of the one that was kept. It has no realm.
    pub fn set_pseudonym(&mut self, method: Method, text: Name)
        ensures { self.new ≡ with_pseudonym method text self.old }
    {
        match method {
            Method::Aka => self.aka_pseudonym = Some(text),
            Method::Prime => self.prime_pseudonym = Some(text),
        }
    }

    /// The context of the method.
    pub fn context(&self, method: Method) -> Option<Context>
        ensures context { result ≡ entry method self.now.contexts }

        // Its master key is of the method.
        ensures method { IsOf method result }
    {
        match method {
            Method::Aka => self.aka_context,
            Method::Prime => self.prime_context,
        }
    }

    /// Keeps a context for the method, or none, in the place of the one that was kept.
    pub fn set_context(&mut self, method: Method, c: Option<Context>)
        requires { IsOf method c }
        ensures { self.new ≡ with_context method c self.old }
    {
        match method {
            Method::Aka => self.aka_context = c,
            Method::Prime => self.prime_context = c,
        }
    }

    /// Accepts a counter if it is open: if there is a context of the method whose counter is at most this one. Then
    /// the next counter is the least open one; 65535 has no next one, and the context is removed. A counter that
    /// isn't accepted changes nothing.
    pub fn accept_counter(&mut self, method: Method, counter: u16) -> bool
        ensures answer { result ≡ is_open counter (entry method self.old.contexts) }
        ensures kept { self.new ≡ with_accepted method counter self.old }
    {
        match method {
            Method::Aka => accept(&mut self.aka_context, counter),
            Method::Prime => accept(&mut self.prime_context, counter),
        }
    }
}

/// Accepts a counter of a context, if it is open.
fn accept(kept: &mut Option<Context>, counter: u16) -> bool
    ensures answer { result ≡ is_open counter kept.old }
    ensures kept { kept.new ≡ accepting counter kept.old }
{
    let Some(context) = *kept else {
        return false;
    };
    if counter < context.counter {
        return false;
    }
    *kept = advanced(context, counter);
    true
}

/// The context after a counter was accepted, or `None` after the last one.
fn advanced(context: Context, counter: u16) -> Option<Context>
    ensures { result ≡ advanced counter context }
{
    if counter == u16::MAX {
        return None;
    }
    Some(Context {
        counter: counter + 1,
        ..context
    })
}
