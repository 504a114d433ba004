//! The contexts of fast re-authentication in the homes.

ghost use Rattle.std.specs.Prelude.{◌≡◌};
ghost use Rattle.std.specs.Option.{is_some};
ghost use Rattle.auc_reauth.specs.Server.{entry_named};
ghost use Rattle.auc_reauth.specs.Store.{IsOf, method_of};
ghost use Rattle.auc_server.specs.Contexts.{context_after, context_in, won_context, gives_next, homes_kept, homes_taken, with_context, without};
ghost use Rattle.auc_server.specs.InnerServer.{HasNext};

use crate::naming::home_place;
use crate::options::ServerOptions;
use crate::server::{Challenged, Resumed};
use crate::setting::HomeRow;
use auc_hmac::Method;
use auc_ident::Name;
use auc_reauth::Context;

/// Whether a subscriber has a context of a method whose identity a text is.
pub(crate) fn has_context(method: Method, text: &[u8], homes: &[HomeRow], sub: u32) -> bool
    ensures { result ≡ is_some (context_in method text.now homes.now sub) }
{
    match home_place(homes, sub) {
        None => false,
        Some(place) => is_in(method, text, &homes[place]),
    }
}

/// Whether a home has a context of a method whose identity a text is.
fn is_in(method: Method, text: &[u8], home: &HomeRow) -> bool
    ensures { result ≡ is_some (entry_named method text.now home.now.store) }
{
    let mut store = home.store;
    store.take(method, text).is_some()
}

/// Takes the context of a home whose identity a text is out of it.
fn take_from(method: Method, text: &[u8], home: &mut HomeRow) -> Option<Context>
    ensures found { result ≡ entry_named method text.now home.old.store }
    ensures left { home.new ≡ without method text.now home.old }
    ensures method { IsOf method result }
{
    home.store.take(method, text)
}

/// Takes a subscriber's context whose identity a text is out of its home (RFC 4187 §5.3).
pub(crate) fn take_context(
    method: Method,
    text: &[u8],
    homes: &mut [HomeRow],
    sub: u32,
) -> Option<Context>
    ensures found { result ≡ context_in method text.now homes.old sub }
    ensures left { homes.new ≡ homes_taken method text.now homes.old sub (context_in method text.now homes.old sub) }
    ensures method { IsOf method result }
{
    match home_place(homes, sub) {
        None => None,
        Some(place) => {
            if !is_in(method, text, &homes[place]) {
                return None;
            }
            take_from(method, text, &mut homes[place])
        }
    }
}

/// Keeps a context in a home.
fn put_in(method: Method, c: Context, home: &mut HomeRow)
    requires { method_of c.master ≡ method }
    ensures { home.new ≡ with_context method c home.old }
{
    home.store.put(method, c);
}

/// Keeps a subscriber's new context, if there is one.
pub(crate) fn keep_context(method: Method, homes: &mut [HomeRow], sub: u32, c: Option<Context>)
    requires { IsOf method c }
    ensures { homes.new ≡ homes_kept method homes.old sub c }
{
    let Some(c) = c else {
        return;
    };
    match home_place(homes, sub) {
        None => {}
        Some(place) => put_in(method, c, &mut homes[place]),
    }
}

/// A name that the server gave, as a context has it.
fn kept(name: [u8; 33]) -> Name
    ensures { result ≡ name }
{
    Name::new(&name)
}

/// The context of a full authentication, if its Challenge gave an identity.
pub(crate) fn won_context(sent: &Challenged) -> Option<Context>
    ensures context { result ≡ won_context sent.now }
    ensures own { IsOf (method_of sent.now.master) result }
{
    match sent.next {
        None => None,
        Some(identity) => Some(Context {
            origin: sent.number,
            identity: kept(identity),
            k_encr: sent.keys.k_encr,
            k_aut: sent.keys.k_aut,
            master: sent.master,
            counter: 1,
        }),
    }
}

/// The context after a re-authentication, if it gave another identity.
pub(crate) fn context_after(sent: &Resumed) -> Option<Context>
    requires { HasNext sent.now }
    ensures context { result ≡ context_after sent.now }
    ensures own { IsOf (method_of sent.now.context.master) result }
{
    match sent.next {
        None => None,
        Some(identity) => Some(Context {
            identity: kept(identity),
            counter: sent.context.counter + 1,
            ..sent.context
        }),
    }
}

/// Whether a re-authentication with a context gives another identity.
pub(crate) fn gives_next(options: &ServerOptions, c: &Context) -> bool
    ensures { result ≡ gives_next options.now c.now }
{
    options.reauth && c.counter != u16::MAX
}
