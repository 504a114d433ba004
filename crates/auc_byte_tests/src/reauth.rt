//! The two stores, call by call.

ghost use Rattle.std.specs.Prelude.{◌≡◌};
ghost use Rattle.auc_reauth.specs.Store.{method_of};
ghost use Rattle.auc_hmac.specs.declared.method.Method.TheVariants as methods;

use auc_hmac::{Master, Method};
use auc_ident::Name;
use auc_reauth::{Context, DeviceStore, ServerStore};

// A re-authentication identity of EAP-AKA.
const NAME: [u8; 33] = *b"40123456789abcdef0123456789abcdef";

/// A context of EAP-AKA.
fn context(identity: [u8; 33], counter: u16) -> Context
    ensures { method_of result.master ≡ methods.Aka }
{
    Context {
        origin: 1,
        identity: Name::new(&identity),
        k_encr: [1; 16],
        k_aut: [2; 32],
        master: Master::Aka([3; 20]),
        counter,
    }
}

// By hand: RFC 4187 §5.3, an identity is used once, and RFC 4282 §2.1, the realm begins at the first `@`.
#[test]
fn contexts_are_found_once_by_method_and_identity(rt: HostRuntime) {
    let cases: [(Method, &[u8], bool); 5] = [
        (Method::Aka, &NAME, true),
        (
            Method::Aka,
            b"40123456789abcdef0123456789abcdef@wlan@x",
            true,
        ),
        (Method::Aka, b"40123456789abcdef0123456789abcde", false),
        (Method::Aka, b"@40123456789abcdef0123456789abcdef", false),
        (Method::Prime, &NAME, false),
    ];
    for (method, identity, is_found) in cases {
        let mut store = ServerStore::new();
        store.put(Method::Aka, context([b'4'; 33], 7));
        store.put(Method::Aka, context(NAME, 1));
        let found = is_found.then_some(context(NAME, 1));
        assert!(rt; store.take(method, identity) == found);
        let again = store.take(Method::Aka, &NAME);
        assert!(rt; again.is_some() == !is_found);
        assert!(rt; store.take(Method::Aka, &NAME).is_none());
    }
}

// By hand, RFC 4187 §5.1: a counter is at least the least open one, and the next one is open afterwards; the last one of
// 16 bits has no next one.
#[test]
fn counters_are_accepted_once_and_rise(rt: HostRuntime) {
    let mut store = DeviceStore::new();
    assert!(rt; !store.accept_counter(Method::Aka, 1));
    store.set_context(Method::Aka, Some(context(NAME, 1)));
    let cases = [
        (0, false, Some(1)),
        (1, true, Some(2)),
        (1, false, Some(2)),
        (5, true, Some(6)),
        (3, false, Some(6)),
        (65534, true, Some(65535)),
        (65535, true, None),
        (65535, false, None),
    ];
    for (counter, is_accepted, next) in cases {
        assert!(rt; !store.accept_counter(Method::Prime, counter));
        let accepted = store.accept_counter(Method::Aka, counter);
        assert!(rt; accepted == is_accepted, "at {counter}");
        let kept = store.context(Method::Aka);
        assert!(rt; kept.map(|c| c.counter) == next, "at {counter}");
    }
}

// By hand.
#[test]
fn each_method_has_its_own_pseudonym_and_context(rt: HostRuntime) {
    let mut store = DeviceStore::new();
    store.set_pseudonym(Method::Aka, Name::new(&[b'2'; 33]));
    store.set_pseudonym(Method::Prime, Name::new(b"7"));
    store.set_pseudonym(Method::Aka, Name::new(&NAME));
    assert!(rt;
        (store.pseudonym(Method::Aka), store.pseudonym(Method::Prime))
            == (Some(Name::new(&NAME)), Some(Name::new(b"7")))
    );
    store.set_context(Method::Aka, Some(context(NAME, 1)));
    assert!(rt;
        (store.context(Method::Aka), store.context(Method::Prime)) == (Some(context(NAME, 1)), None)
    );
    store.set_context(Method::Aka, None);
    assert!(rt; store.context(Method::Aka) == None);
}
