//! The names that a server gives.

ghost use Rattle.std.specs.Prelude.{◌≡◌, ◌≤◌, ◌<◌, length, Some, IfSome};
ghost use Rattle.auc_ident.specs.Ordinals.{last_ordinal};
ghost use Rattle.auc_server.specs.Ordinals.{home_place, homes_given, ordinal_after, ordinal_given, with_next};
ghost use Rattle.auc_server.specs.Table.{both_of, homes_named, identity_among, iv_after, name_of, names_given, next_given, random_at, under};

use crate::server::Server;
use crate::setting::HomeRow;
use auc_ident::NameKind;
use auc_random::index_after;
use auc_subs::Setting;

/// The names that a Challenge gives. None has a realm.
#[derive(Clone, Copy)]
pub enum NewNames {
    /// The next pseudonym (RFC 4187 §4.1.1.7).
    Pseudonym([u8; 33]),
    /// The next re-authentication identity (RFC 4187 §4.1.1.8).
    Identity([u8; 33]),
    /// Both, the pseudonym first.
    Both([u8; 33], [u8; 33]),
}

/// Names, and the initialisation vector under which they are encrypted.
#[derive(Clone, Copy)]
pub struct GivenNames {
    /// The initialisation vector.
    pub iv: [u8; 16],
    /// The names.
    pub names: NewNames,
}

/// The place of a subscriber's home.
pub(crate) fn home_place(homes: &[HomeRow], sub: u32) -> Option<usize>
    ensures place { result ≡ home_place homes.now sub }
    ensures within { IfSome result (λ place. place < length homes.now) }
{
    homes.iter().position(|home| home.sub == sub)
}

/// Uses the ordinal after the last of a home, if there is one.
fn next_of(home: &mut HomeRow) -> Option<u64>
    ensures ordinal { result ≡ ordinal_after home.old }
    ensures home { home.new ≡ with_next home.old (ordinal_after home.old) }
    ensures last { IfSome result (λ ordinal. ordinal ≤ last_ordinal) }
{
    match home.ordinals.next() {
        Ok(ordinal) => Some(ordinal),
        Err(_) => None,
    }
}

/// Uses the ordinal that a subscriber's next name has, if such a name is given and an ordinal is left.
fn use_ordinal(gives: bool, homes: &mut [HomeRow], sub: u32) -> Option<u64>
    ensures ordinal { result ≡ ordinal_given gives homes.old sub }
    ensures homes { homes.new ≡ homes_given gives homes.old sub }
    ensures last { IfSome result (λ ordinal. ordinal ≤ last_ordinal) }
{
    if !gives {
        return None;
    }
    match home_place(homes, sub) {
        None => None,
        Some(place) => next_of(&mut homes[place]),
    }
}

/// The index of the initialisation vector after a challenge.
pub(crate) fn iv_after(k: u32, given: &Option<GivenNames>) -> u32
    ensures { result ≡ iv_after k given.now }
{
    match given {
        None => k,
        Some(_) => index_after(k),
    }
}

/// The names that there are.
fn both_of(pseudonym: Option<[u8; 33]>, identity: Option<[u8; 33]>) -> Option<NewNames>
    ensures { result ≡ both_of pseudonym identity }
{
    match (pseudonym, identity) {
        (None, None) => None,
        (Some(text), None) => Some(NewNames::Pseudonym(text)),
        (None, Some(other)) => Some(NewNames::Identity(other)),
        (Some(text), Some(other)) => Some(NewNames::Both(text, other)),
    }
}

/// Names, if there are any, with an initialisation vector.
fn under(iv: [u8; 16], names: Option<NewNames>) -> Option<GivenNames>
    ensures { result ≡ under iv names }
{
    match names {
        None => None,
        Some(names) => Some(GivenNames { iv, names }),
    }
}

/// The next identity among the names that are given.
pub(crate) fn next_given(given: &Option<GivenNames>) -> Option<[u8; 33]>
    ensures { result ≡ next_given given.now }
{
    match given {
        None => None,
        Some(given) => identity_among(&given.names),
    }
}

fn identity_among(names: &NewNames) -> Option<[u8; 33]>
    ensures { result ≡ identity_among names.now }
{
    match names {
        NewNames::Pseudonym(_) => None,
        NewNames::Identity(text) => Some(*text),
        NewNames::Both(_, other) => Some(*other),
    }
}

impl Server {
    /// The sixteen random bytes of an index of the session.
    pub(crate) fn random_at(&self, set: &Setting, k: u32) -> [u8; 16]
        ensures { result ≡ random_at set.now self.now k }
    {
        set.rands.nonce_of(self.options.session, k)
    }

    /// The next name of a subscriber, if such a name is given and an ordinal is left. The ordinal is used.
    pub(crate) fn name_next(
        &self,
        set: &Setting,
        gives: bool,
        kind: NameKind,
        homes: &mut [HomeRow],
        sub: u32,
    ) -> Option<[u8; 33]>
        ensures name { result ≡ name_of set.now kind self.now sub (ordinal_given gives homes.old sub) }
        ensures homes { homes.new ≡ homes_given gives homes.old sub }
    {
        match use_ordinal(gives, homes, sub) {
            None => None,
            Some(ordinal) => Some(set.names.text(kind, self.options.method, sub, ordinal)),
        }
    }

    /// The names that a challenge of a subscriber gives. Their ordinals are used.
    pub(crate) fn give_names(
        &self,
        set: &Setting,
        homes: &mut [HomeRow],
        sub: u32,
    ) -> Option<GivenNames>
        ensures names { result ≡ names_given set.now homes.old self.now sub }
        ensures homes { homes.new ≡ homes_named self.now.options homes.old sub }
    {
        let pseudonym = self.name_next(
            set,
            self.options.pseudonym,
            NameKind::Pseudonym,
            homes,
            sub,
        );
        let identity = self.name_next(set, self.options.reauth, NameKind::Reauth, homes, sub);
        under(
            self.random_at(set, self.next_iv),
            both_of(pseudonym, identity),
        )
    }
}
