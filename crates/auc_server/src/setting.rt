//! A subscriber that sessions may be held with.

ghost use Rattle.std.specs.Prelude.{◌≡◌};

use auc_ident::Ordinals;
use auc_reauth::ServerStore;

/// A subscriber that sessions may be held with.
#[derive(Drop)]
pub struct HomeRow {
    /// The subscriber's place among the rows, from 0.
    pub sub: u32,
    /// The ordinals of the subscriber's names.
    pub ordinals: Ordinals,
    /// The contexts that fast re-authentications start from.
    pub store: ServerStore,
}

impl HomeRow {
    /// An equal row. It takes no memory.
    pub fn copy(&self) -> HomeRow
        ensures { result ≡ self.now }
    {
        HomeRow {
            sub: self.sub,
            ordinals: self.ordinals,
            store: self.store,
        }
    }
}
