//! HMAC-SHA-1.

ghost use Rattle.std.specs.Prelude.{◌≡◌, ℕ, List, [], ◌++◌};
ghost use Rattle.sha1.specs.Sha1.{sha1, Holds};
ghost use Rattle.auc_hmac.specs.Hmac.{key_block, hmac_sha1};
ghost use Rattle.auc_hmac.specs.States.{HoldsSha1};

use crate::block::{BLOCK, INNER_PAD, OUTER_PAD, filled, masked};
use sha1::Sha1;

/// An unfinished HMAC-SHA-1 (RFC 2104 §2, with the SHA-1 of FIPS 180-4). Contracts see its key and the
/// bytes fed so far.
#[derive(Drop)]
pub struct HmacSha1 {
    inner: Sha1,
    outer: Sha1,
}

impl HmacSha1 {
    /// An HMAC under a key of any length, fed nothing yet. A key of more than 64 bytes is hashed first.
    pub fn new(key: &[u8]) -> HmacSha1
        ensures { HoldsSha1 result key.now [] }
    {
        let block = block_of(key);
        HmacSha1 {
            inner: hasher_of(&masked(block, INNER_PAD)),
            outer: hasher_of(&masked(block, OUTER_PAD)),
        }
    }

    /// Feeds the next bytes of the message.
    pub fn update(&mut self, bytes: &[u8])
        ensures { (key fed : List ℕ) → HoldsSha1 self.old key fed
            → HoldsSha1 self.new key (fed ++ bytes.now) }
    {
        self.inner.update(bytes);
    }

    /// The HMAC of all bytes fed, 20 bytes.
    #[tactic(auto, unfolding(crate::specs::Hmac::hmac))]
    pub fn finish(mut self) -> [u8; 20]
        ensures { (key fed : List ℕ) → HoldsSha1 self key fed → result ≡ hmac_sha1 key fed }
    {
        let digest = self.inner.finalize();
        self.outer.update(&digest);
        self.outer.finalize()
    }
}

// The key as a block.
fn block_of(key: &[u8]) -> [u8; 64]
    ensures { result ≡ key_block sha1 64 key.now }
{
    if key.len() > BLOCK {
        filled(&Sha1::digest(key))
    } else {
        filled(key)
    }
}

// A hasher that was fed a block.
fn hasher_of(block: &[u8; 64]) -> Sha1
    ensures { Holds result block.now }
{
    let mut hasher = Sha1::new();
    hasher.update(block);
    hasher
}
