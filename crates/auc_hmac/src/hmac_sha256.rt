//! HMAC-SHA-256.

ghost use Rattle.std.specs.Prelude.{◌≡◌, ℕ, List, [], ◌++◌};
ghost use Rattle.sha2.specs.Sha256.{sha256};
ghost use Rattle.sha2.specs.Hashers.{Holds256};
ghost use Rattle.auc_hmac.specs.Hmac.{key_block, hmac_sha256};
ghost use Rattle.auc_hmac.specs.States.{HoldsSha256};

use crate::block::{BLOCK, INNER_PAD, OUTER_PAD, filled, masked};
use sha2::{Digest, Sha256};

/// An unfinished HMAC-SHA-256 (RFC 2104 §2, with the SHA-256 of FIPS 180-4). Contracts see its key and the
/// bytes fed so far.
#[derive(Drop)]
pub struct HmacSha256 {
    inner: Sha256,
    outer: Sha256,
}

impl HmacSha256 {
    /// An HMAC under a key of any length, fed nothing yet. A key of more than 64 bytes is hashed first.
    pub fn new(key: &[u8]) -> HmacSha256
        ensures { HoldsSha256 result key.now [] }
    {
        let block = block_of(key);
        HmacSha256 {
            inner: hasher_of(&masked(block, INNER_PAD)),
            outer: hasher_of(&masked(block, OUTER_PAD)),
        }
    }

    /// Feeds the next bytes of the message.
    pub fn update(&mut self, bytes: &[u8])
        ensures { (key fed : List ℕ) → HoldsSha256 self.old key fed
            → HoldsSha256 self.new key (fed ++ bytes.now) }
    {
        self.inner.update(bytes);
    }

    /// The HMAC of all bytes fed, 32 bytes.
    #[tactic(auto, unfolding(crate::specs::Hmac::hmac))]
    pub fn finish(mut self) -> [u8; 32]
        ensures { (key fed : List ℕ) → HoldsSha256 self key fed → result ≡ hmac_sha256 key fed }
    {
        let digest = self.inner.finalize();
        self.outer.update(&digest);
        self.outer.finalize()
    }
}

// The key as a block.
fn block_of(key: &[u8]) -> [u8; 64]
    ensures { result ≡ key_block sha256 64 key.now }
{
    if key.len() > BLOCK {
        filled(&Sha256::digest(key))
    } else {
        filled(key)
    }
}

// A hasher that was fed a block.
fn hasher_of(block: &[u8; 64]) -> Sha256
    ensures { Holds256 result block.now }
{
    let mut hasher = Sha256::new();
    hasher.update(block);
    hasher
}
