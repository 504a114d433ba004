//! PRF' (RFC 9048 §3.4.1).

ghost use Rattle.std.specs.Prelude.{◌≡◌, ◌≤◌, ◌+◌, ◌/◌, ◌%◌, ◌++◌, ◌∷◌, [], length};
ghost use Rattle.auc_hmac.specs.Hmac.{hmac_sha256};
ghost use Rattle.auc_kdf.specs.Prime.{prf_blocks};
ghost use Rattle.auc_kdf.specs.Inner.{seed_bytes};

use auc_hmac::HmacSha256;

// The size of a block of PRF', which is a digest of SHA-256.
const BLOCK: usize = 32;

// The string S of PRF', in three consecutive pieces.
#[derive(Clone, Copy)]
pub(crate) struct Seed<'a> {
    pub(crate) label: &'a [u8],
    pub(crate) identity: &'a [u8],
    pub(crate) freshness: &'a [u8],
}

// T1 | T2 | .., as many blocks as `out` holds.
pub(crate) fn write_blocks(key: &[u8], seed: &Seed, out: &mut [u8])
    requires whole { length out.old % 32 ≡ 0 }
    requires few { length out.old ≤ 8160 }
    ensures { out.new ≡ prf_blocks key.now (seed_bytes seed.now) (length out.old / 32) }
{
    for i in 0..out.len() / BLOCK {
        let before = &out[BLOCK * i.saturating_sub(1)..BLOCK * i];
        let block = block_after(key, before, seed, (i + 1) as u8);
        out[BLOCK * i..BLOCK * i + BLOCK].copy_from_slice(&block);
    }
}

// T(n) for n = `number`, from T(n-1).
fn block_after(key: &[u8], before: &[u8], seed: &Seed, number: u8) -> [u8; 32]
    ensures { result ≡ hmac_sha256 key.now (before.now ++ seed_bytes seed.now ++ number ∷ []) }
{
    let mut mac = HmacSha256::new(key);
    mac.update(before);
    mac.update(seed.label);
    mac.update(seed.identity);
    mac.update(seed.freshness);
    mac.update(&[number]);
    mac.finish()
}
