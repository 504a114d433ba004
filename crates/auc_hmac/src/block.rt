//! The key as a block of the hash function.

ghost use Rattle.std.specs.Prelude.{◌≡◌, ◌≤◌, length};
ghost use Rattle.auc_hmac.specs.Hmac.{filled, masked};

// SHA-1 and SHA-256 both have blocks of 64 bytes (FIPS 180-4).
pub(crate) const BLOCK: usize = 64;

// The byte that each pad repeats (RFC 2104 §2).
pub(crate) const INNER_PAD: u8 = 0x36;

pub(crate) const OUTER_PAD: u8 = 0x5C;

// A key of at most a block, followed by zero bytes up to a block.
pub(crate) fn filled(key: &[u8]) -> [u8; 64]
    requires { length key.now ≤ 64 }
    ensures { result ≡ filled 64 key.now }
{
    let mut block = [0; BLOCK];
    block[..key.len()].copy_from_slice(key);
    block
}

// A block, each byte XORed with `pad`.
pub(crate) fn masked(mut block: [u8; 64], pad: u8) -> [u8; 64]
    ensures { result ≡ masked pad block }
{
    for byte in block.iter_mut() {
        *byte ^= pad;
    }
    block
}
