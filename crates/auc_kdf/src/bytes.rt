//! Strings of bytes that are joined.

ghost use Rattle.std.specs.Prelude.{◌≡◌, ◌++◌};

// Two keys, one after the other.
pub(crate) fn joined(front: [u8; 16], back: [u8; 16]) -> [u8; 32]
    ensures { result ≡ front ++ back }
{
    let mut both = [0; 32];
    both[..16].copy_from_slice(&front);
    both[16..].copy_from_slice(&back);
    both
}
