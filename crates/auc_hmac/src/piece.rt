//! Strings of bytes that are cut.

ghost use Rattle.std.specs.Prelude.{◌≡◌, ◌≤◌, ◌+◌, length};
ghost use Rattle.auc_hmac.specs.Piece.{piece};

/// `N` bytes of a string, from byte `from` on.
pub fn piece_of<const N: usize>(bytes: &[u8], from: usize) -> [u8; N]
    requires { from + N ≤ length bytes.now }
    ensures { result ≡ piece from N bytes.now }
{
    let mut out = [0; N];
    out.copy_from_slice(&bytes[from..from + N]);
    out
}
