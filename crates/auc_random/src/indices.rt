//! Indices of the random bytes of a session.

ghost use Rattle.std.specs.Prelude.{◌≡◌};
ghost use Rattle.auc_random.specs.Random.{index_after};

/// The index after next. One end of a session uses the even indices, and the other end the odd ones.
pub fn index_after(k: u32) -> u32
    ensures { result ≡ index_after k }
{
    k.wrapping_add(2)
}
