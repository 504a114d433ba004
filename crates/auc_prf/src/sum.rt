//! The sum that gives the next XKEY.

ghost use Rattle.std.specs.Prelude.{◌≡◌, ◌+◌, ◌%◌, ◌^◌};
ghost use Rattle.auc_prf.specs.Generator.{bytes_of, number_of};

// (1 + XKEY + w) mod 2^160 on strings of 20 bytes: the carry starts as the 1, and goes from the last byte
// to the first; the carry out of the first is dropped.
pub(crate) fn next_xkey(xkey: [u8; 20], word: [u8; 20]) -> [u8; 20]
    ensures { result ≡ bytes_of ((1 + number_of xkey + number_of word) % 2 ^ 160) }
{
    let mut sum = [0; 20];
    let mut carry = 1u16;
    for i in (0..20).rev() {
        let total = u16::from(xkey[i]) + u16::from(word[i]) + carry;
        sum[i] = (total % 256) as u8;
        carry = total / 256;
    }
    sum
}
