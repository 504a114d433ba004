//! CK' and IK'.

ghost use Rattle.std.specs.Prelude.{◌≡◌, ◌≤◌, length};
ghost use Rattle.auc_hmac.specs.Hmac.{hmac_sha256};
ghost use Rattle.auc_hmac.specs.Piece.{piece};
ghost use Rattle.auc_kdf.specs.Prime.{primed_ck_ik, primed_input};

use crate::bytes::joined;
use auc_hmac::{HmacSha256, piece_of};

// The FC of this key derivation among those of TS 33.220 Annex B.2 (TS 33.402 Annex A.2).
const FC: u8 = 0x20;

/// CK' and IK', 16 bytes each, bound to the name of the access network (TS 33.402 Annex A.2, RFC 9048
/// §3.3). `sqn_xor_ak` is the first 6 bytes of AUTN.
pub fn prime_ck_ik(
    ck: [u8; 16],
    ik: [u8; 16],
    name: &[u8],
    sqn_xor_ak: [u8; 6],
) -> ([u8; 16], [u8; 16])
    requires { length name.now ≤ 65535 }
    ensures ck { result.0 ≡ piece 0 16 (primed_ck_ik ck ik name.now sqn_xor_ak) }
    ensures ik { result.1 ≡ piece 16 16 (primed_ck_ik ck ik name.now sqn_xor_ak) }
{
    let both = primed(&joined(ck, ik), name, sqn_xor_ak);
    (piece_of(&both, 0), piece_of(&both, 16))
}

// CK' | IK' from CK | IK.
fn primed(key: &[u8; 32], name: &[u8], sqn_xor_ak: [u8; 6]) -> [u8; 32]
    requires { length name.now ≤ 65535 }
    ensures { result ≡ hmac_sha256 key.now (primed_input name.now sqn_xor_ak) }
{
    let mut mac = HmacSha256::new(key);
    mac.update(&[FC]);
    mac.update(name);
    mac.update(&(name.len() as u16).to_be_bytes());
    mac.update(&sqn_xor_ak);
    mac.update(&6u16.to_be_bytes());
    mac.finish()
}
