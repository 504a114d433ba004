//! The derivations of keys. The key of each is CK | IK or a derived key, and its input begins with a number, the FC.

ghost use Rattle.std.specs.Prelude.{◌≡◌, ◌≤◌, ◌++◌, ℕ, List, length};
ghost use Rattle.auc_hmac.specs.Hmac.{hmac_sha256};
ghost use Rattle.auc_hmac.specs.Piece.{piece};
ghost use Rattle.auc_hmac.specs.States.{HoldsSha256};
ghost use Rattle.auc_5g.specs.Keys.{asme_input, ausf_input, seaf_input, star_input, with_length};

use auc_hmac::{HmacSha256, piece_of};

// The FC of K_ASME (TS 33.401 Annex A.2).
const ASME: u8 = 0x10;

// The FC of K_AUSF (TS 33.501 Annex A.2).
const AUSF: u8 = 0x6A;

// The FC of RES* and XRES* (TS 33.501 Annex A.4).
const STAR: u8 = 0x6B;

// The FC of K_SEAF (TS 33.501 Annex A.6).
const SEAF: u8 = 0x6C;

// CK | IK.
pub(crate) fn joined(ck: [u8; 16], ik: [u8; 16]) -> [u8; 32]
    ensures { result ≡ ck ++ ik }
{
    let mut both = [0; 32];
    both[..16].copy_from_slice(&ck);
    both[16..].copy_from_slice(&ik);
    both
}

// K_ASME, from CK | IK.
pub(crate) fn asme_key(key: &[u8; 32], snid: [u8; 3], sqn_xor_ak: [u8; 6]) -> [u8; 32]
    ensures { result ≡ hmac_sha256 key.now (asme_input snid sqn_xor_ak) }
{
    let mut mac = HmacSha256::new(key);
    mac.update(&[ASME]);
    feed(&mut mac, &snid);
    feed(&mut mac, &sqn_xor_ak);
    mac.finish()
}

// K_AUSF, from CK | IK.
pub(crate) fn ausf_key(key: &[u8; 32], name: &[u8], sqn_xor_ak: [u8; 6]) -> [u8; 32]
    requires { length name.now ≤ 255 }
    ensures { result ≡ hmac_sha256 key.now (ausf_input name.now sqn_xor_ak) }
{
    let mut mac = HmacSha256::new(key);
    mac.update(&[AUSF]);
    feed(&mut mac, name);
    feed(&mut mac, &sqn_xor_ak);
    mac.finish()
}

// RES* from CK | IK and RES, or XRES* from CK | IK and XRES.
pub(crate) fn star(key: &[u8; 32], name: &[u8], rand: [u8; 16], res: [u8; 8]) -> [u8; 16]
    requires { length name.now ≤ 255 }
    ensures { result ≡ piece 16 16 (hmac_sha256 key.now (star_input name.now rand res)) }
{
    let mut mac = HmacSha256::new(key);
    mac.update(&[STAR]);
    feed(&mut mac, name);
    feed(&mut mac, &rand);
    feed(&mut mac, &res);
    piece_of(&mac.finish(), 16)
}

// K_SEAF, from K_AUSF.
pub(crate) fn seaf_key(k_ausf: &[u8; 32], name: &[u8]) -> [u8; 32]
    requires { length name.now ≤ 255 }
    ensures { result ≡ hmac_sha256 k_ausf.now (seaf_input name.now) }
{
    let mut mac = HmacSha256::new(k_ausf);
    mac.update(&[SEAF]);
    feed(&mut mac, name);
    mac.finish()
}

// Feeds a parameter, and then its length in 2 bytes.
fn feed(mac: &mut HmacSha256, parameter: &[u8])
    requires { length parameter.now ≤ 65535 }
    ensures { (key fed : List ℕ) → HoldsSha256 mac.old key fed
        → HoldsSha256 mac.new key (fed ++ with_length parameter.now) }
{
    mac.update(parameter);
    mac.update(&(parameter.len() as u16).to_be_bytes());
}
