//! The authentication vector of a number.

ghost use Rattle.std.specs.Prelude.{◌≡◌, ◌≤◌, ◌++◌, [], length};
ghost use Rattle.auc_hmac.specs.declared.method.Method.TheVariants.{Aka};
ghost use Rattle.auc_vector.specs.Many.{keyed_by};
ghost use Rattle.auc_vector.specs.Vector.{vector_of};
ghost use Rattle.auc_sqn.specs.Number.{top_of, most_bits};

use crate::keys::keys_by;
use crate::parts::Vector;
use auc_aes::xor;
use auc_hmac::Method;
use auc_milenage::{Four, Milenage, Secret};
use auc_sqn::sqn_of;

/// The vector of number `n` with a RAND, under a subscriber's secret and AMF, for a method and the name of the network,
/// of which EAP-AKA makes no use. The subscriber's index has `bits` bits.
pub fn vector(
    s: &Secret,
    method: Method,
    amf: [u8; 2],
    name: &[u8],
    bits: u8,
    n: u64,
    rand: [u8; 16],
) -> Vector
    requires short { length name.now ≤ 255 }
    requires bits { bits ≤ most_bits }
    requires first { 1 ≤ n }
    requires last { n ≤ top_of bits }
    ensures { result ≡ vector_of s.now method amf name.now bits n rand }
{
    keyed(
        method,
        name,
        vector_under(&Milenage::new(s), amf, bits, n, rand),
    )
}

/// A vector of EAP-AKA with CK and IK by the method.
pub(crate) fn keyed(method: Method, name: &[u8], made: Vector) -> Vector
    requires { length name.now ≤ 255 }
    ensures { result ≡ keyed_by method name.now made }
{
    let (ck, ik) = keys_by(method, name, made.autn, made.ck, made.ik);
    Vector { ck, ik, ..made }
}

/// The vector of number `n` with a RAND for EAP-AKA, under a secret whose key schedule is there.
#[tactic(auto, unfolding(crate::specs::Vector::autn_of))]
pub(crate) fn vector_under(m: &Milenage, amf: [u8; 2], bits: u8, n: u64, rand: [u8; 16]) -> Vector
    requires bits { bits ≤ most_bits }
    requires first { 1 ≤ n }
    requires last { n ≤ top_of bits }
    ensures { result ≡ vector_of m.now Aka amf [] bits n rand }
{
    let sqn = sqn_of(n, bits);
    let (mac, four) = m.f12345(rand, sqn, amf);
    let Four { res, ck, ik, ak } = four;
    let autn = join(xor(sqn, ak), amf, mac);
    Vector {
        n,
        rand,
        autn,
        xres: res,
        ck,
        ik,
    }
}

/// The three parts of AUTN, one after the other.
fn join(masked: [u8; 6], amf: [u8; 2], mac: [u8; 8]) -> [u8; 16]
    ensures { result ≡ masked ++ amf ++ mac }
{
    [
        masked[0], masked[1], masked[2], masked[3], masked[4], masked[5], amf[0], amf[1], mac[0],
        mac[1], mac[2], mac[3], mac[4], mac[5], mac[6], mac[7],
    ]
}
