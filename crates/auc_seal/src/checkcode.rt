//! The checkcode of the AKA-Identity packets.

ghost use Rattle.std.specs.Prelude.{◌≡◌, ℕ, List, [], ◌∷◌, ◌++◌, IsOk};
ghost use Rattle.std.specs.Option.{option_copied};
ghost use Rattle.auc_hmac.specs.declared.method.Method.{Method};
ghost use Rattle.sha1.specs.Sha1.{sha1};
ghost use Rattle.sha1.specs.Sha1 as One;
ghost use Rattle.sha2.specs.Sha256.{sha256};
ghost use Rattle.sha2.specs.Hashers.{Holds256};
ghost use Rattle.auc_seal.specs.Checkcode.{HoldsBytes, HoldsPackets, IsHash, checkcode_of, differs, value_bytes};

use auc_hmac::Method;
use auc_memory::{NoMemory, Octets};
use sha1::Sha1;
use sha2::{Digest, Sha256};

/// The checkcode of the AKA-Identity packets that were sent and received, in order (RFC 4187 §10.13,
/// RFC 9048 §3.4.3). Contracts see its method and the packets so far.
#[derive(Drop)]
pub struct Checkcode {
    hasher: Hasher,
    is_empty: bool,
}

// The unfinished hash of the method.
#[derive(Drop)]
pub(crate) enum Hasher {
    Sha1(Sha1),
    Sha256(Sha256),
}

/// The value of a checkcode.
#[derive(Clone, Copy, PartialEq, Eq)]
pub enum CheckValue {
    /// There was no packet.
    Empty,
    /// The SHA-1 of the packets of EAP-AKA, 20 bytes.
    Sha1([u8; 20]),
    /// The SHA-256 of the packets of EAP-AKA', 32 bytes.
    Sha256([u8; 32]),
}

impl CheckValue {
    /// The bytes of AT_CHECKCODE's value: none, 20 or 32.
    pub fn as_slice(&self) -> &[u8]
        ensures bytes { result.now ≡ value_bytes self.now }
        ensures size { IsHash result.now }
    {
        match self {
            CheckValue::Empty => &[],
            CheckValue::Sha1(hash) => hash,
            CheckValue::Sha256(hash) => hash,
        }
    }

    /// Whether a checkcode that was received isn't this one, a receiver's own (RFC 4187 §10.13). Without one nothing is
    /// tested.
    pub fn differs(&self, code: Option<&Octets>) -> bool
        ensures { result ≡ differs (value_bytes self.now) (option_copied code.entry) }
    {
        match code {
            None => false,
            Some(code) => code.as_slice() != self.as_slice(),
        }
    }
}

impl Checkcode {
    /// The checkcode of no packet.
    pub fn new(method: Method) -> Checkcode
        ensures { HoldsPackets result method [] }
    {
        let hasher = match method {
            Method::Aka => Hasher::Sha1(Sha1::new()),
            Method::Prime => Hasher::Sha256(Sha256::new()),
        };
        Checkcode {
            hasher,
            is_empty: true,
        }
    }

    /// Adds the next packet. It takes no memory, so it never fails.
    pub fn update(&mut self, packet: &[u8]) -> Result<(), NoMemory>
        ensures added { (method : Method) (packets : List (List ℕ)) → HoldsPackets self.old method packets
            → HoldsPackets self.new method (packets ++ packet.now ∷ []) }
        ensures total { IsOk result }
    {
        self.add(packet);
        Ok(())
    }

    // Adds the next packet.
    pub(crate) fn add(&mut self, packet: &[u8])
        ensures { (method : Method) (packets : List (List ℕ)) → HoldsPackets self.old method packets
            → HoldsPackets self.new method (packets ++ packet.now ∷ []) }
    {
        self.hasher.feed(packet);
        self.is_empty = false;
    }

    /// The hash of all packets in order, or `Empty` if there was none.
    pub fn value(&self) -> CheckValue
        ensures { (method : Method) (packets : List (List ℕ)) → HoldsPackets self.now method packets
            → result ≡ checkcode_of method packets }
    {
        if self.is_empty {
            return CheckValue::Empty;
        }
        match &self.hasher {
            Hasher::Sha1(hasher) => CheckValue::Sha1(sha1_of(hasher)),
            Hasher::Sha256(hasher) => CheckValue::Sha256(sha256_of(hasher)),
        }
    }
}

impl Hasher {
    // Feeds the next bytes.
    fn feed(&mut self, bytes: &[u8])
        ensures { (method : Method) (fed : List ℕ) → HoldsBytes self.old method fed
            → HoldsBytes self.new method (fed ++ bytes.now) }
    {
        match self {
            Hasher::Sha1(hasher) => hasher.update(bytes),
            Hasher::Sha256(hasher) => hasher.update(bytes),
        }
    }
}

// The digest of what a hasher was fed.
fn sha1_of(hasher: &Sha1) -> [u8; 20]
    ensures { (bytes : List ℕ) → One.Holds hasher.now bytes → result ≡ sha1 bytes }
{
    copy_of(hasher).finalize()
}

// The same of SHA-256.
fn sha256_of(hasher: &Sha256) -> [u8; 32]
    ensures { (bytes : List ℕ) → Holds256 hasher.now bytes → result ≡ sha256 bytes }
{
    copy_of(hasher).finalize()
}

// A copy of what takes no memory. The trait's call answers a `Result` all the same.
fn copy_of<H: Clone>(hasher: &H) -> H
    requires { H.is_infallible hasher.now }
    ensures { H.is_clone hasher.now result }
{
    match hasher.clone() {
        Ok(copy) => copy,
        Err(_) => unreachable!(),
    }
}
