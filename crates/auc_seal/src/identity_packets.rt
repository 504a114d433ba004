//! The AKA-Identity packets of an exchange.

ghost use Rattle.std.specs.Prelude.{◌≡◌, [], OnErr, OnOk, IfOk};
ghost use Rattle.auc_seal.specs.Checkcode.{checkcode_of, counted, is_counted};

use crate::checkcode::{CheckValue, Checkcode};
use auc_hmac::Method;
use auc_memory::{Items, NoMemory, Octets};
use std::alloc::Global;
use std::marker::Model;

/// The AKA-Identity packets that an end sent and received, in order, whose hash is the value of AT_CHECKCODE
/// (RFC 4187 §10.13). A packet that is repeated is counted once. Contracts see the list of the packets' bytes.
#[derive(Drop)]
pub struct IdentityPackets {
    all: Items<Octets>,
}

impl Model for IdentityPackets {
    ghost use Rattle.std.specs.Prelude.{ℕ, List};

    ghost Value = { List (List ℕ) };

    ghost view = { λ packets. packets.all };
}

impl IdentityPackets {
    /// No packet. It takes no memory yet.
    pub fn new(alloc: Global) -> IdentityPackets
        ensures { result ≡ [] }
    {
        IdentityPackets {
            all: Items::new(alloc),
        }
    }

    /// An equal list, in memory of its own.
    pub fn copy(&self, alloc: Global) -> Result<IdentityPackets, NoMemory>
        ensures { IfOk result (λ copy. copy ≡ self.now) }
    {
        let mut all = Items::new(alloc);
        for packet in self.all.as_slice() {
            all.push(Octets::copied_from(alloc, packet.as_slice())?)?;
        }
        Ok(IdentityPackets { all })
    }

    /// Counts a packet, unless it was counted before. If memory runs out, nothing is counted.
    pub fn add(&mut self, alloc: Global, packet: &[u8]) -> Result<(), NoMemory>
        ensures counted { OnOk result (self.new ≡ counted packet.now self.old) }
        ensures kept { OnErr result (self.new ≡ self.old) }
    {
        if self.has(packet) {
            return Ok(());
        }
        self.all.push(Octets::copied_from(alloc, packet)?)
    }

    /// Counts a request and then its response, each unless it was counted before. If memory runs out, nothing is
    /// counted.
    pub fn add_both(
        &mut self,
        alloc: Global,
        request: &[u8],
        response: &[u8],
    ) -> Result<(), NoMemory>
        ensures counted { OnOk result (self.new ≡ counted response.now (counted request.now self.old)) }
        ensures kept { OnErr result (self.new ≡ self.old) }
    {
        if self.has(request) {
            return self.add(alloc, response);
        }
        self.all.push(Octets::copied_from(alloc, request)?)?;
        let added = self.add(alloc, response);
        if added.is_err() {
            let _request = self.all.pop();
        }
        added
    }

    /// Whether a packet was counted.
    fn has(&self, packet: &[u8]) -> bool
        ensures { result ≡ is_counted packet.now self.now }
    {
        self.all
            .as_slice()
            .iter()
            .any(|other| other.as_slice() == packet)
    }

    /// The value of AT_CHECKCODE by a method.
    pub fn value(&self, method: Method) -> CheckValue
        ensures { result ≡ checkcode_of method self.now }
    {
        let mut code = Checkcode::new(method);
        for packet in self.all.as_slice() {
            code.add(packet.as_slice());
        }
        code.value()
    }
}
