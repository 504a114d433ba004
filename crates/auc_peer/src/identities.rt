//! The AKA-Identity rounds (RFC 4187 §4.1.4).

ghost use Rattle.std.specs.Prelude.{◌≡◌, ◌≤◌, length, IfOk, OnErr};
ghost use Rattle.auc_packet.specs.Received.{seen_of};
ghost use Rattle.auc_packet.specs.Spelling.{packet_text};
ghost use Rattle.auc_peer.specs.Attributes.{id_of};
ghost use Rattle.auc_peer.specs.Messages.{identified as identity_message};
ghost use Rattle.auc_peer.specs.Identities.{asked_text};
ghost use Rattle.auc_peer.specs.Subscription.{subscription_of};
ghost use Rattle.auc_peer.specs.Table.{identified};

use crate::device::Device;
use crate::messages::identified;
use crate::peer::{Peer, PeerState};
use crate::rooms::Sent;
use crate::turns::noted;
use auc_memory::{NoMemory, Octets, Places, Room};
use auc_packet::{Received, packet_in};
use auc_request::IdentityRequest;
use auc_vector::{PeerWhy, Turn};
use std::alloc::Global;

impl Peer {
    /// Sends an identity of the device, as an AKA-Identity request asks. If memory runs out, the peer stays as it was.
    pub(crate) fn on_identity(
        &mut self,
        alloc: Global,
        device: &Device,
        received: &Received,
        asked: IdentityRequest,
    ) -> Result<Turn<PeerWhy>, NoMemory>
        ensures step { IfOk result (λ turn. (self.new, turn) ≡ identified self.old (seen_of received.now)
            (asked_text self.old.options.method (subscription_of device.now) device.now.store asked)) }
        ensures kept { OnErr result (self.new ≡ self.old) }
    {
        let IdentityAnswer { text, bytes } = self.identity_answer(alloc, device, received, asked)?;
        let sent = Sent::new(alloc, received, bytes)?;
        self.packets
            .add_both(alloc, packet_in(received.bytes), sent.bytes.as_slice())?;
        self.identity = Some(text);
        Ok(self.answer(received, PeerState::Waiting, sent, noted(None), false))
    }

    /// The response with the identity that an AKA-Identity request asks for.
    fn identity_answer(
        &self,
        alloc: Global,
        device: &Device,
        received: &Received,
        asked: IdentityRequest,
    ) -> Result<IdentityAnswer, NoMemory>
        ensures text { IfOk result (λ said. said.text
            ≡ asked_text self.now.options.method (subscription_of device.now) device.now.store asked) }
        ensures short { IfOk result (λ said. length said.text ≤ 511) }
        ensures size { IfOk result (λ said. length said.bytes ≤ 526) }
        ensures bytes { IfOk result (λ said. said.bytes
            ≡ packet_text (identity_message self.now.options.method (id_of (seen_of received.now)) said.text)) }
    {
        let method = self.options.method;
        let text = device.asked_identity(alloc, method, asked)?;
        let sent = Octets::copied_from(alloc, text.as_slice())?;
        let places = Places::new(alloc, 2)?;
        let room = Room::new(alloc, 15 + text.len())?;
        let bytes = identified(self.heading(received), sent, places, room);
        Ok(IdentityAnswer { text, bytes })
    }
}

/// An AKA-Identity response, and the identity in it.
#[derive(Drop)]
struct IdentityAnswer {
    text: Octets,
    bytes: Octets,
}
