//! The cards of the subscribers.

ghost use Rattle.std.specs.Prelude.{◌≡◌, ◌<◌, Some, fold, length, map, slice_get, slice_set, IfOk};
ghost use Rattle.auc_cards.specs.Devices.{usim_in};
ghost use Rattle.auc_cards.specs.Stores.{fresh_kept, kept_now, put_back, put_own};
ghost use Rattle.auc_cards.specs.Usims.{AreFresh, AreOfRows, ArePut, ArePutBack};

use crate::devices::JobDevices;
use auc_ident::Ordinals;
use auc_memory::NoMemory;
use auc_peer::Device;
use auc_reauth::{DeviceStore, Kept, ServerStore};
use auc_server::HomeRow;
use auc_subs::Subscribers;
use auc_usim::Usim;
use std::alloc::Global;
use std::marker::Model;

/// A subscriber's USIM, and what its home and its device keep of its names: the ordinals and contexts of the home, and the
/// pseudonyms and contexts of the device (RFC 4187 §4.1.1.7 and §5.1).
#[derive(Clone, Copy)]
pub struct Card {
    /// The USIM.
    pub usim: Usim,
    /// What is kept of the names.
    pub kept: Kept,
}

/// The cards of the subscribers, in the subscribers' order. Contracts see the list of what each USIM keeps, and that of what is
/// kept of the names.
#[derive(Drop)]
pub struct Cards {
    all: Vec<Card>,
}

impl Model for Cards {
    ghost use Rattle.std.specs.Prelude.{map};
    ghost use Rattle.auc_cards.specs.Own.{AllCards};

    ghost Value = { AllCards };

    ghost view = { λ cards. record {
      usims = map (λ card. card.usim) cards.all.items;
      kept = map (λ card. card.kept) cards.all.items;
    } };
}

impl Cards {
    /// A card for each subscriber: a USIM with its row's secret, index length and age limit, for which the numbers up to the
    /// row's `usim` count as accepted, and of whom no name was given.
    pub fn new(alloc: Global, subs: &Subscribers) -> Result<Cards, NoMemory>
        ensures rows { IfOk result (λ cards. AreOfRows subs.now cards.usims) }
        ensures fresh { IfOk result (λ cards. AreFresh subs.now cards.usims) }
        ensures names { IfOk result (λ cards. cards.kept ≡ map (λ row. fresh_kept) subs.now) }
    {
        let mut all = Vec::new(alloc);
        for sub in 0..subs.len() {
            let row = subs.row(sub);
            let usim = Usim::new(row.secret, row.usim, row.bits, row.age);
            let kept = fresh_kept();
            all.push(Card { usim, kept })?;
        }
        Ok(Cards { all })
    }

    /// The card of a subscriber.
    pub fn of(&self, sub: u32) -> Card
        requires { sub < length self.now.usims }
        ensures usim { slice_get self.now.usims sub ≡ Some result.usim }
        ensures kept { slice_get self.now.kept sub ≡ Some result.kept }
    {
        self.all[sub as usize]
    }

    /// Puts a card in a subscriber's place, if there is one.
    fn set(&mut self, sub: u32, card: Card)
        ensures { self.new ≡ record {
          usims = slice_set self.old.usims sub card.usim;
          kept = slice_set self.old.kept sub card.kept;
        } }
    {
        let place = sub as usize;
        if place < self.all.len() {
            self.all[place] = card;
        }
    }

    /// Puts the USIMs of a job's own devices, and what its homes and devices keep, back in their places.
    fn put(&mut self, own: &JobDevices)
        ensures usims { ArePut self.old.usims (usim_in own.now) self.new.usims }
        ensures kept { self.new.kept ≡ put_back self.old.kept own.now.homes own.now.devices }
    {
        let homes = own.homes();
        let devices = own.devices();
        let mut left = homes.len();
        while left > 0 {
            left -= 1;
            if let Some(device) = devices.get(left) {
                let home = &homes[left];
                self.set(home.sub, card_of(home, device));
            }
        }
    }

    /// Puts the USIMs of the own devices of a round's jobs, and what their homes and devices keep, back in their places.
    pub fn put_back(&mut self, jobs: &[JobDevices])
        ensures usims { ArePutBack self.old.usims jobs.now self.new.usims }
        ensures kept { self.new.kept ≡ fold put_own self.old.kept jobs.now }
    {
        for own in jobs {
            self.put(own);
        }
    }
}

/// What is kept of a subscriber of whom no name was given.
fn fresh_kept() -> Kept
    ensures { result ≡ fresh_kept }
{
    Kept {
        ordinals: Ordinals::at(0),
        home: ServerStore::new(),
        device: DeviceStore::new(),
    }
}

/// The card of a subscriber, by its home and its device.
fn card_of(home: &HomeRow, device: &Device) -> Card
    ensures { result ≡ record { usim = device.now.usim; kept = kept_now home.now device.now } }
{
    Card {
        usim: device.usim,
        kept: Kept {
            ordinals: home.ordinals,
            home: home.store,
            device: device.store,
        },
    }
}
