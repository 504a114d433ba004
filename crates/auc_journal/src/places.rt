//! The subscribers of a journal, and which of them have places.

ghost use Rattle.std.specs.Prelude.{◌≡◌, ◌<◌, All, Contains, length};
ghost use Rattle.auc_journal.specs.Journal.{imsi_at};

use auc_memory::Imsi;
use std::marker::Model;

// The subscribers for which a journal was opened. Those that are named have the places 0, 1 and so on; if none were
// named, all have.
#[derive(Drop)]
pub(crate) struct Places {
    all: Vec<Imsi>,
    named: Option<Vec<Imsi>>,
}

impl Model for Places {
    ghost use Rattle.std.specs.Prelude.{All, Contains, option_map, unwrap_or, vec_items};
    ghost use Rattle.auc_journal.specs.InnerPlaces.{PlacesValue};

    ghost Value = { PlacesValue };

    ghost view = { λ p. record { all = p.all.items; imsis = unwrap_or (option_map vec_items p.named) p.all.items } };

    ghost invariant = { λ p. All (Contains p.all.items) (unwrap_or (option_map vec_items p.named) p.all.items) };
}

impl Places {
    // All of these have places.
    pub(crate) fn of(all: Vec<Imsi>) -> Places
        ensures { result ≡ record { all = all.items; imsis = all.items } }
    {
        Places { all, named: None }
    }

    // The identities of those that have places, in their order.
    pub(crate) fn imsis(&self) -> &[Imsi]
        ensures value { result.now ≡ self.now.imsis }
        ensures among { All (Contains self.now.all) self.now.imsis }
    {
        match &self.named {
            Some(named) => named,
            None => &self.all,
        }
    }

    // The identity of the subscriber at a place.
    pub(crate) fn at(&self, sub: u32) -> Imsi
        requires { sub < length self.now.imsis }
        ensures value { result ≡ imsi_at self.now.imsis sub }
        ensures among { Contains self.now.all result }
    {
        self.imsis()[sub as usize]
    }

    // Gives the places to these alone.
    pub(crate) fn name_some(&mut self, imsis: Vec<Imsi>)
        requires { All (Contains self.old.all) imsis.items }
        ensures { self.new ≡ record self.old { imsis = imsis.items } }
    {
        self.named = Some(imsis);
    }

    // Gives them to all again.
    pub(crate) fn name_all(&mut self)
        ensures { self.new ≡ record self.old { imsis = self.old.all } }
    {
        self.named = None;
    }
}
