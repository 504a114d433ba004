//! What passes from round to round.

ghost use Rattle.std.specs.Prelude.{◌≡◌, ◌≤◌, ◌<◌, ◌++◌, ℕ, [], List, length, map, slice_index, slice_set, IfOk, OnErr, OnOk};
ghost use Rattle.auc_subs.specs.Subscriber.{top_at};
ghost use Rattle.auc_record.specs.Lines.{all_lines};
ghost use Rattle.auc_record.specs.Released.{AreReleased};
ghost use Rattle.auc_subs.specs.Setting.{Setting};
ghost use Rattle.auc_world.specs.Start.{fresh_kept};
ghost use Rattle.auc_record.specs.declared.record.LineRecord.{LineRecord};
ghost use Rattle.auc_jobs.specs.InnerRound.{IsAdvanced};
ghost use Rattle.auc_jobs.specs.State.{AcceptNothing, StandsAt};

use auc_cards::{Cards, JobDevices};
use auc_memory::NoMemory;
use auc_released::Numbers;
use auc_subs::Subscribers;
use auc_world::{JobRecord, note_all, reopened};
use std::alloc::Global;
use std::marker::Model;

/// What passes from round to round: where the next round opens each subscriber's numbers, the subscribers' USIMs, what their
/// homes and devices keep of their names (RFC 4187 §4.1.1.7), and the numbers whose vectors were released.
#[derive(Drop)]
pub struct State {
    pub(crate) words: Vec<u64>,
    pub(crate) cards: Cards,
    pub(crate) released: Numbers,
}

impl Model for State {
    ghost use Rattle.auc_jobs.specs.State.{Standing};

    ghost Value = { Standing };

    ghost view = { λ state. record {
      words = state.words.items;
      usims = state.cards.usims;
      kept = state.cards.kept;
      released = state.released;
    } };
}

impl State {
    /// The state before the first round: the numbers are those of the rows, no name was given, and no vector is released.
    pub fn new(alloc: Global, subs: &Subscribers) -> Result<State, NoMemory>
        ensures words { IfOk result (λ state. state.words ≡ map (λ row. row.seq) subs.now) }
        ensures names { IfOk result (λ state. state.kept ≡ map (λ row. fresh_kept) subs.now) }
        ensures stands { IfOk result (λ state. (set : Setting) → set.rows ≡ subs.now → StandsAt set [] state) }
    {
        Ok(State {
            words: first_words(alloc, subs)?,
            cards: Cards::new(alloc, subs)?,
            released: Numbers::new(alloc),
        })
    }

    /// The words at which the next round opens the subscribers.
    pub(crate) fn words(&self) -> &[u64]
        ensures { result.now ≡ self.now.words }
    {
        self.words.as_slice()
    }

    /// The subscribers' USIMs, and what their homes and devices keep of their names.
    pub(crate) fn cards(&self) -> &Cards
        ensures { result.now ≡ record { usims = self.now.usims; kept = self.now.kept } }
    {
        &self.cards
    }

    /// The numbers whose vectors were released.
    pub(crate) fn released(&self) -> &Numbers
        ensures { result.now ≡ self.now.released }
    {
        &self.released
    }

    /// Opens the next round at other words, as a restart does. All else stays.
    pub fn open_at(&mut self, words: Vec<u64>)
        requires { length words.items ≡ length self.old.words }
        ensures opened { self.new ≡ record self.old { words = words.items } }
        ensures stands { (set : Setting) (early : List LineRecord)
            → ((sub : ℕ) → sub < length set.rows → slice_index words.items sub ≤ top_at set.rows sub)
            → StandsAt set early self.old → StandsAt set early self.new }
    {
        self.words = words;
    }

    /// The word at which the next round opens a subscriber.
    pub fn word(&self, sub: u32) -> u64
        requires { sub < length self.now.words }
        ensures { result ≡ slice_index self.now.words sub }
    {
        self.words[sub as usize]
    }

    /// Opens a subscriber at another word in the next round. All else stays.
    pub fn set_word(&mut self, sub: u32, word: u64)
        requires { sub < length self.old.words }
        ensures { self.new ≡ record self.old { words = slice_set self.old.words sub word } }
    {
        self.words[sub as usize] = word;
    }

    /// Notes the numbers whose vectors the lines of some jobs released.
    pub fn note(&mut self, records: &[JobRecord]) -> Result<(), NoMemory>
        ensures same { self.new ≡ record self.old { released = self.new.released } }
        ensures noted { OnOk result ((before : List LineRecord) → AreReleased self.old.released before
            → AreReleased self.new.released (before ++ all_lines records.now)) }
        ensures kept { OnErr result (self.new ≡ self.old) }
    {
        note_all(&mut self.released, records)
    }

    /// Forgets which vectors were released. Rounds whose lines only draw and resynchronise never ask.
    pub fn forget(&mut self, alloc: Global)
        ensures forgotten { self.new ≡ record self.old { released = [] } }
        ensures stands { (set : Setting) (early : List LineRecord)
            → AcceptNothing early → StandsAt set early self.old → StandsAt set [] self.new }
    {
        self.released = Numbers::new(alloc);
    }

    /// Leads the state from a round's beginning to the next round. All memory is taken before the first change.
    pub(crate) fn advance(
        &mut self,
        alloc: Global,
        subs: &Subscribers,
        records: &[JobRecord],
        devices: &[JobDevices],
        words: &[u64],
    ) -> Result<(), NoMemory>
        requires { length words.now ≡ length subs.now }
        ensures advanced { OnOk result (IsAdvanced subs.now self.old records.now devices.now words.now self.new) }
        ensures kept { OnErr result (self.new ≡ self.old) }
    {
        let opened = reopened(alloc, subs, words)?;
        let openings = opened.as_slice().to_vec(alloc)?;
        note_all(&mut self.released, records)?;
        self.cards.put_back(devices);
        self.words = openings;
        Ok(())
    }
}

/// The numbers at which the rows say that the centre stands.
fn first_words(alloc: Global, subs: &Subscribers) -> Result<Vec<u64>, NoMemory>
    ensures value { IfOk result (λ words. words.items ≡ map (λ row. row.seq) subs.now) }
    ensures bound { IfOk result (λ words. (sub : ℕ) → sub < length subs.now
        → slice_index words.items sub ≤ top_at subs.now sub) }
{
    let mut words = Vec::new(alloc);
    for sub in 0..subs.len() {
        words.push(subs.row(sub).seq)?;
    }
    Ok(words)
}
