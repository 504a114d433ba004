//! The list of subscribers.

ghost use Rattle.std.specs.Prelude.{◌≡◌, ◌≢◌, ◌<◌, ◌↔◌, [], ◌∷◌, ◌++◌, None, length, All, IsTrue, OnOk, OnErr, IfOk, IfSome, IfNone, slice_get};
ghost use Rattle.auc_subs.specs.Subscriber.{IsRow};

use crate::field::{fields, has_seven_or_nine_fields};
use crate::refusal::{AddRefusal, SubsWhy};
use crate::row::Row;
use crate::row_reading::read_row;
use auc_memory::{IdentityKey, Imsi, Items, NoMemory};
use auc_sqn::top;
use indexmap::IndexMap;
use std::alloc::Global;
use std::marker::Model;

/// How many subscribers there may be.
pub const MAX_SUBSCRIBERS: usize = 65536;

/// Subscribers with different identities, each at a place from 0. Contracts see the list of rows.
#[derive(Drop)]
pub struct Subscribers {
    rows: IndexMap<IdentityKey, Row>,
}

impl Model for Subscribers {
    ghost use Rattle.std.specs.Prelude.{List};
    ghost use Rattle.indexmap.specs.IndexMap.{keys, values};
    ghost use Rattle.auc_subs.specs.declared.row.Row.{Row};

    ghost Value = { List Row };

    ghost use Rattle.auc_subs.specs.InnerLookup.{IsLookup};

    ghost view = { λ s. values s.rows };

    ghost invariant = { λ s. IsLookup (keys s.rows) (values s.rows) };
}

impl Subscribers {
    ghost use Rattle.auc_subs.specs.declared.refusal.AddRefusal.TheVariants as refusal;
    ghost use Rattle.auc_subs.specs.Subscriber.{AreSubscribers, HasIdentity, most_subscribers, place_of, rows_with, rows_after, tops_of};

    /// No subscribers. It takes no memory yet.
    pub fn new(alloc: Global) -> Subscribers
        ensures { result ≡ [] }
    {
        Subscribers {
            rows: IndexMap::new(alloc),
        }
    }

    /// How many subscribers there are. The clauses also say what holds of all lists of subscribers.
    pub fn len(&self) -> u32
        ensures count { result ≡ length self.now }
        ensures subscribers { AreSubscribers self.now }
    {
        self.rows.len() as u32
    }

    /// Whether there are no subscribers.
    pub fn is_empty(&self) -> bool
        ensures { IsTrue result ↔ (self.now ≡ []) }
    {
        self.rows.is_empty()
    }

    /// The row at a place.
    pub fn row(&self, sub: u32) -> &Row
        requires { sub < length self.now }
        ensures place { slice_get self.now sub ≡ Some result.now }
        ensures row { IsRow result.now }
    {
        &self.rows[sub as usize]
    }

    /// The greatest number of each subscriber, in the order of the rows.
    pub fn tops(&self, alloc: Global) -> Result<Items<u64>, NoMemory>
        ensures { IfOk result (λ tops. tops ≡ tops_of self.now) }
    {
        let mut tops = Items::new(alloc);
        for sub in 0..self.len() {
            tops.push(top(self.row(sub).bits))?;
        }
        Ok(tops)
    }

    /// The place of the row with an identity, or `None` if no row has it.
    pub fn find(&self, imsi: Imsi) -> Option<u32>
        ensures place { result ≡ place_of self.now imsi }
        ensures within { IfSome result (λ sub. sub < length self.now) }
        ensures found { IfSome result (λ sub. HasIdentity self.now sub imsi) }
        ensures none { IfNone result (All (λ row. row.imsi ≢ imsi) self.now) }
    {
        match self.rows.get_index_of(&imsi.key()) {
            Some(sub) => Some(sub as u32),
            None => None,
        }
    }

    /// Adds the subscriber of a line, and answers its place, which is the last. The line is
    /// `IMSI K KIND OP AMF SEQ USIM` or `IMSI K KIND OP AMF SEQ USIM BITS AGE`, with one space between
    /// each two fields: 6 to 15 decimal digits, 32 hexadecimal digits, `op` or `opc`, 32 and 4
    /// hexadecimal digits, two numbers of 1 to 15 decimal digits, at most the greatest of the index
    /// length; that length, one digit from 0 to 6; and `-`, or the age limit of 1 to 15 decimal digits,
    /// at least 1 and at most [`MAX_AGE`](crate::MAX_AGE). Seven fields have 5 bits and no age limit. A
    /// refusal leaves the subscribers as they were.
    pub fn add(&mut self, line: &[u8]) -> Result<u32, AddRefusal>
        ensures added { OnOk result (rows_after self.old line.now ≡ Ok self.new) }
        ensures place { IfOk result (λ sub. sub ≡ length self.old) }
        ensures refused { (why : SubsWhy) → result ≡ Err (refusal.Why why) → rows_after self.old line.now ≡ Err why }
        ensures kept { OnErr result (self.new ≡ self.old) }
    {
        if !has_seven_or_nine_fields(line) {
            return Err(AddRefusal::Why(SubsWhy::FieldCount));
        }
        let fields = fields(*self.rows.allocator(), line)?;
        let row = read_row(fields.as_slice())?;
        self.admit(row)
    }

    /// Puts a row after the last, and answers its place. A row whose identity another one has is refused, and
    /// so is one more than there may be. A refusal leaves the subscribers as they were.
    pub fn admit(&mut self, row: Row) -> Result<u32, AddRefusal>
        requires { IsRow row }

        ensures added { OnOk result (rows_with self.old row ≡ Ok self.new) }
        ensures place { IfOk result (λ sub. sub ≡ length self.old) }
        ensures refused { (why : SubsWhy) → result ≡ Err (refusal.Why why) → rows_with self.old row ≡ Err why }
        ensures kept { OnErr result (self.new ≡ self.old) }
    {
        if self.find(row.imsi).is_some() {
            return Err(AddRefusal::Why(SubsWhy::Twice));
        }
        let sub = self.rows.len();
        if sub >= MAX_SUBSCRIBERS {
            return Err(AddRefusal::Why(SubsWhy::TooMany));
        }
        self.push(row)?;
        Ok(sub as u32)
    }

    /// Puts a row of a new identity after the last. If memory runs out, the subscribers stay as they were.
    pub fn push(&mut self, row: Row) -> Result<(), NoMemory>
        requires row { IsRow row }
        requires new { place_of self.old row.imsi ≡ None }
        requires room { length self.old < most_subscribers }

        ensures added { OnOk result (self.new ≡ self.old ++ row ∷ []) }
        ensures kept { OnErr result (self.new ≡ self.old) }
    {
        self.rows.insert(row.imsi.key(), row)?;
        Ok(())
    }
}
