//! Journals.

ghost use Rattle.std.specs.Prelude.{◌≡◌, ◌≢◌, ◌≤◌, ◌<◌, ◌+◌, ◌*◌, ◌^◌, ◌++◌, [], ◌∷◌, ◌↔◌, ℕ, List, Some, Err, false, true, length, All, Contains, ◌==◌, if◌then◌else◌, IfOk, IfErr, OnOk, OnErr, IsErrOf, IsTrue};
ghost use Rattle.std.specs.Option.{is_some};
ghost use Rattle.auc_memory.specs.Faults.{Rose};
ghost use Rattle.auc_memory.specs.Identity.{Identity};
ghost use Rattle.auc_sqn.specs.Number.{max_seq};
ghost use Rattle.auc_journal.specs.Image.{Frame, read_image, reserved_in};
ghost use Rattle.auc_journal.specs.Durable.{Admits, AdmitsAll, IsDurable};
ghost use Rattle.auc_journal.specs.Journal.{frame_for, frames_at, frames_for, reserved_at};
ghost use Rattle.auc_journal.specs.InnerLookup.{missing, raised_by};
ghost use Rattle.auc_journal.specs.Limits.{AreLimits, AreSingle};
ghost use Rattle.auc_journal.specs.Opening.{IsAsBefore, LeavesFound, LeavesOpening, Opens};
ghost use Rattle.auc_journal.specs.Settled.{IsAppending, IsAppendingAll, IsSettled, LeavesOnly};
ghost use Rattle.auc_journal.specs.declared.open_why.OpenWhy.TheVariants as why;

use crate::append_refusal::AppendRefusal;
use crate::limit_list::LimitList;
use crate::log::Log;
use crate::open_refused::OpenRefused;
use crate::open_why::OpenWhy;
use crate::opening::open_file;
use crate::places::Places;
use crate::spelling::spell;
use auc_disk::Disk;
use auc_memory::Imsi;
use std::alloc::Global;
use std::marker::Model;

/// A journal on a disk, for subscribers that have the places 0, 1 and so on: those for which it was opened, or
/// some of them that were named since. After an append that answered `StoreFault` it takes no further one.
#[derive(Drop)]
pub struct Journal<D: Disk + Drop> {
    log: Log<D>,
    places: Places,
    limits: LimitList,
    failed: bool,
}

impl<D: Disk + Drop> Model for Journal<D> {
    ghost use Rattle.std.specs.Prelude.{◌≤◌, ◌^◌};
    ghost use Rattle.auc_journal.specs.InnerLookup.{missing};
    ghost use Rattle.auc_journal.specs.Journal.{JournalState};

    ghost Value = { JournalState D };

    ghost view = { λ j. record { disk = j.log.disk; place = j.log.place; all = j.places.all; imsis = j.places.imsis; limits = j.limits.written; failed = j.failed } };

    ghost invariant = { λ j. (j.log.place ≤ 2 ^ 30) × (missing j.places.all j.limits.written ≤ j.limits.left) };
}

impl<D: Disk + Drop> Journal<D> {
    /// Opens the journal on a disk, for these subscribers. An empty file gets a header and a closed gate;
    /// otherwise an unclear gate at the end of the frames is closed. A refusal hands the disk back.
    pub fn open(alloc: Global, disk: D, imsis: &[Imsi]) -> Result<Journal<D>, OpenRefused<D>>
        ensures opened { IfOk result (λ journal.
            Opens D.seen D.may_leave disk journal.disk journal.limits journal.place) }
        ensures all { IfOk result (λ journal. journal.all ≡ imsis.now) }
        ensures subscribers { IfOk result (λ journal. journal.imsis ≡ imsis.now) }
        ensures ready { IfOk result (λ journal. journal.failed ≡ false) }
        ensures quiet { IfOk result (λ journal. D.faults journal.disk ≡ D.faults disk) }

        // If the disk told its bytes, a crash leaves journals with just these limits.
        ensures durable { IfOk result (λ journal.
            IsDurable D.seen D.may_leave disk (λ imsi. reserved_in journal.limits imsi) journal) }

        // If the file is no journal, it says where. It answers StoreFault only if the count of faults rose.
        ensures not_journal { IfErr result (λ refused. (place : ℕ) → refused.why ≡ why.NotJournal place
            → (file : List ℕ) → D.seen disk ≡ Some file → read_image file ≡ Err place) }
        ensures fault { IfErr result (λ refused. refused.why ≡ why.StoreFault
            → Rose (D.faults disk) (D.faults refused.disk)) }
        ensures stands { IfErr result (λ refused. refused.why ≢ why.StoreFault
            → D.faults refused.disk ≡ D.faults disk) }

        // A refusal forgets no reservation of the file that was found, whosever it is, if the gate of the file can be closed.
        ensures refused { IfErr result (λ refused.
            LeavesFound D.seen D.may_leave refused.why disk refused.disk) }

        // A crash at any moment leaves the file, or what the closing of its gate or a first opening may leave.
        ensures any_moment { IfOk result (λ journal.
            LeavesOpening D.seen D.may_leave D.moment D.left_since disk journal.disk) }
        ensures refused_moment { IfErr result (λ refused.
            LeavesOpening D.seen D.may_leave D.moment D.left_since disk refused.disk) }
    {
        let mut disk = disk;
        match prepare(alloc, &mut disk, imsis) {
            Ok(opened) => Ok(Journal::of(disk, opened)),
            Err(why) => Err(OpenRefused { disk, why }),
        }
    }

    /// The limit of the subscriber at a place, or 0 if it has none.
    pub fn reserved(&self, sub: u32) -> u64
        requires { sub < length self.now.imsis }
        ensures value { result ≡ reserved_at self.now sub }
        ensures number { result ≤ max_seq }
    {
        self.limits.limit_of(self.places.at(sub))
    }

    /// Each identity of the file with its limit, in the order of their first frames.
    pub fn listed(&self) -> &LimitList
        ensures { result.now.written ≡ self.now.limits }
    {
        &self.limits
    }

    /// From now on these subscribers have the places 0, 1 and so on, and no other has one. The journal was opened
    /// for each of them. It takes no memory, and the limits stay.
    pub fn name_some(&mut self, imsis: Vec<Imsi>)
        requires { All (Contains self.old.all) imsis.items }
        ensures { self.new ≡ record self.old { imsis = imsis.items } }
    {
        self.places.name_some(imsis);
    }

    /// From now on all subscribers for which the journal was opened have places, as after its opening. It takes no
    /// memory, and the limits stay.
    pub fn name_all(&mut self)
        ensures { self.new ≡ record self.old { imsis = self.old.all } }
    {
        self.places.name_all();
    }

    /// The disk, as the last call left it.
    pub fn into_disk(self) -> D
        ensures { result ≡ self.disk }
    {
        let Journal { log, .. } = self;
        let Log { disk, .. } = log;
        disk
    }

    /// Appends a limit for the subscriber at a place, which is to be greater than the limit that it has.
    /// After `Ok` the new limit is durable. It takes no memory, and makes at most four calls of the disk.
    pub fn append(&mut self, sub: u32, limit: u64) -> Result<(), AppendRefusal>
        requires sub { sub < length self.old.imsis }
        requires limit { (reserved_at self.old sub < limit) × (limit ≤ max_seq) }
        requires ready { self.old.failed ≡ false }

        ensures limits { OnOk result
            (AreLimits self.new.limits (self.old.limits ++ frame_for self.old sub limit ∷ [])) }
        ensures place { OnOk result (self.new.place ≡ self.old.place + 19) }
        ensures all { self.new.all ≡ self.old.all }
        ensures subscribers { self.new.imsis ≡ self.old.imsis }
        ensures kept { OnErr result
            ((self.new.limits ≡ self.old.limits) × (self.new.place ≡ self.old.place)) }
        ensures failed { (self.new.failed ≡ true) ↔ (result ≡ Err AppendRefusal.StoreFault) }

        // After Ok every crash leaves the frames with the new one.
        ensures durable { OnOk result ((frames : List Frame)
            → IsSettled D.seen D.may_leave self.old.disk frames self.old.place
            → IsSettled D.seen D.may_leave self.new.disk (frames ++ frame_for self.old sub limit ∷ []) self.new.place) }

        // A crash at any moment, also of a call that fails, leaves the frames as they were or with the new one.
        ensures any_moment { (frames : List Frame)
            → IsSettled D.seen D.may_leave self.old.disk frames self.old.place
            → (file : List ℕ) → D.seen self.old.disk ≡ Some file
            → LeavesOnly D.moment D.left_since self.old.disk self.new.disk
            (IsAppending frames self.old.place (frame_for self.old sub limit)) }

        // Whatever it answers, a crash leaves limits that are no lower, and none above a bound that admits the
        // new one.
        ensures bounded { (from : D) (most : Identity → ℕ) → Admits self.old sub limit most
            → IsDurable D.seen D.may_leave from most self.old
            → IsDurable D.seen D.may_leave from most self.new }

        // It fails only if the count rose, and is full exactly if the file would have more than 2^30 bytes.
        ensures fault { IsErrOf result AppendRefusal.StoreFault
            → Rose (D.faults self.old.disk) (D.faults self.new.disk) }
        ensures quiet { result ≢ Err AppendRefusal.StoreFault
            → D.faults self.new.disk ≡ D.faults self.old.disk }
        ensures full { (len : ℕ) → result ≡ Err (AppendRefusal.StoreFull len)
            → (len ≡ self.old.place + 1) × (2 ^ 30 < len + 19) × (self.new ≡ self.old) }
        ensures is_full { 2 ^ 30 < self.old.place + 1 + 19
            → result ≡ Err (AppendRefusal.StoreFull (self.old.place + 1)) }

        // It makes four calls of the disk at most.
        ensures calls { D.calls self.new.disk ≤ D.calls self.old.disk + 4 }
    {
        let imsi = self.places.at(sub);
        let appended = self.log.append(imsi, limit);
        self.failed = is_fault(appended);
        appended?;
        raise(&mut self.limits, imsi, limit);
        Ok(())
    }

    /// Appends the limits of 2 to 256 subscribers, each at its place, in one frame. After `Ok` all of them are
    /// durable; a crash before that leaves all of them or none. A limit that isn't greater than the one of its
    /// subscriber changes nothing. It takes no memory, and makes at most four calls of the disk.
    pub fn append_group(&mut self, items: &[(u32, u64)]) -> Result<(), AppendRefusal>
        requires count { (2 ≤ length items.now) × (length items.now ≤ 256) }
        requires subs { All (λ item. item.0 < length self.old.imsis) items.now }
        requires limits { All (λ item. (1 ≤ item.1) × (item.1 ≤ max_seq)) items.now }
        requires ready { self.old.failed ≡ false }

        ensures limits { OnOk result
            (AreLimits self.new.limits (self.old.limits ++ frames_for self.old items.now)) }
        ensures place { OnOk result (self.new.place ≡ self.old.place + (4 + 17 * length items.now)) }
        ensures all { self.new.all ≡ self.old.all }
        ensures subscribers { self.new.imsis ≡ self.old.imsis }
        ensures kept { OnErr result
            ((self.new.limits ≡ self.old.limits) × (self.new.place ≡ self.old.place)) }
        ensures failed { (self.new.failed ≡ true) ↔ (result ≡ Err AppendRefusal.StoreFault) }

        // After Ok every crash leaves the frames with all the new ones.
        ensures durable { OnOk result ((frames : List Frame)
            → IsSettled D.seen D.may_leave self.old.disk frames self.old.place
            → IsSettled D.seen D.may_leave self.new.disk (frames ++ frames_for self.old items.now) self.new.place) }

        // A crash at any moment, also of a call that fails, leaves the frames as they were or with all the new ones.
        ensures any_moment { (frames : List Frame)
            → IsSettled D.seen D.may_leave self.old.disk frames self.old.place
            → (file : List ℕ) → D.seen self.old.disk ≡ Some file
            → LeavesOnly D.moment D.left_since self.old.disk self.new.disk
            (IsAppendingAll frames self.old.place (frames_for self.old items.now) (4 + 17 * length items.now)) }

        // Whatever it answers, a crash leaves limits that are no lower, and none above a bound that admits the
        // new ones.
        ensures bounded { (from : D) (most : Identity → ℕ) → AdmitsAll (frames_for self.old items.now) most
            → IsDurable D.seen D.may_leave from most self.old
            → IsDurable D.seen D.may_leave from most self.new }

        // It fails only if the count rose, and is full exactly if the file would have more than 2^30 bytes.
        ensures fault { IsErrOf result AppendRefusal.StoreFault
            → Rose (D.faults self.old.disk) (D.faults self.new.disk) }
        ensures quiet { result ≢ Err AppendRefusal.StoreFault
            → D.faults self.new.disk ≡ D.faults self.old.disk }
        ensures full { (len : ℕ) → result ≡ Err (AppendRefusal.StoreFull len)
            → (len ≡ self.old.place + 1) × (2 ^ 30 < len + (4 + 17 * length items.now)) × (self.new ≡ self.old) }
        ensures is_full { 2 ^ 30 < self.old.place + 1 + (4 + 17 * length items.now)
            → result ≡ Err (AppendRefusal.StoreFull (self.old.place + 1)) }

        // It makes four calls of the disk at most.
        ensures calls { D.calls self.new.disk ≤ D.calls self.old.disk + 4 }
    {
        let group = spell(self.places.imsis(), items);
        let appended = self.log.append_bytes(&group.bytes[..group.len]);
        self.failed = is_fault(appended);
        appended?;
        raise_group(&mut self.limits, &self.places, items);
        Ok(())
    }

    // The journal of an opened disk.
    fn of(disk: D, opened: Opened) -> Journal<D>
        requires place { opened.place ≤ 2 ^ 30 }
        requires room { length opened.imsis.items ≤ opened.limits.left }
        ensures { result ≡ record {
          disk = disk;
          place = opened.place;
          all = opened.imsis.items;
          imsis = opened.imsis.items;
          limits = opened.limits.written;
          failed = false;
        } }
    {
        let Opened {
            place,
            imsis,
            limits,
        } = opened;
        Journal {
            log: Log { disk, place },
            places: Places::of(imsis),
            limits,
            failed: false,
        }
    }
}

// What an opening made besides its disk.
#[derive(Drop)]
struct Opened {
    place: u64,
    imsis: Vec<Imsi>,
    limits: LimitList,
}

// Opens the file of a disk, and makes room for the limits of the subscribers.
fn prepare<D: Disk>(alloc: Global, disk: &mut D, imsis: &[Imsi]) -> Result<Opened, OpenWhy>
    ensures opened { IfOk result (λ opened.
        Opens D.seen D.may_leave disk.old disk.new opened.limits.written opened.place) }
    ensures subscribers { IfOk result (λ opened. opened.imsis.items ≡ imsis.now) }
    ensures place { IfOk result (λ opened. opened.place ≤ 2 ^ 30) }
    ensures room { IfOk result (λ opened. length opened.imsis.items ≤ opened.limits.left) }
    ensures tells { IfOk result (λ opened. is_some (D.seen disk.new) ≡ is_some (D.seen disk.old)) }
    ensures wrong { (place : ℕ) → result ≡ Err (OpenWhy.NotJournal place)
        → (file : List ℕ) → D.seen disk.old ≡ Some file → read_image file ≡ Err place }
    ensures any_moment { LeavesOpening D.seen D.may_leave D.moment D.left_since disk.old disk.new }
    ensures unwritten { IfErr result (λ refusal. refusal ≢ OpenWhy.StoreFault
        → IsAsBefore D.seen D.may_leave disk.old disk.new) }
    ensures fault { result ≡ Err OpenWhy.StoreFault → Rose (D.faults disk.old) (D.faults disk.new) }
    ensures stands { result ≢ Err OpenWhy.StoreFault → D.faults disk.new ≡ D.faults disk.old }
{
    let own = imsis.to_vec(alloc)?;
    let mut limits = LimitList::new(alloc);
    let place = open_file(alloc, disk, &mut limits, own.len())?;
    Ok(Opened {
        place,
        imsis: own,
        limits,
    })
}

// Whether a call of the disk failed in an append.
fn is_fault(appended: Result<(), AppendRefusal>) -> bool
    ensures { IsTrue result ↔ (appended ≡ Err AppendRefusal.StoreFault) }
{
    match appended {
        Err(AppendRefusal::StoreFault) => true,
        Ok(()) | Err(AppendRefusal::StoreFull(_)) => false,
    }
}

// Raises the limit of an identity, for which there is room.
fn raise(limits: &mut LimitList, imsi: Imsi, limit: u64)
    requires limit { (1 ≤ limit) × (limit ≤ max_seq) }
    requires room { reserved_in limits.old.written imsi ≡ 0 → 1 ≤ limits.old.left }
    ensures raised { limits.new.written ≡ raised_by limits.old.written
        (record { imsi = imsi; limit = limit }) }
    ensures single { AreSingle limits.old.written }
    ensures room { limits.old.left ≤ limits.new.left +
        (if reserved_in limits.old.written imsi == 0 then 1 else 0) }
{
    match limits.raise(imsi, limit) {
        Ok(()) => {}
        Err(_) => unreachable!(),
    }
}

// Raises the limits of several subscribers, for which there is room.
fn raise_group(limits: &mut LimitList, places: &Places, items: &[(u32, u64)])
    requires some { 1 ≤ length items.now }
    requires subs { All (λ item. item.0 < length places.now.imsis) items.now }
    requires limits { All (λ item. (1 ≤ item.1) × (item.1 ≤ max_seq)) items.now }
    requires room { missing places.now.all limits.old.written ≤ limits.old.left }
    ensures are { AreLimits limits.new.written (limits.old.written ++ frames_at places.now.imsis items.now) }
    ensures room { missing places.now.all limits.new.written ≤ limits.new.left }
{
    for item in items {
        raise(limits, places.at(item.0), item.1);
    }
}
