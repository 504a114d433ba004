//! The file of a journal that is open.

ghost use Rattle.std.specs.Prelude.{◌≡◌, ◌≢◌, ◌≤◌, ◌<◌, ◌+◌, ◌^◌, ◌++◌, [], ◌∷◌, ℕ, List, Some, Err, length, OnOk, OnErr, IsErrOf};
ghost use Rattle.std.specs.Option.{is_some};
ghost use Rattle.auc_memory.specs.Faults.{Rose};
ghost use Rattle.auc_memory.specs.Identity.{IsIdentity};
ghost use Rattle.auc_sqn.specs.Number.{max_seq};
ghost use Rattle.auc_journal.specs.Image.{Frame, body_of};
ghost use Rattle.auc_journal.specs.InnerBody.{IsBody};
ghost use Rattle.auc_journal.specs.Settled.{IsAppending, IsAppendingAll, IsSettled, LeavesOnly};

use crate::append_refusal::AppendRefusal;
use crate::reading::MOST;
use auc_disk::Disk;
use auc_memory::Imsi;

// The file on its disk, and the place of its closed gate.
#[derive(Drop)]
pub(crate) struct Log<D: Disk> {
    pub(crate) disk: D,
    pub(crate) place: u64,
}

impl<D: Disk> Log<D> {
    // Appends a frame of kind 1.
    pub(crate) fn append(&mut self, imsi: Imsi, limit: u64) -> Result<(), AppendRefusal>
        requires place { self.old.place ≤ 2 ^ 30 }
        requires limit { (1 ≤ limit) × (limit ≤ max_seq) }

        ensures place { OnOk result ((self.new.place ≡ self.old.place + 19) × (self.new.place ≤ 2 ^ 30)) }
        ensures kept { OnErr result (self.new.place ≡ self.old.place) }

        // After Ok every crash leaves the frames with the new one.
        ensures durable { OnOk result ((frames : List Frame)
            → IsSettled D.seen D.may_leave self.old.disk frames self.old.place
            → IsSettled D.seen D.may_leave self.new.disk (frames ++ record { imsi = imsi; limit = limit } ∷ []) self.new.place) }

        ensures tells { OnOk result (is_some (D.seen self.new.disk) ≡ is_some (D.seen self.old.disk)) }

        // A crash at any moment of the call leaves the frames from before it, or these with the new one.
        ensures any_moment { (frames : List Frame)
            → IsSettled D.seen D.may_leave self.old.disk frames self.old.place
            → (file : List ℕ) → D.seen self.old.disk ≡ Some file
            → LeavesOnly D.moment D.left_since self.old.disk self.new.disk
            (IsAppending frames self.old.place (record { imsi = imsi; limit = limit })) }

        // It fails only if the count rose, and is full exactly if the next gate would stand past 2^30 bytes.
        ensures fault { IsErrOf result AppendRefusal.StoreFault
            → Rose (D.faults self.old.disk) (D.faults self.new.disk) }
        ensures quiet { result ≢ Err AppendRefusal.StoreFault
            → D.faults self.new.disk ≡ D.faults self.old.disk }
        ensures later { D.faults self.old.disk ≤ D.faults self.new.disk }
        ensures calls { D.calls self.new.disk ≤ D.calls self.old.disk + 4 }
        ensures full { (len : ℕ) → result ≡ Err (AppendRefusal.StoreFull len)
            → (len ≡ self.old.place + 1) × (2 ^ 30 < len + 19) × (self.new ≡ self.old) }
        ensures is_full { 2 ^ 30 < self.old.place + 1 + 19
            → result ≡ Err (AppendRefusal.StoreFull (self.old.place + 1)) }
    {
        self.append_bytes(&body_with_gate(imsi, limit))?;
        Ok(())
    }

    // Appends a body, which stands in front of a closed gate in these bytes: a frame of either kind.
    pub(crate) fn append_bytes(&mut self, bytes: &[u8]) -> Result<(), AppendRefusal>
        requires place { self.old.place ≤ 2 ^ 30 }
        requires size { length bytes.now ≤ 4356 }

        ensures place { OnOk result ((self.new.place ≡ self.old.place + length bytes.now) × (self.new.place ≤ 2 ^ 30)) }
        ensures kept { OnErr result (self.new.place ≡ self.old.place) }

        // After Ok every crash leaves the frames with the new ones.
        ensures durable { OnOk result ((body : List ℕ) (added : List Frame) → IsBody body added → bytes.now ≡ body ++ 0 ∷ []
            → (frames : List Frame) → IsSettled D.seen D.may_leave self.old.disk frames self.old.place
            → IsSettled D.seen D.may_leave self.new.disk (frames ++ added) self.new.place) }

        ensures tells { OnOk result (is_some (D.seen self.new.disk) ≡ is_some (D.seen self.old.disk)) }

        // A crash at any moment of the call leaves the frames from before it, or these with the new ones.
        ensures any_moment { (body : List ℕ) (added : List Frame) → IsBody body added → bytes.now ≡ body ++ 0 ∷ []
            → (frames : List Frame) → IsSettled D.seen D.may_leave self.old.disk frames self.old.place
            → (file : List ℕ) → D.seen self.old.disk ≡ Some file
            → LeavesOnly D.moment D.left_since self.old.disk self.new.disk
            (IsAppendingAll frames self.old.place added (1 + length body)) }

        // It fails only if the count rose, and is full exactly if the next gate would stand past 2^30 bytes.
        ensures fault { IsErrOf result AppendRefusal.StoreFault
            → Rose (D.faults self.old.disk) (D.faults self.new.disk) }
        ensures quiet { result ≢ Err AppendRefusal.StoreFault
            → D.faults self.new.disk ≡ D.faults self.old.disk }
        ensures later { D.faults self.old.disk ≤ D.faults self.new.disk }
        ensures calls { D.calls self.new.disk ≤ D.calls self.old.disk + 4 }
        ensures full { (len : ℕ) → result ≡ Err (AppendRefusal.StoreFull len)
            → (len ≡ self.old.place + 1) × (2 ^ 30 < len + length bytes.now) × (self.new ≡ self.old) }
        ensures is_full { 2 ^ 30 < self.old.place + 1 + length bytes.now
            → result ≡ Err (AppendRefusal.StoreFull (self.old.place + 1)) }
    {
        if self.place + 1 + bytes.len() as u64 > MOST {
            return Err(AppendRefusal::StoreFull(self.place + 1));
        }
        self.disk.write_at(self.place + 1, bytes)?;
        // Were the gate opened first, a crash could leave it open before a body that isn't whole.
        self.disk.sync()?;
        self.disk.write_at(self.place, &[1])?;
        self.disk.sync()?;
        self.place += bytes.len() as u64;
        Ok(())
    }
}

// The body of a frame, and a closed gate behind it.
fn body_with_gate(imsi: Imsi, limit: u64) -> [u8; 19]
    ensures spelled { result ≡ body_of (record { imsi = imsi; limit = limit }) ++ 0 ∷ [] }
    ensures identity { IsIdentity imsi.digits imsi.number }
{
    let [a, b, c, d, e, f, g, h] = imsi.number().to_be_bytes();
    let [i, j, k, l, m, n, o, p] = limit.to_be_bytes();
    [
        1,
        imsi.digits(),
        a,
        b,
        c,
        d,
        e,
        f,
        g,
        h,
        i,
        j,
        k,
        l,
        m,
        n,
        o,
        p,
        0,
    ]
}
