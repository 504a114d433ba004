//! Journals of the greatest length.

ghost use Rattle.std.specs.Prelude.{◌≡◌, ◌≢◌, ◌<◌, ◌≤◌, ◌+◌, ◌-◌, ◌*◌, ◌^◌, ℕ, None, Err, IfOk, length, false};
ghost use Rattle.auc_journal.specs.Journal.{reserved_at};

use auc_disk::Disk;
use auc_journal::{AppendRefusal, Journal, OpenWhy};
use auc_memory::{Failed, Imsi, NoMemory};
use std::alloc::Global;

const HEADER: [u8; 16] = *b"AUC-SQN-JOURNAL1";

// An open gate, and the body of IMSI 001010000000001 with limit 64.
const FRAME: [u8; 19] = *b"\x01\x01\x0f\0\0\0\xeb\x28\xb0\xf4\x01\0\0\0\0\0\0\0\x40";

// A journal of so many equal frames as a disk. It computes its bytes, and keeps no write.
#[derive(Drop)]
struct LongDisk {
    frames: u32,
}

impl LongDisk {
    // How many bytes the file has: the header, the frames, and the closed gate.
    fn size(&self) -> u64
        ensures { result ≡ 17 + 19 * self.now.frames }
    {
        17 + 19 * u64::from(self.frames)
    }

    // The byte at a place of the file.
    fn byte_at(&self, place: u64) -> u8 {
        if place < 16 {
            HEADER[place as usize]
        } else if place == self.size() - 1 {
            0
        } else {
            FRAME[((place - 16) % 19) as usize]
        }
    }
}

impl Disk for LongDisk {
    ghost seen = { λ _. None };

    ghost may_leave = { λ _ _. Unit {0} };

    ghost moment = { λ _. 0 };

    ghost left_since = { λ _ _ _. Unit {0} };

    ghost last_len = { λ d. 17 + 19 * d.frames };

    ghost faults = { λ _. 0 };

    ghost calls = { λ _. 0 };

    ghost counts_now = { λ d t image early here. tt };

    ghost only_now = { λ d image since. tt };

    ghost as_it_reads = { λ d file is. tt };

    fn len(&mut self) -> Result<u64, Failed> {
        Ok(self.size())
    }

    // It gives one byte at a time.
    fn read_at(&mut self, at: u64, buf: &mut [u8]) -> Result<usize, Failed> {
        if at >= self.size() || buf.is_empty() {
            return Ok(0);
        }
        buf[0] = self.byte_at(at);
        Ok(1)
    }

    fn write_at(&mut self, _at: u64, _bytes: &[u8]) -> Result<(), Failed> {
        Ok(())
    }

    fn sync(&mut self) -> Result<(), Failed> {
        Ok(())
    }
}

// The journal of a disk with so many frames, or why it can't be opened.
fn open(alloc: Global, frames: u32) -> Result<Journal<LongDisk>, OpenWhy>
    ensures { IfOk result (λ journal. (length journal.imsis ≡ 1) × (journal.failed ≡ false)) }
{
    let imsi = Imsi::read(b"001010000000001").ok_or(NoMemory)?;
    match Journal::open(alloc, LongDisk { frames }, &[imsi]) {
        Ok(journal) => Ok(journal),
        Err(refused) => Err(refused.why),
    }
}

// Appends limit 128. The place 2^30 - 20 is the last that takes a frame: the frame and the next gate then end at 2^30. So a
// journal has at most 56512726 frames, and is then 1073741811 bytes long.
fn append<D: Disk + Drop>(journal: &mut Journal<D>) -> Result<(), AppendRefusal>
    requires { (0 < length journal.old.imsis) × (journal.old.failed ≡ false) × (reserved_at journal.old 0 < 128) }
    ensures room { journal.old.place ≤ 2 ^ 30 - 20 → (len : ℕ) → result ≢ Err (AppendRefusal.StoreFull len) }
    ensures full { 2 ^ 30 - 20 < journal.old.place
        → result ≡ Err (AppendRefusal.StoreFull (journal.old.place + 1)) }
    ensures last { journal.old.place ≡ 16 + 19 * 56512725
        → (len : ℕ) → result ≢ Err (AppendRefusal.StoreFull len) }
    ensures longest { journal.old.place ≡ 16 + 19 * 56512726
        → result ≡ Err (AppendRefusal.StoreFull 1073741811) }
{
    journal.append(0, 128)
}

// By hand: 17 + 19 * 1000 bytes are a journal, and 17 + 19 * 56512727 are 1073741830, more than 2^30.
#[test]
fn a_file_that_is_too_long_is_no_journal(rt: HostRuntime) {
    let alloc = rt.alloc();
    match open(alloc, 1000) {
        Ok(mut journal) => {
            assert_eq!(rt; journal.reserved(0), 64);
            assert!(rt; append(&mut journal).is_ok());
        }
        Err(why) => assert_eq!(rt; Some(why), None),
    }
    assert_eq!(rt;
        open(alloc, 56512727).err(),
        Some(OpenWhy::NotJournal(1073741824))
    );
}
