//! Spelling the body of a frame for several subscribers.

ghost use Rattle.std.specs.Prelude.{◌≡◌, ◌≤◌, ◌<◌, ◌+◌, ◌*◌, ◌++◌, ◌∷◌, [], All, length, take};
ghost use Rattle.auc_memory.specs.Identity.{IsIdentity};
ghost use Rattle.auc_sqn.specs.Number.{max_seq};
ghost use Rattle.auc_journal.specs.Image.{entry_of, group_of};
ghost use Rattle.auc_journal.specs.InnerBody.{IsFrame};
ghost use Rattle.auc_journal.specs.Journal.{frame_at, frames_at, imsi_at};

use auc_memory::Imsi;

// A body, and a closed gate behind it: the first bytes of a buffer, which has room for a body of 256 entries.
#[derive(Drop)]
pub(crate) struct Group {
    pub(crate) bytes: [u8; 4356],
    pub(crate) len: usize,
}

// Writes the body of the limits of 2 to 256 subscribers.
pub(crate) fn spell(imsis: &[Imsi], items: &[(u32, u64)]) -> Group
    requires count { (2 ≤ length items.now) × (length items.now ≤ 256) }
    requires known { All (λ item. item.0 < length imsis.now) items.now }
    requires limits { All (λ item. (1 ≤ item.1) × (item.1 ≤ max_seq)) items.now }
    ensures len { result.len ≡ 4 + 17 * length items.now }
    ensures bytes { take result.len result.bytes ≡ group_of (frames_at imsis.now items.now) ++ 0 ∷ [] }
    ensures fit { All IsFrame (frames_at imsis.now items.now) }
{
    let mut bytes = [0; 4356];
    let [high, low] = (items.len() as u16).to_be_bytes();
    bytes[0] = 2;
    bytes[1] = high;
    bytes[2] = low;
    let mut at = 3;
    for item in items {
        let imsi = imsis[item.0 as usize];
        bytes[at..at + 17].copy_from_slice(&entry_bytes(imsi, item.1));
        at += 17;
    }
    bytes[at] = 0;
    Group { bytes, len: at + 1 }
}

// The 17 bytes of an entry.
fn entry_bytes(imsi: Imsi, limit: u64) -> [u8; 17]
    ensures spelled { result ≡ entry_of (record { imsi = imsi; limit = limit }) }
    ensures identity { IsIdentity imsi.digits imsi.number }
{
    let [a, b, c, d, e, f, g, h] = imsi.number().to_be_bytes();
    let [i, j, k, l, m, n, o, p] = limit.to_be_bytes();
    [
        imsi.digits(),
        a,
        b,
        c,
        d,
        e,
        f,
        g,
        h,
        i,
        j,
        k,
        l,
        m,
        n,
        o,
        p,
    ]
}
