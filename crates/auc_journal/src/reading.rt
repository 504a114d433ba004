//! Reading a journal's bytes.

ghost use Rattle.std.specs.Prelude.{◌≡◌, ◌≢◌, ◌≤◌, ◌<◌, ◌+◌, ◌*◌, ◌^◌, [], ◌∷◌, ℕ, true, false, length, take, drop, Ok, Err, None, IfOk, IfSome, OnOk};
ghost use Rattle.std.specs.Option.{is_some};
ghost use Rattle.std.specs.Str.{bytes_eq};
ghost use Rattle.auc_journal.specs.Image.{are_entries, count_in, entries_in, entry_in, first_in, header, is_body, is_frame, is_kind, kind_in, read_frames, read_image};
ghost use Rattle.auc_journal.specs.InnerLookup.{raised_all};
ghost use Rattle.auc_journal.specs.InnerOpening.{HasLimits};

use crate::limit::Limit;
use crate::limit_list::LimitList;
use crate::open_why::OpenWhy;
use auc_memory::Imsi;
use auc_sqn::MAX_SEQ;

// How many bytes a journal has at most.
pub(crate) const MOST: u64 = 1073741824;

// Reads a file that isn't empty: raises the limits by its frames, and answers the place where their reading
// ended.
pub(crate) fn read_file(bytes: &[u8], limits: &mut LimitList) -> Result<usize, OpenWhy>
    requires fresh { limits.old.written ≡ [] }
    requires size { (1 ≤ length bytes.now) × (length bytes.now ≤ 2 ^ 30) }

    ensures read { IfOk result (λ end. HasLimits limits.new.written end (read_image bytes.now)) }
    ensures room { IfOk result (λ end. end + 1 ≤ 2 ^ 30) }
    ensures wrong { (place : ℕ) → result ≡ Err (OpenWhy.NotJournal place) → read_image bytes.now ≡ Err place }
    ensures fault { result ≢ Err OpenWhy.StoreFault }
{
    if !has_header(bytes) {
        return Err(OpenWhy::NotJournal(0));
    }
    if bytes.len() <= 17 {
        return Ok(16);
    }
    let end = read_frames(bytes, limits)?;
    if end as u64 == MOST {
        return Err(OpenWhy::NotJournal(MOST));
    }
    Ok(end)
}

// Whether a file begins with the header.
pub(crate) fn has_header(bytes: &[u8]) -> bool
    ensures { result ≡ bytes_eq (take 16 bytes.now) header }
{
    let front = &bytes[..bytes.len().min(16)];
    front == b"AUC-SQN-JOURNAL1".as_slice()
}

// Whether 00 stands at a place.
pub(crate) fn is_closed(bytes: &[u8], place: usize) -> bool
    ensures closed { result ≡ true → take 1 (drop place bytes.now) ≡ 0 ∷ [] }
    ensures other { result ≡ false → take 1 (drop place bytes.now) ≢ 0 ∷ [] }
{
    place < bytes.len() && bytes[place] == 0
}

// Raises the limits by the frames after a header, and answers the place where their reading ended.
fn read_frames(bytes: &[u8], limits: &mut LimitList) -> Result<usize, OpenWhy>
    requires fresh { limits.old.written ≡ [] }
    requires header { 16 ≤ length bytes.now }

    ensures read { IfOk result (λ end. HasLimits limits.new.written end (read_frames 0 16 (drop 16 bytes.now))) }
    ensures within { IfOk result (λ end. end ≤ length bytes.now) }
    ensures wrong { (place : ℕ) → result ≡ Err (OpenWhy.NotJournal place)
        → read_frames 0 16 (drop 16 bytes.now) ≡ Err place }
    ensures fault { result ≢ Err OpenWhy.StoreFault }
{
    let mut at = 16;
    while at < bytes.len() && bytes[at] == 1 {
        let rest = &bytes[at + 1..];
        let Some(body) = body_at(rest) else {
            return Err(OpenWhy::NotJournal(at as u64));
        };
        raise_all(&rest[body.first..], body.count, limits)?;
        at += 1 + body.first + 17 * body.count;
    }
    Ok(at)
}

// Where the entries of a body begin, and how many there are.
#[derive(Clone, Copy)]
struct Body {
    first: usize,
    count: usize,
}

// The body that some bytes begin with, or `None` if there is none.
fn body_at(rest: &[u8]) -> Option<Body>
    ensures value { IfSome result (λ body. (body.first ≡ first_in rest.now) × (body.count ≡ count_in rest.now)) }
    ensures exact { is_some result ≡ is_body rest.now }
{
    let body = body_named(rest)?;
    if rest.len() < body.first + 17 * body.count {
        return None;
    }
    if are_frames(&rest[body.first..], body.count) {
        Some(body)
    } else {
        None
    }
}

// The body that the kind and the count name, or `None` if there is no such kind or count.
fn body_named(rest: &[u8]) -> Option<Body>
    ensures value { IfSome result (λ body. (body.first ≡ first_in rest.now) × (body.count ≡ count_in rest.now)
        × (is_kind (kind_in rest.now) (count_in rest.now) ≡ true)) }
    ensures small { IfSome result (λ body. (body.first ≤ 3) × (body.count ≤ 256)) }
    ensures none { result ≡ None → is_body rest.now ≡ false }
{
    if rest.is_empty() {
        return None;
    }
    if rest[0] == 1 {
        return Some(Body { first: 1, count: 1 });
    }
    if rest[0] != 2 || rest.len() < 3 {
        return None;
    }
    let count = u16::from_be_bytes([rest[1], rest[2]]);
    if count < 2 || count > 256 {
        return None;
    }
    Some(Body {
        first: 3,
        count: count as usize,
    })
}

// Whether so many entries are frames'.
fn are_frames(entries: &[u8], count: usize) -> bool
    requires { (17 * count ≤ length entries.now) × (count ≤ 256) }
    ensures { result ≡ are_entries count entries.now }
{
    let mut rest = entries;
    for _ in 0..count {
        let (entry, more) = rest.split_at(17);
        if !is_entry(entry) {
            return false;
        }
        rest = more;
    }
    true
}

// Whether an entry is a frame's.
fn is_entry(entry: &[u8]) -> bool
    requires { length entry.now ≡ 17 }
    ensures { result ≡ is_frame (entry_in entry.now) }
{
    frame_of(entry).is_some()
}

// Raises the limits by so many entries.
fn raise_all(entries: &[u8], count: usize, limits: &mut LimitList) -> Result<(), OpenWhy>
    requires size { (17 * count ≤ length entries.now) × (count ≤ 256) }
    requires frames { are_entries count entries.now ≡ true }
    ensures raised { OnOk result (limits.new.written ≡ raised_all limits.old.written (entries_in count entries.now)) }
    ensures wrong { (place : ℕ) → result ≢ Err (OpenWhy.NotJournal place) }
    ensures fault { result ≢ Err OpenWhy.StoreFault }
{
    let mut rest = entries;
    for _ in 0..count {
        let (entry, more) = rest.split_at(17);
        if let Some(frame) = frame_of(entry) {
            limits.raise(frame.imsi, frame.limit)?;
        }
        rest = more;
    }
    Ok(())
}

// The frame that an entry says, or `None` if it is none.
fn frame_of(entry: &[u8]) -> Option<Limit>
    requires { length entry.now ≡ 17 }
    ensures value { IfSome result (λ frame. frame ≡ entry_in entry.now) }
    ensures exact { is_some result ≡ is_frame (entry_in entry.now) }
{
    let [digits, a, b, c, d, e, f, g, h, i, j, k, l, m, n, o, p] = entry else {
        return None;
    };
    let number = u64::from_be_bytes([*a, *b, *c, *d, *e, *f, *g, *h]);
    let limit = u64::from_be_bytes([*i, *j, *k, *l, *m, *n, *o, *p]);
    if limit < 1 || limit > MAX_SEQ {
        return None;
    }
    let imsi = Imsi::of(*digits, number)?;
    Some(Limit { imsi, limit })
}
