//! The printed text of a round, for the tests of the text of a transcript.

ghost use Rattle.std.specs.Prelude.{◌≡◌, IsTrue, All, ◌<◌};
ghost use Rattle.auc_record.specs.Record.{IsBelow, NamesBelow, subscriber_of};
ghost use Rattle.auc_record.specs.Vectors.{IsReleasableLine};

use auc_ident::Names;
use auc_memory::{Items, Octets};
use auc_print::print_round;
use auc_random::Rands;
use auc_record::{
    BoxedFurther, Further, JobRecord, LineRecord, Premise, RoundRecord, Setting, printed_vectors,
};
use auc_sqn::top;
use auc_subs::Subscribers;
use auc_vector::NumberNote;
use std::alloc::Global;
use std::process::Abort;

// Whether each subscriber that a round names is one of so many.
pub(crate) fn names_below(round: &RoundRecord, count: usize) -> bool
    ensures { IsTrue result → NamesBelow count round.now }
{
    let jobs = round
        .jobs
        .as_slice()
        .iter()
        .all(|job| are_below(job.as_slice(), count));
    jobs && round
        .closings
        .as_slice()
        .iter()
        .all(|closing| (closing.sub as usize) < count)
}

fn are_below(job: &[LineRecord], count: usize) -> bool
    ensures { IsTrue result → All (λ line. IsBelow count (subscriber_of line)) job.now }
{
    job.iter().all(|line| is_below(line.subscriber(), count))
}

fn is_below(sub: Option<u32>, count: usize) -> bool
    ensures { IsTrue result → IsBelow count sub }
{
    match sub {
        Some(sub) => (sub as usize) < count,
        None => true,
    }
}

// Whether a line releases no vector, or one whose number a vector may have, of a subscriber of the setting.
fn is_releasable(line: &LineRecord, set: &Setting) -> bool
    ensures { IsTrue result → IsReleasableLine set.now line.now }
{
    match (line.subscriber(), line.number_note()) {
        (Some(sub), Some(NumberNote::Drew(n))) => {
            sub < set.subs.len() && 1 <= n && n <= top(set.subs.row(sub).bits)
        }
        _ => true,
    }
}

fn are_releasable(job: &[LineRecord], set: &Setting) -> bool
    ensures { IsTrue result → All (IsReleasableLine set.now) job.now }
{
    job.iter().all(|line| is_releasable(line, set))
}

// Appends the text of a round of this one record, and answers whether it is printable.
pub(crate) fn print_alone(
    rt: &impl Abort,
    alloc: Global,
    record: LineRecord,
    set: &Setting,
    out: &mut Octets,
) -> bool {
    print_one_job(
        rt,
        alloc,
        &round_of(rt, alloc, one(rt, alloc, record)),
        set,
        true,
        out,
    )
}

// A round of this one job.
fn round_of(rt: &impl Abort, alloc: Global, job: JobRecord) -> RoundRecord {
    RoundRecord {
        number: 8,
        closings: Items::new(alloc),
        sessions: Items::new(alloc),
        premise: Premise::NoSession,
        jobs: one(rt, alloc, job),
    }
}

fn print_one_job(
    rt: &impl Abort,
    alloc: Global,
    round: &RoundRecord,
    set: &Setting,
    full: bool,
    out: &mut Octets,
) -> bool {
    let [job] = round.jobs.as_slice() else {
        return false;
    };
    if !names_below(round, set.subs.len() as usize) || !are_releasable(job.as_slice(), set) {
        return false;
    }
    if full {
        let vectors = [printed_vectors(alloc, set, job.as_slice(), true).expect(rt, "memory")];
        print_round(round, &vectors, set, true, out).expect(rt, "memory");
    } else {
        print_round(round, &[], set, false, out).expect(rt, "memory");
    }
    true
}

// The record of a number that was drawn, and whose vector was released.
pub(crate) fn drew(sub: u32, n: u64) -> LineRecord {
    LineRecord::Number {
        sub,
        note: NumberNote::Drew(n),
    }
}

// A list of one record.
pub(crate) fn one<T: Drop>(rt: &impl Abort, alloc: Global, record: T) -> Items<T> {
    let mut list = Items::new(alloc);
    list.push(record).expect(rt, "memory");
    list
}

/// The key of the 32 bytes from 0 to 31.
pub(crate) fn rands() -> Rands {
    Rands::new([
        0, 1, 2, 3, 4, 5, 6, 7, 8, 9, 10, 11, 12, 13, 14, 15, 16, 17, 18, 19, 20, 21, 22, 23, 24,
        25, 26, 27, 28, 29, 30, 31,
    ])
}

const FIRST: &[u8] =
    b"001010000000001 465b5ce8b199b49faa5f0a2ee238a6bc opc cd63cb71954a9f4e48a5994e37a02baf 8000 0 0";

const SECOND: &[u8] =
    b"000007 465b5ce8b199b49faa5f0a2ee238a6bc opc cd63cb71954a9f4e48a5994e37a02baf 8000 0 0";

pub(crate) fn subscribers(rt: &impl Abort, alloc: Global) -> Subscribers {
    subscribers_of(rt, alloc, &[FIRST, SECOND])
}

// All lines are right, so an answer other than Ok is want of memory.
pub(crate) fn subscribers_of(rt: &impl Abort, alloc: Global, lines: &[&[u8]]) -> Subscribers {
    let mut subs = Subscribers::new(alloc);
    for line in lines {
        assert!(rt; subs.add(line).is_ok());
    }
    subs
}

// The text of a round of this one job, which has to be printable.
pub(crate) fn job_text(
    rt: &impl Abort,
    alloc: Global,
    subs: &Subscribers,
    job: JobRecord,
    full: bool,
) -> Octets {
    let rands = rands();
    let names = Names::new([0; 32]);
    let set = Setting {
        subs,
        rands: &rands,
        names: &names,
        realm: b"",
    };
    let mut text = Octets::new(alloc);
    let is_printed = print_one_job(rt, alloc, &round_of(rt, alloc, job), &set, full, &mut text);
    assert!(rt; is_printed);
    text
}

// The text that a round of a record has to have: its line, and the lines that a full print adds.
fn wanted_text(rt: &impl Abort, alloc: Global, lines: (&[u8], &[&[u8]]), full: bool) -> Octets {
    let (line, more) = lines;
    let mut wanted = Octets::copied_from(alloc, b"round 8\njob 1\n").expect(rt, "memory");
    wanted.append(line).expect(rt, "memory");
    if full {
        for added in more {
            wanted.append(added).expect(rt, "memory");
        }
    }
    wanted
}

// Whether the text of a round of a record is its line, and in a full print what it adds, too.
pub(crate) fn is_printed(
    rt: &impl Abort,
    alloc: Global,
    record: LineRecord,
    lines: (&[u8], &[&[u8]]),
    full: bool,
) -> bool {
    let subs = subscribers(rt, alloc);
    let text = job_text(rt, alloc, &subs, one(rt, alloc, record), full);
    text.as_slice() == wanted_text(rt, alloc, lines, full).as_slice()
}

// The same of a record of what follows from a vector, or of what happened at sites or in a session of EAP-SIM.
pub(crate) fn is_further_printed(
    rt: &impl Abort,
    alloc: Global,
    further: Further,
    lines: (&[u8], &[&[u8]]),
    full: bool,
) -> bool {
    let boxed = BoxedFurther::new(alloc, further).expect(rt, "memory");
    is_printed(rt, alloc, LineRecord::Further(boxed), lines, full)
}
