//! Some of a round's subscribers by themselves.

ghost use Rattle.std.specs.Prelude.{All, IsTrue};
ghost use Rattle.auc_cards.specs.Known.{AreKnown, IsKnownLine};

use crate::printing::{drew, names_below, one, subscribers_of};
use auc_lines::{JobPart, Line, Report};
use auc_memory::{Imsi, Items, Stop};
use auc_named::{Named, are_plain, name};
use auc_record::{Closing, JobRecord, LineRecord, Premise, RoundRecord};
use auc_subs::Subscribers;
use auc_vector::{NumberNote, ResyncNote};
use std::alloc::Global;
use std::process::Abort;

// Three subscribers.
const SUBSCRIBERS: [&[u8]; 3] = [
    b"001010000000001 465b5ce8b199b49faa5f0a2ee238a6bc opc cd63cb71954a9f4e48a5994e37a02baf 8000 0 0",
    b"001010000000002 465b5ce8b199b49faa5f0a2ee238a6bc opc cd63cb71954a9f4e48a5994e37a02baf 8000 0 0",
    b"001010000000003 465b5ce8b199b49faa5f0a2ee238a6bc opc cd63cb71954a9f4e48a5994e37a02baf 8000 0 0",
];

// A line that hands over an AUTS as it came.
fn as_it_came(sub: u32) -> Line {
    let report = Report::Auts {
        auts: [0; 14],
        rand: [0; 16],
    };
    Line::Sync {
        sub,
        report,
        count: 4,
    }
}

// A line that hands over the AUTS of a SEQ.
fn of_a_seq(sub: u32) -> Line {
    let report = Report::Seq { seq: 7, bit: None };
    Line::Sync {
        sub,
        report,
        count: 0,
    }
}

// The third subscriber draws, then the first; in the second job an AUTS of the third comes.
fn jobs(rt: &impl Abort, alloc: Global) -> Items<JobPart> {
    let mut first = one(rt, alloc, Line::Draw { sub: 2, count: 5 });
    first
        .push(Line::Draw { sub: 0, count: 6 })
        .expect(rt, "memory");
    let mut jobs = one(rt, alloc, first);
    jobs.push(one(rt, alloc, as_it_came(2)))
        .expect(rt, "memory");
    jobs
}

// Whether a job of this line besides those is plain.
fn are_plain_with(rt: &impl Abort, alloc: Global, line: Line) -> bool {
    let mut all = jobs(rt, alloc);
    all.push(one(rt, alloc, line)).expect(rt, "memory");
    are_plain(all.as_slice())
}

#[test]
fn draws_and_auts_as_they_came_are_plain(rt: HostRuntime) {
    let alloc = rt.alloc();
    let eps = Line::Eps {
        sub: 1,
        snid: [0, 0xf1, 0x10],
    };
    let found = [
        are_plain_with(&rt, alloc, Line::Draw { sub: 1, count: 1 }),
        are_plain_with(&rt, alloc, as_it_came(1)),
        are_plain_with(&rt, alloc, of_a_seq(1)),
        are_plain_with(&rt, alloc, eps),
    ];
    assert!(rt; found == [true, true, false, false]);
}

// Whether a plain line is about one of the subscribers.
fn is_known(line: &Line, subs: &Subscribers) -> bool
    ensures { IsTrue result → IsKnownLine subs.now line.now }
{
    match *line {
        Line::Draw { sub, .. } => sub < subs.len(),
        Line::Sync {
            sub,
            report: Report::Auts { .. },
            ..
        } => sub < subs.len(),
        _ => false,
    }
}

fn is_known_job(job: &[Line], subs: &Subscribers) -> bool
    ensures { IsTrue result → AreKnown subs.now job.now }
{
    job.iter().all(|line| is_known(line, subs))
}

fn are_known(jobs: &[JobPart], subs: &Subscribers) -> bool
    ensures { IsTrue result → All (AreKnown subs.now) jobs.now }
{
    jobs.iter().all(|job| is_known_job(job.as_slice(), subs))
}

// The subscribers that the jobs name.
fn named(rt: &impl Abort, alloc: Global) -> Named {
    let subs = subscribers_of(rt, alloc, &SUBSCRIBERS);
    let jobs = jobs(rt, alloc);
    assert!(rt; are_known(jobs.as_slice(), &subs));
    assert!(rt; are_plain(jobs.as_slice()));
    name(alloc, &subs, jobs.as_slice()).expect(rt, "memory")
}

// The identities of two rows, if there are two.
fn rows(subs: &Subscribers) -> Option<[Imsi; 2]> {
    if subs.len() != 2 {
        return None;
    }
    Some([subs.row(0).imsi, subs.row(1).imsi])
}

// Whether a line draws, its subscriber, and for how many vectors it asks.
type LineValue = (bool, u32, u32);

fn line_value(line: &Line) -> LineValue {
    match *line {
        Line::Draw { sub, count } => (true, sub, count),
        Line::Sync { sub, count, .. } => (false, sub, count),
        _ => (false, 0, 0),
    }
}

// The lines of two jobs, if the first one has two and the second one has one.
fn lines(jobs: &[JobPart]) -> Option<[LineValue; 3]> {
    let [front, back] = jobs else {
        return None;
    };
    let [first, second] = front.as_slice() else {
        return None;
    };
    let [third] = back.as_slice() else {
        return None;
    };
    Some([line_value(first), line_value(second), line_value(third)])
}

// Whether the identities of the named subscribers are these.
fn are_imsis(rt: &impl Abort, alloc: Global, named: &Named, imsis: [Imsi; 2]) -> bool {
    let found = named.imsis(alloc).expect(rt, "memory");
    found.as_slice() == imsis.as_slice()
}

// Whether the named subscribers have these places and these rows, and the jobs over them have these lines.
fn is_named(
    rt: &impl Abort,
    alloc: Global,
    places: [u32; 2],
    imsis: [Imsi; 2],
    values: [LineValue; 3],
) -> bool {
    let named = named(rt, alloc);
    named.places() == places.as_slice()
        && rows(named.subs()) == Some(imsis)
        && are_imsis(rt, alloc, &named, imsis)
        && lines(named.jobs()) == Some(values)
}

// By hand: the first subscriber and the third one have the places 0 and 1, and the lines name these.
#[test]
fn each_named_subscriber_has_one_place_in_the_order_of_all(rt: HostRuntime) {
    let first = Imsi::read(b"001010000000001").expect(&rt, "an IMSI");
    let third = Imsi::read(b"001010000000003").expect(&rt, "an IMSI");
    let values = [(true, 1, 5), (true, 0, 6), (false, 1, 4)];
    assert!(rt; is_named(&rt, rt.alloc(), [0, 2], [first, third], values));
}

// The records of two jobs over two subscribers.
fn records(rt: &impl Abort, alloc: Global) -> Items<JobRecord> {
    let mut first = one(rt, alloc, drew(1, 8));
    let withheld = LineRecord::Number {
        sub: 0,
        note: NumberNote::Withheld(9, Stop::Fault),
    };
    first.push(withheld).expect(rt, "memory");
    let sync = LineRecord::Sync {
        sub: 1,
        note: ResyncNote::BadAuts,
    };
    let mut jobs = one(rt, alloc, first);
    jobs.push(one(rt, alloc, sync)).expect(rt, "memory");
    jobs
}

// A round over two subscribers.
fn round(rt: &impl Abort, alloc: Global) -> RoundRecord {
    let closing = Closing {
        sub: 1,
        first: 7,
        last: 8,
        drawn: 1,
        skipped: 0,
        released: 1,
        withheld: 0,
    };
    RoundRecord {
        number: 3,
        closings: one(rt, alloc, closing),
        sessions: Items::new(alloc),
        premise: Premise::NoSession,
        jobs: records(rt, alloc),
    }
}

// The round said of all subscribers.
fn round_of_all(rt: &impl Abort, alloc: Global) -> RoundRecord {
    let named = named(rt, alloc);
    let round = round(rt, alloc);
    assert!(rt; names_below(&round, named.places().len()));
    named.of_all(alloc, round).expect(rt, "memory")
}

// The subscriber of a record, and its number, or 0 if it has none.
fn record_value(record: &LineRecord) -> (Option<u32>, u64) {
    let n = match record.number_note() {
        Some(NumberNote::Drew(n) | NumberNote::Withheld(n, _)) => n,
        Some(NumberNote::Exhausted(_)) | None => 0,
    };
    (record.subscriber(), n)
}

// The records of two jobs, if the first one has two and the second one has one.
fn record_values(jobs: &[JobRecord]) -> Option<[(Option<u32>, u64); 3]> {
    let [front, back] = jobs else {
        return None;
    };
    let [first, second] = front.as_slice() else {
        return None;
    };
    let [third] = back.as_slice() else {
        return None;
    };
    Some([
        record_value(first),
        record_value(second),
        record_value(third),
    ])
}

// The subscriber and the last word of a closing, if there is one alone.
fn closing_value(closings: &[Closing]) -> Option<(u32, u64)> {
    let [closing] = closings else {
        return None;
    };
    Some((closing.sub, closing.last))
}

// Whether the round of all subscribers has these records and this closing.
fn is_of_all(
    rt: &impl Abort,
    alloc: Global,
    values: [(Option<u32>, u64); 3],
    closing: (u32, u64),
) -> bool {
    let round = round_of_all(rt, alloc);
    round.number == 3
        && record_values(round.jobs.as_slice()) == Some(values)
        && closing_value(round.closings.as_slice()) == Some(closing)
}

// By hand: place 0 is the first subscriber again, and place 1 the third.
#[test]
fn a_round_of_all_has_the_places_among_all(rt: HostRuntime) {
    let values = [(Some(2), 8), (Some(0), 9), (Some(2), 0)];
    assert!(rt; is_of_all(&rt, rt.alloc(), values, (2, 8)));
}
