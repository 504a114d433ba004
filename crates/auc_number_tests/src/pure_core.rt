//! The core, event by event.

ghost use Rattle.std.specs.Prelude.{◌≡◌, ◌<◌, ◌≤◌, ℕ, All, length, slice_index};
ghost use Rattle.auc_sqn.specs.Number.{max_seq};

use auc_core::{Core, Event, Reply};
use auc_sqn::MAX_SEQ;
use std::alloc::Global;
use std::process::Abort;

/// A core of which each subscriber stands at its number, and has its greatest one.
fn core_of(rt: &impl Abort, alloc: Global, openings: &[u64], tops: &[u64]) -> Core
    requires count { length openings.now ≤ 65536 }
    requires each { length tops.now ≡ length openings.now }
    requires tops { All (λ top. top ≤ max_seq) tops.now }
    requires numbers { (sub : ℕ) → sub < length openings.now
        → slice_index openings.now sub ≤ slice_index tops.now sub }
    ensures { result ≡ record { words = openings.now; tops = tops.now } }
{
    match Core::new(alloc, openings, tops) {
        Ok(core) => core,
        Err(_) => panic!(rt; "no memory"),
    }
}

/// The answers to draws of the two subscribers of a core, and their words after them.
fn five_draws(mut core: Core) -> ([Reply; 5], (u64, u64))
    requires { 1 < length core.words }
{
    let replies = [
        core.apply(Event::Draw(0)),
        core.apply(Event::Draw(1)),
        core.apply(Event::Draw(1)),
        core.apply(Event::Draw(1)),
        core.apply(Event::Draw(0)),
    ];
    (replies, (core.word(0), core.word(1)))
}

const FIVE_DRAWS: [Reply; 5] = [
    Reply::Number(11),
    Reply::Number(MAX_SEQ),
    Reply::Exhausted(MAX_SEQ),
    Reply::Exhausted(MAX_SEQ),
    Reply::Number(12),
];

// By hand: two subscribers, the second one number short of its greatest.
#[test]
fn each_subscriber_draws_its_own_numbers_to_the_greatest(rt: HostRuntime) {
    let core = core_of(&rt, rt.alloc(), &[10, MAX_SEQ - 1], &[MAX_SEQ, MAX_SEQ]);
    let (replies, words) = five_draws(core);
    assert!(rt; replies == FIVE_DRAWS);
    assert!(rt; words == (12, MAX_SEQ + 1));
}

/// The answers to draws and resynchronisations of the three subscribers of a core, and their words after them.
fn seven_events(mut core: Core) -> ([Reply; 7], (u64, u64, u64))
    requires subs { 2 < length core.words }
    requires top { 12 ≤ slice_index core.tops 0 }
{
    let replies = [
        core.apply(Event::Draw(0)),
        core.apply(Event::Resync(0, 12)),
        core.apply(Event::Draw(0)),
        core.apply(Event::Resync(0, 12)),
        core.apply(Event::Draw(1)),
        core.apply(Event::Draw(2)),
        core.apply(Event::Resync(2, 0)),
    ];
    (replies, (core.word(0), core.word(1), core.word(2)))
}

const SEVEN_EVENTS: [Reply; 7] = [
    Reply::Number(12),
    Reply::InRange(12, 12),
    Reply::Exhausted(12),
    Reply::InRange(12, 12),
    Reply::Exhausted(3),
    Reply::Exhausted(0),
    Reply::InRange(0, 0),
];

// By hand: the greatest numbers are 12, 3 and 0, so that the second and the third subscriber have none left.
#[test]
fn each_subscriber_has_its_own_greatest_number(rt: HostRuntime) {
    let core = core_of(&rt, rt.alloc(), &[11, 3, 0], &[12, 3, 0]);
    let (replies, words) = seven_events(core);
    assert!(rt; replies == SEVEN_EVENTS);
    assert!(rt; words == (13, 4, 1));
}

/// The answer to a resynchronisation.
fn resync(core: &mut Core, sub: u32, seq_ms: u64) -> Reply
    requires sub { sub < length core.old.words }
    requires number { seq_ms ≤ slice_index core.old.tops sub }
    ensures words { length core.new.words ≡ length core.old.words }
    ensures tops { core.new.tops ≡ core.old.tops }
{
    core.apply(Event::Resync(sub, seq_ms))
}

// TS 33.102 §6.3.5 and Annex C.2.1 with a range of 2^28 = 268435456; the sums are by hand: 268435456 + 1 - 1 is
// in range, and 268435456 + 1 - 0 isn't. Subscriber, SEQ, reply, the subscriber's word after it.
#[test]
fn a_resynchronisation_moves_the_number_up_and_never_back(rt: HostRuntime) {
    let alloc = rt.alloc();
    let mut core = core_of(&rt, alloc, &[0, 268435456, MAX_SEQ], &[MAX_SEQ; 3]);
    assert!(rt; core.apply(Event::Draw(2)) == Reply::Exhausted(MAX_SEQ));
    let cases = [
        (0, 700, Reply::Moved(0, 700), 700),
        (0, 700, Reply::InRange(700, 700), 700),
        (0, 699, Reply::InRange(700, 699), 700),
        (0, 701, Reply::Moved(700, 701), 701),
        (1, 1, Reply::InRange(268435456, 1), 268435456),
        (1, 0, Reply::Beyond(268435456, 0), 268435456),
        (2, MAX_SEQ, Reply::InRange(MAX_SEQ, MAX_SEQ), MAX_SEQ + 1),
        (2, 0, Reply::Beyond(MAX_SEQ, 0), MAX_SEQ + 1),
    ];
    for (sub, seq_ms, reply, word) in cases {
        assert!(rt; sub < 3 && seq_ms <= MAX_SEQ);
        assert!(rt;
            (resync(&mut core, sub, seq_ms), core.word(sub)) == (reply, word),
            "of {sub} at {seq_ms}"
        );
    }
}
