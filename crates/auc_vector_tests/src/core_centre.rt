//! A centre on one thread by hand, call by call, through a caller of any centre.

ghost use Rattle.std.specs.Prelude.{◌≡◌, ◌≤◌, ◌<◌};
ghost use Rattle.auc_sqn.specs.Number.{max_seq};

use crate::vector::secret;
use auc_core::Core;
use auc_milenage::make_auts;
use auc_sqn::{MAX_SEQ, sqn_of};
use auc_vector::{
    Auts, Centre, CentreRefusal, CoreCentre, NumberNote, ResyncNote, Resynced, ask, read_auts,
    report,
};
use std::sync::Wait;

/// What a centre answers to an AUTS of one of its subscribers, which has 5 bits, or `None` if MAC-S is wrong.
fn hear<C: Centre, R: Wait>(
    rt: &R,
    centre: &mut C,
    sub: u32,
    auts: [u8; 14],
) -> Option<Result<Resynced, CentreRefusal>>
    requires sub { sub < C.subs centre.old }
    requires top { C.top centre.old sub ≡ max_seq }
    ensures subs { C.subs centre.new ≡ C.subs centre.old }
    ensures top { C.top centre.new sub ≡ max_seq }
{
    match read_auts(&secret(), [7; 16], auts, 5) {
        Auts::SeqMs(seq_ms) => Some(centre.resync(rt, sub, seq_ms)),
        Auts::WrongMac => None,
    }
}

// By hand, with a range of 2^28 below the number.
#[test]
fn a_replayed_auts_moves_the_number_once(rt: HostRuntime) {
    let mut centre = CoreCentre::new(Core::new(rt.alloc(), &[10, 10], &[MAX_SEQ, MAX_SEQ]).expect(
        &rt, "memory",
    ));
    let in_range = |seen, seq| Some(Ok(Resynced::InRange(seen, seq)));
    let moved = |from, to| Some(Ok(Resynced::Moved(from, to)));
    let cases = [
        (0, in_range(10, 0)),
        (500, moved(10, 500)),
        (500, in_range(500, 500)),
        (499, in_range(500, 499)),
        (MAX_SEQ, moved(500, MAX_SEQ)),
        (MAX_SEQ, in_range(MAX_SEQ, MAX_SEQ)),
        (0, Some(Err(CentreRefusal::Beyond(MAX_SEQ, 0)))),
    ];
    for (seq, answer) in cases {
        let auts = make_auts(&secret(), [7; 16], sqn_of(seq, 5));
        assert!(rt; hear(&rt, &mut centre, 1, auts) == answer, "at {seq}");
    }
    assert!(rt; (centre.word(0), centre.word(1)) == (10, MAX_SEQ));
}

/// The answers to two draws of one subscriber, to a resynchronisation with the greatest number, and to one more draw.
fn spend<C: Centre, R: Wait>(
    rt: &R,
    centre: &mut C,
) -> (
    [Result<u64, CentreRefusal>; 3],
    Result<Resynced, CentreRefusal>,
)
    requires sub { 0 < C.subs centre.old }
    requires top { C.top centre.old 0 ≡ max_seq }
    ensures subs { C.subs centre.new ≡ C.subs centre.old }
{
    let first = centre.next(rt, 0);
    let second = centre.next(rt, 0);
    let resynced = centre.resync(rt, 0, MAX_SEQ);
    ([first, second, centre.next(rt, 0)], resynced)
}

// By hand: one number is left.
#[test]
fn a_spent_subscriber_keeps_its_word(rt: HostRuntime) {
    let core = Core::new(rt.alloc(), &[MAX_SEQ - 1], &[MAX_SEQ]);
    let mut centre = CoreCentre::new(core.expect(&rt, "memory"));
    let spent = Err(CentreRefusal::Exhausted(MAX_SEQ));
    let in_range = Ok(Resynced::InRange(MAX_SEQ, MAX_SEQ));
    assert!(rt; spend(&rt, &mut centre) == ([Ok(MAX_SEQ), spent, spent], in_range));
    assert!(rt; centre.word(0) == MAX_SEQ + 1);
}

/// The answers to two draws of the first subscriber and one of the second, to a resynchronisation of each, and to one more
/// draw of the second.
fn serve_two<C: Centre, R: Wait>(
    rt: &R,
    centre: &mut C,
) -> (
    [Result<u64, CentreRefusal>; 4],
    [Result<Resynced, CentreRefusal>; 2],
)
    requires subs { 1 < C.subs centre.old }
    requires tops { (11 ≤ C.top centre.old 0) × (500 ≤ C.top centre.old 1) }
    ensures subs { C.subs centre.new ≡ C.subs centre.old }
{
    let first = centre.next(rt, 0);
    let second = centre.next(rt, 0);
    let third = centre.next(rt, 1);
    let resynced = [centre.resync(rt, 0, 11), centre.resync(rt, 1, 500)];
    ([first, second, third, centre.next(rt, 1)], resynced)
}

// By hand: the greatest numbers are 11 and 500.
#[test]
fn each_subscriber_of_a_centre_has_its_own_greatest_number(rt: HostRuntime) {
    let core = Core::new(rt.alloc(), &[10, 10], &[11, 500]);
    let mut centre = CoreCentre::new(core.expect(&rt, "memory"));
    let spent = |n| Err(CentreRefusal::Exhausted(n));
    let drawn = [Ok(11), spent(11), Ok(11), spent(500)];
    let resynced = [Ok(Resynced::InRange(11, 11)), Ok(Resynced::Moved(11, 500))];
    assert!(rt; serve_two(&rt, &mut centre) == (drawn, resynced));
    assert!(rt; (centre.word(0), centre.word(1)) == (12, 501));
}

#[test]
fn an_auts_with_one_bit_turned_over_moves_nothing(rt: HostRuntime) {
    let mut centre = CoreCentre::new(Core::new(rt.alloc(), &[10], &[MAX_SEQ]).expect(
        &rt, "memory",
    ));
    for byte in 0..14 {
        for bit in [1, 2, 4, 8, 16, 32, 64, 128] {
            let mut auts = make_auts(&secret(), [7; 16], sqn_of(500, 5));
            auts[byte] ^= bit;
            assert!(rt;
                hear(&rt, &mut centre, 0, auts) == None,
                "at bit {bit} of byte {byte}"
            );
        }
    }
    assert!(rt; centre.word(0) == 10);
}

/// The notes of a draw, of two reports, of a draw and of a report.
fn notes_of<C: Centre, R: Wait>(rt: &R, centre: &mut C) -> ([NumberNote; 2], [ResyncNote; 3])
    requires sub { 0 < C.subs centre.old }
    requires top { C.top centre.old 0 ≡ max_seq }
{
    let drawn = ask(rt, centre, 0);
    let in_range = report(rt, centre, 0, 3);
    let moved = report(rt, centre, 0, MAX_SEQ);
    let refused = ask(rt, centre, 0);
    (
        [drawn, refused],
        [in_range, moved, report(rt, centre, 0, 5)],
    )
}

// By hand: a draw, a report that is in range, one that moves the number to the last, and a draw that is refused.
#[test]
fn notes_name_the_answers_of_a_centre(rt: HostRuntime) {
    let core = Core::new(rt.alloc(), &[10], &[MAX_SEQ]);
    let mut centre = CoreCentre::new(core.expect(&rt, "memory"));
    let drawn = [NumberNote::Drew(11), NumberNote::Exhausted(MAX_SEQ)];
    let reported = [
        ResyncNote::InRange(11, 3),
        ResyncNote::Moved(11, MAX_SEQ),
        ResyncNote::Beyond(MAX_SEQ, 5),
    ];
    assert!(rt; notes_of(&rt, &mut centre) == (drawn, reported));
}
