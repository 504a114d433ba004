//! Sites and their master over a centre, call by call.

ghost use Rattle.std.specs.Prelude.{◌≡◌, ◌<◌, ◌≤◌, length};
ghost use Rattle.auc_sqn.specs.Number.{max_seq};

use auc_core::Core;
use auc_sites::{
    Grant, Judged, LEASE_SIZE, Lease, Master, Reply, Request, Site, Taken, each_run_hands_out_once,
};
use auc_sqn::MAX_SEQ;
use auc_vector::{CentreRefusal, CoreCentre};
use std::alloc::Global;
use std::process::Abort;
use std::sync::Wait;

/// What a reply tells beside its grant.
#[derive(Clone, Copy, PartialEq, Eq)]
enum Told {
    Granted,
    Again,
    Old(Request),
    Refused(CentreRefusal),
}

/// A centre of one subscriber, whose number stands here.
fn centre_at<R: Abort>(rt: &R, alloc: Global, number: u64) -> CoreCentre
    requires { number ≤ max_seq }
    ensures { length result.words ≡ 1 }
{
    CoreCentre::new(Core::new(alloc, &[number], &[MAX_SEQ]).expect(rt, "memory"))
}

/// A new request of a site.
fn ask<R: Abort>(rt: &R, site: &mut Site) -> Request {
    assert!(rt; site.can_ask());
    site.ask()
}

/// The reply to a request, for which up to four numbers are drawn: what it tells, and its grant, or one of no number.
fn answer<R: Abort + Wait>(
    rt: &R,
    master: &mut Master,
    centre: &mut CoreCentre,
    r: Request,
) -> (Told, Grant)
    requires { 0 < length centre.old.words }
    ensures { length centre.new.words ≡ length centre.old.words }
{
    assert!(rt; master.has_site(r.site));
    match master.on_request(rt, centre, 0, 4, r) {
        Reply::Granted(grant) => (Told::Granted, grant),
        Reply::Again(grant) => (Told::Again, grant),
        Reply::Old(last) => (Told::Old(last), none_for(r)),
        Reply::Refused(why) => (Told::Refused(why), none_for(r)),
    }
}

/// A grant of no number.
fn none_for(request: Request) -> Grant {
    Grant {
        request,
        lease: Lease::new(),
    }
}

/// The numbers of a lease of at most four, and then zeros.
fn numbers_of(lease: &Lease) -> [u64; 4] {
    let mut numbers = [0; 4];
    for i in 0..4 {
        if i < lease.len() {
            numbers[i as usize] = lease.number(i);
        }
    }
    numbers
}

/// A reply that grants the first four numbers.
const FIRST_FOUR: (Told, [u64; 4]) = (Told::Granted, [1, 2, 3, 4]);

/// A reply that grants the four numbers after them.
const NEXT_FOUR: (Told, [u64; 4]) = (Told::Granted, [5, 6, 7, 8]);

/// The grant of a reply to a request, which has to tell this and to have these numbers.
fn grant_of<R: Abort + Wait>(
    rt: &R,
    master: &mut Master,
    centre: &mut CoreCentre,
    r: Request,
    expected: (Told, [u64; 4]),
) -> Grant
    requires { 0 < length centre.old.words }
    ensures { length centre.new.words ≡ length centre.old.words }
{
    let (told, grant) = answer(rt, master, centre, r);
    assert!(rt; (told, numbers_of(&grant.lease)) == expected);
    grant
}

/// What the reply to a request tells beside its grant.
fn told_of<R: Abort + Wait>(
    rt: &R,
    master: &mut Master,
    centre: &mut CoreCentre,
    r: Request,
) -> Told
    requires { 0 < length centre.old.words }
    ensures { length centre.new.words ≡ length centre.old.words }
{
    let (told, _) = answer(rt, master, centre, r);
    told
}

/// What two sites answer to their grants and then draw, the second site first; and what the first one answers to a restart,
/// to a draw and to its grant after that.
fn hand_out(
    first: &mut Site,
    second: &mut Site,
    to_first: &Grant,
    to_second: &Grant,
) -> ([Taken; 3], [Option<u64>; 3], bool) {
    let by_second = second.on_grant(to_second);
    let of_second = second.draw();
    let by_first = first.on_grant(to_first);
    let of_first = first.draw();
    let restarted = first.restart();
    let after = first.draw();
    let again = first.on_grant(to_first);
    (
        [by_second, by_first, again],
        [of_second, of_first, after],
        restarted,
    )
}

// By hand: site 1 asks before site 2, takes its grant after it, and restarts.
#[test]
fn sites_hand_out_the_numbers_of_their_own_grants(rt: HostRuntime) {
    each_run_hands_out_once::<CoreCentre>();
    let (mut first, mut second) = (Site::new(1, 1), Site::new(2, 1));
    let mut centre = centre_at(&rt, rt.alloc(), 0);
    let mut master = Master::new(rt.alloc(), 2).expect(&rt, "memory");
    let asked = ask(&rt, &mut first);
    let to_first = grant_of(&rt, &mut master, &mut centre, asked, FIRST_FOUR);
    let asked = ask(&rt, &mut second);
    let to_second = grant_of(&rt, &mut master, &mut centre, asked, NEXT_FOUR);
    let found = hand_out(&mut first, &mut second, &to_first, &to_second);
    let taken = [Taken::Taken(4), Taken::Taken(4), Taken::NotMine(None)];
    assert!(rt; found == (taken, [Some(5), Some(1), None], true));
    assert!(rt; centre.word(0) == 8);
}

/// What a site answers to a grant, what it draws then, and what it answers to another grant.
fn take_both(site: &mut Site, grant: &Grant, other: &Grant) -> (Taken, Option<u64>, Taken) {
    let taken = site.on_grant(grant);
    let drawn = site.draw();
    (taken, drawn, site.on_grant(other))
}

// By hand: the request comes twice before the master restarts, and once after it.
#[test]
fn repeated_request_has_one_grant_until_the_master_restarts(rt: HostRuntime) {
    let mut site = Site::new(1, 1);
    let mut centre = centre_at(&rt, rt.alloc(), 0);
    let mut master = Master::new(rt.alloc(), 1).expect(&rt, "memory");
    let asked = ask(&rt, &mut site);
    let grant = grant_of(&rt, &mut master, &mut centre, asked, FIRST_FOUR);
    let again = (Told::Again, [1, 2, 3, 4]);
    grant_of(&rt, &mut master, &mut centre, asked, again);
    master.restart();
    let anew = grant_of(&rt, &mut master, &mut centre, asked, NEXT_FOUR);
    let found = take_both(&mut site, &anew, &grant);
    assert!(rt; found == (Taken::Taken(4), Some(5), Taken::NotMine(None)));
    assert!(rt; centre.word(0) == 8);
}

// By hand: the older of two requests, before and after the master restarts. The site waits for the newer one.
#[test]
fn old_request_draws_again_after_a_restart_and_its_grant_is_not_taken(rt: HostRuntime) {
    let mut site = Site::new(1, 7);
    let mut centre = centre_at(&rt, rt.alloc(), 0);
    let mut master = Master::new(rt.alloc(), 1).expect(&rt, "memory");
    let older = ask(&rt, &mut site);
    let newer = ask(&rt, &mut site);
    let grant = grant_of(&rt, &mut master, &mut centre, newer, FIRST_FOUR);
    assert!(rt; told_of(&rt, &mut master, &mut centre, older) == Told::Old(newer));
    master.restart();
    let useless = grant_of(&rt, &mut master, &mut centre, older, NEXT_FOUR);
    let taken = [site.on_grant(&useless), site.on_grant(&grant)];
    assert!(rt; taken == [Taken::NotMine(Some(newer)), Taken::Taken(4)]);
    assert!(rt; centre.word(0) == 8);
}

/// What a site draws three times.
fn draw_thrice(site: &mut Site) -> [Option<u64>; 3] {
    [site.draw(), site.draw(), site.draw()]
}

// By hand: two numbers are left for a lease of four.
#[test]
fn lease_is_cut_short_by_the_last_number_and_then_none_is_granted(rt: HostRuntime) {
    let mut site = Site::new(1, 1);
    let mut centre = centre_at(&rt, rt.alloc(), MAX_SEQ - 2);
    let mut master = Master::new(rt.alloc(), 1).expect(&rt, "memory");
    let asked = ask(&rt, &mut site);
    let last = (Told::Granted, [MAX_SEQ - 1, MAX_SEQ, 0, 0]);
    let grant = grant_of(&rt, &mut master, &mut centre, asked, last);
    assert!(rt; site.on_grant(&grant) == Taken::Taken(2));
    let asked = ask(&rt, &mut site);
    let told = told_of(&rt, &mut master, &mut centre, asked);
    let again = told_of(&rt, &mut master, &mut centre, asked);
    let spent = Told::Refused(CentreRefusal::Exhausted(MAX_SEQ));
    assert!(rt; [told, again] == [spent, spent]);
    assert!(rt; site.outstanding() == Some(asked));
    assert!(rt; draw_thrice(&mut site) == [Some(MAX_SEQ - 1), Some(MAX_SEQ), None]);
}

/// A lease of these numbers.
fn lease_of(rt: &impl Abort, numbers: [u64; 2]) -> Lease {
    let mut lease = Lease::new();
    for n in numbers {
        assert!(rt; lease.can_push(n));
        lease.push(n);
    }
    lease
}

/// A master's grant of a lease to a new request, which it judges before and after that.
fn granted(rt: &impl Abort, master: &mut Master, asked: Request, lease: Lease) -> Grant {
    assert!(rt; master.has_site(1));
    assert!(rt; asked.site == 1);
    assert!(rt; matches!(master.judge(asked), Judged::New));
    let grant = master.grant(asked, lease);
    assert!(rt; matches!(master.judge(asked), Judged::Again(_)));
    grant
}

/// What a site answers to a grant that comes twice; and what it draws once between the two, and twice after them.
fn take_twice(site: &mut Site, grant: &Grant) -> ([Taken; 2], [Option<u64>; 3]) {
    let taken = site.on_grant(grant);
    let drawn = site.draw();
    let again = site.on_grant(grant);
    ([taken, again], [drawn, site.draw(), site.draw()])
}

// By hand: a grant of the numbers 3 and 7, which is made without a centre.
#[test]
fn grant_that_comes_twice_is_taken_once(rt: HostRuntime) {
    let mut site = Site::new(1, 1);
    let mut master = Master::new(rt.alloc(), 1).expect(&rt, "memory");
    let asked = ask(&rt, &mut site);
    let grant = granted(&rt, &mut master, asked, lease_of(&rt, [3, 7]));
    let taken = [Taken::Taken(2), Taken::NotMine(None)];
    assert!(rt; take_twice(&mut site, &grant) == (taken, [Some(3), Some(7), None]));
}

// By hand: numbers that a lease refuses.
#[test]
fn lease_takes_rising_numbers_and_no_more_than_it_has_room_for(rt: HostRuntime) {
    let mut lease = Lease::new();
    assert!(rt; lease.is_empty());
    for n in 0..LEASE_SIZE {
        assert!(rt; lease.can_push(u64::from(n)), "at {n}");
        lease.push(u64::from(n));
        assert!(rt; !lease.can_push(u64::from(n)), "at {n} again");
    }
    assert!(rt; !lease.can_push(MAX_SEQ));
    assert!(rt; lease.len() == LEASE_SIZE);
}
