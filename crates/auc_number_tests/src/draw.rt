//! The shared words, step by step and from several threads.

ghost use Rattle.std.specs.Prelude.{◌≡◌, ◌<◌, ◌≤◌, All, length, slice_index, None};
ghost use Rattle.auc_draw.specs.Book.{IsOf};
ghost use Rattle.auc_draw.specs.Pass.{EndsAbove};

use auc_draw::{Book, Draw, Jump, KeeperPass, Pass, Release};
use auc_memory::Stop;
use auc_sqn::MAX_SEQ;
use std::alloc::Global;
use std::process::Abort;
use std::thread::{self, Threads};

/// The only pass of a book, as the list of all its passes.
fn all_passes(rt: &impl Abort, alloc: Global, book: &Book, pass: Pass) -> Vec<Pass>
    requires { IsOf book.now.id book.now.tops pass }
    ensures { All (IsOf book.now.id book.now.tops) result.items × (length result.items ≡ 1) }
{
    let mut passes = Vec::new(alloc);
    match passes.push(pass) {
        Ok(()) => passes,
        Err(_) => panic!(rt; "no memory"),
    }
}

/// What a pass answers to a draw, two jumps, four draws and a jump.
type Deeds = (Draw, [Jump; 2], [Draw; 4], Jump);

fn deeds(book: &Book, pass: &mut Pass) -> Deeds
    requires own { IsOf book.now.id book.now.tops pass.old }
    requires subs { 1 < length book.now.openings }
    requires tops { (20 ≤ slice_index book.now.tops 0) × (5 ≤ slice_index book.now.tops 1) }
    ensures own { IsOf book.now.id book.now.tops pass.new }
    ensures ended { pass.new.ended ≡ pass.old.ended }
{
    let first = pass.draw(book, 0);
    let jumps = [pass.jump(book, 0, 20), pass.jump(book, 0, 15)];
    let draws = [
        pass.draw(book, 0),
        pass.draw(book, 1),
        pass.draw(book, 1),
        pass.draw(book, 1),
    ];
    (first, jumps, draws, pass.jump(book, 1, 5))
}

/// What a pass answers to three claims of a job, of which there is one.
fn claims(book: &Book, pass: &mut Pass) -> [Option<u32>; 3]
    requires own { IsOf book.now.id book.now.tops pass.old }
    requires ended { EndsAbove 1 pass.old.ended }
    ensures { IsOf book.now.id book.now.tops pass.new }
{
    [
        pass.claim(book, 1),
        pass.claim(book, 1),
        pass.claim(book, 1),
    ]
}

/// What the only pass of a book answers, and the words at the end.
fn one_pass(rt: &impl Abort, alloc: Global) -> (Deeds, [Option<u32>; 3], (u64, u64)) {
    let Ok((book, mut passes, keeper)) = Book::open(
        alloc,
        &[10, MAX_SEQ - 1],
        &[MAX_SEQ, MAX_SEQ],
        &[10, MAX_SEQ],
        1,
    ) else {
        panic!(rt; "no memory")
    };
    let mut pass = passes.pop().expect(rt, "a pass");
    let found = deeds(&book, &mut pass);
    let claimed = claims(&book, &mut pass);
    let passes = all_passes(rt, alloc, &book, pass);
    let closed = book.close(passes, keeper);
    (found, claimed, (closed.word(0), closed.word(1)))
}

// By hand: two subscribers, the second one number short of the greatest.
#[test]
fn one_pass_draws_jumps_and_claims(rt: HostRuntime) {
    let (found, claimed, words) = one_pass(&rt, rt.alloc());
    let spent = Draw::Exhausted(MAX_SEQ);
    let answers = (
        Draw::Number(11),
        [Jump::Moved(11), Jump::Stood(20)],
        [Draw::Number(21), Draw::Number(MAX_SEQ), spent, spent],
        Jump::Stood(MAX_SEQ),
    );
    assert!(rt; found == answers);
    assert!(rt; (claimed, words) == ([Some(0), None, None], (21, MAX_SEQ + 1)));
}

/// Draws a number of the first subscriber, and releases it if its limit allows that.
fn draw_and_release(book: &Book, pass: &mut Pass) -> Option<Release>
    requires own { IsOf book.now.id book.now.tops pass.old }
    requires sub { 0 < length book.now.openings }
    ensures { IsOf book.now.id book.now.tops pass.new }
{
    match pass.draw(book, 0) {
        Draw::Number(n) => Some(pass.release(book, 0, n)),
        Draw::Exhausted(_) => None,
    }
}

/// Why the keeper stopped, as a pass reads it, and what comes of a number that is drawn after that.
fn read_and_release(book: &Book, pass: &mut Pass) -> (Option<Stop>, Option<Release>)
    requires own { IsOf book.now.id book.now.tops pass.old }
    requires sub { 0 < length book.now.openings }
    ensures { IsOf book.now.id book.now.tops pass.new }
{
    (pass.stopped(book), draw_and_release(book, pass))
}

/// The last number that the keeper sees, which then stops.
fn look_and_stop(book: &Book, keeper: &mut KeeperPass) -> u64
    requires own { keeper.old.id ≡ book.now.id }
    requires sub { 0 < length book.now.openings }
    requires running { keeper.old.stop ≡ None }
{
    let seen = keeper.look(book, 0);
    keeper.stop(book, Stop::Fault);
    seen
}

/// What comes of three numbers with a limit of 11, of which the last is drawn after the keeper stopped, and the last number
/// that the keeper sees.
fn three_releases(rt: &impl Abort, alloc: Global) -> ([(Option<Stop>, Option<Release>); 3], u64) {
    let Ok((book, mut passes, mut keeper)) = Book::open(alloc, &[10], &[MAX_SEQ], &[11], 1) else {
        panic!(rt; "no memory")
    };
    let mut pass = passes.pop().expect(rt, "a pass");
    let first = read_and_release(&book, &mut pass);
    let second = read_and_release(&book, &mut pass);
    let seen = look_and_stop(&book, &mut keeper);
    ([first, second, read_and_release(&book, &mut pass)], seen)
}

// By hand: a limit of 11, and then the store failed.
#[test]
fn numbers_are_released_up_to_the_limit(rt: HostRuntime) {
    let (found, seen) = three_releases(&rt, rt.alloc());
    let above = Some(Release::Above(11));
    let answers = [
        (None, Some(Release::Released)),
        (None, above),
        (Some(Stop::Fault), above),
    ];
    assert!(rt; found == answers && seen == 12);
}

/// Draws two numbers of the first subscriber.
fn draw_two(book: &Book, pass: &mut Pass)
    requires own { IsOf book.now.id book.now.tops pass.old }
    requires sub { 0 < length book.now.openings }
    ensures { IsOf book.now.id book.now.tops pass.new }
{
    pass.draw(book, 0);
    pass.draw(book, 0);
}

/// Draws two numbers of the first subscriber with each pass, on three threads.
fn draw_on_threads<R: Threads + Sync>(rt: &R, book: &Book, passes: &mut [Pass])
    requires own { All (IsOf book.now.id book.now.tops) passes.old }
    requires sub { 0 < length book.now.openings }
    ensures own { All (IsOf book.now.id book.now.tops) passes.new }
    ensures many { length passes.new ≡ length passes.old }
{
    let two = |_: usize, pass: &mut Pass|
        requires { IsOf book.now.id book.now.tops pass.old × (0 < length book.now.openings) }
        ensures { IsOf book.entry.now.id book.entry.now.tops pass.new }
    { draw_two(book, pass) };
    thread::for_each_mut(rt, passes, 3, &two);
}

// By hand: three passes draw two numbers each, from 11 to 16.
#[test]
fn passes_on_three_threads_draw_from_one_word(rt: HostRuntime) {
    let alloc = rt.alloc();
    let Ok((book, mut passes, keeper)) = Book::open(alloc, &[10], &[MAX_SEQ], &[10], 3) else {
        panic!(rt; "no memory")
    };
    draw_on_threads(&rt, &book, passes.as_mut_slice());
    let closed = book.close(passes, keeper);
    assert!(rt; closed.word(0) == 16);
}

/// What each of three passes answers to its two draws of a subscriber whose greatest number is 2, and the word at the end.
/// The order of the draws has six digits to the base 3, and each is the pass that draws next.
fn draws_in(rt: &impl Abort, alloc: Global, order: usize) -> ([(Draw, Draw); 3], u64) {
    let Ok((book, mut passes, keeper)) = Book::open(alloc, &[0], &[2], &[0], 3) else {
        panic!(rt; "no memory")
    };
    let answers = six_draws(&book, passes.as_mut_slice(), order);
    (answers, book.close(passes, keeper).word(0))
}

/// What each of three passes answers to its two draws.
fn six_draws(book: &Book, passes: &mut [Pass], order: usize) -> [(Draw, Draw); 3]
    requires own { All (IsOf book.now.id book.now.tops) passes.old }
    requires sub { 0 < length book.now.openings }
    requires three { length passes.old ≡ 3 }
    ensures own { All (IsOf book.now.id book.now.tops) passes.new }
    ensures three { length passes.new ≡ 3 }
{
    let mut answers = [(Draw::Number(0), Draw::Number(0)); 3];
    let mut rest = order;
    for _ in 0..6 {
        let pass = rest % 3;
        let answer = draw_by(book, passes, pass);
        answers[pass] = (answers[pass].1, answer);
        rest /= 3;
    }
    answers
}

/// Draws a number of the first subscriber with one of the passes.
fn draw_by(book: &Book, passes: &mut [Pass], pass: usize) -> Draw
    requires own { All (IsOf book.now.id book.now.tops) passes.old }
    requires sub { 0 < length book.now.openings }
    requires pass { pass < length passes.old }
    ensures own { All (IsOf book.now.id book.now.tops) passes.new }
    ensures many { length passes.new ≡ length passes.old }
{
    passes[pass].draw(book, 0)
}

/// Whether each of three passes draws twice in this order.
fn is_order(order: usize) -> bool {
    let mut draws = [0u8; 3];
    let mut rest = order;
    for _ in 0..6 {
        let pass = rest % 3;
        draws[pass] = draws[pass].wrapping_add(1);
        rest /= 3;
    }
    draws == [2, 2, 2]
}

/// How many numbers a pass drew, or 9 if it was refused with two different words.
fn numbers_of(answers: (Draw, Draw)) -> u64
    ensures { result ≤ 9 }
{
    match answers {
        (Draw::Number(_), Draw::Number(_)) => 2,
        (Draw::Number(_), Draw::Exhausted(_)) => 1,
        (Draw::Exhausted(first), Draw::Exhausted(second)) if first == second => 0,
        _ => 9,
    }
}

// By hand: the two passes or three that are refused make a mark each, above 2.
#[test]
fn each_order_of_six_draws_gives_two_numbers(rt: HostRuntime) {
    assert!(rt; (0..729).filter(|&order| is_order(order)).count() == 90);
    for order in (0..729).filter(|&order| is_order(order)) {
        let ([first, second, third], word) = draws_in(&rt, rt.alloc(), order);
        let counts = [numbers_of(first), numbers_of(second), numbers_of(third)];
        let closing = if counts.contains(&2) { 4 } else { 5 };
        let numbers = counts[0] + counts[1] + counts[2];
        assert!(rt; (numbers, word) == (2, closing), "in {order}");
    }
}
