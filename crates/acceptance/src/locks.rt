//! What no clause says: that calls answer at all, that those who wait are woken, and that passes
//! come back. And what a caller can tell by a mark and a fixed part.
ghost use Rattle.std.specs.Prelude.{◌≡◌, ◌<◌, Some, IfSome};

use std::sync::Wait;
use std::thread::{Threads, join};
use turnstile::{Pass, Tally, Turnstile};

const MOST: u64 = 1 << 32;

#[test]
fn worn_where_all_turns_are_drawn(rt: HostRuntime) {
    let (turnstile, mut passes) = Turnstile::build_at(
        rt.alloc(),
        Tally::new(rt.alloc(), MOST),
        1,
        (1 << 62) - 1,
    ).expect(&rt, "memory");
    let mut pass = passes.pop().expect(&rt, "a pass");
    assert!(rt; matches!(turnstile.turn(&rt, &mut pass, true), Ok(Some(0))));
    assert!(rt; turnstile.turn(&rt, &mut pass, true).is_err());
    assert!(rt; turnstile.turn(&rt, &mut pass, true).is_err());
    passes.push(pass).expect(&rt, "memory");
    let Ok(tally) = turnstile.close(passes) else {
        panic!(rt; "not all passes")
    };
    assert!(rt; tally.entries() == [0].as_slice());
}

#[test]
fn first_turn_worn(rt: HostRuntime) {
    let tally = Tally::new(rt.alloc(), MOST);
    let (turnstile, mut passes) = Turnstile::build_at(rt.alloc(), tally, 1, 1 << 62).expect(
        &rt, "memory",
    );
    let mut pass = passes.pop().expect(&rt, "a pass");
    assert!(rt; turnstile.turn(&rt, &mut pass, true).is_err());
    passes.push(pass).expect(&rt, "memory");
    let Ok(tally) = turnstile.close(passes) else {
        panic!(rt; "not all passes")
    };
    assert!(rt; tally.entries().is_empty());
}

#[test]
fn two_turns_answer(rt: HostRuntime) {
    let tally = Tally::new(rt.alloc(), MOST);
    let (turnstile, mut passes) = Turnstile::build_at(rt.alloc(), tally, 1, 0).expect(
        &rt, "memory",
    );
    let mut pass = passes.pop().expect(&rt, "a pass");
    let first = turnstile.turn(&rt, &mut pass, true);
    let second = turnstile.turn(&rt, &mut pass, true);
    assert!(rt; matches!((first, second), (Ok(Some(0)), Ok(Some(1)))));
    passes.push(pass).expect(&rt, "memory");
    let Ok(tally) = turnstile.close(passes) else {
        panic!(rt; "not all passes")
    };
    assert!(rt; tally.entries() == [0, 0].as_slice());
}

/// The numbers of two turns that are not entered, between which the second pass met the first's
/// note.
fn two_numbers<R: Wait>(
    rt: &R,
    turnstile: &Turnstile<Tally>,
    first: &mut Pass<Tally>,
    second: &mut Pass<Tally>,
) -> Option<(u64, u64)>
    requires first { first.old.lock ≡ Some turnstile.now }
    requires second { second.old.lock ≡ Some turnstile.now }
    ensures first { first.new.lock ≡ Some turnstile.now }
    ensures second { second.new.lock ≡ Some turnstile.now }
    ensures rise { IfSome result (λ n. n.0 < n.1) }
    ensures below { IfSome result (λ n. n.1 < turnstile.now.fixed) }
{
    let earlier = turnstile.turn(rt, first, false).ok()??;
    let note = turnstile.note(first);
    turnstile.meet(second, note);
    let later = turnstile.turn(rt, second, false).ok()??;
    Some((earlier, later))
}

#[test]
fn note_and_meet(rt: HostRuntime) {
    let (turnstile, mut passes) = Turnstile::build(rt.alloc(), Tally::new(rt.alloc(), 3), 2).expect(
        &rt, "memory",
    );
    let mut second = passes.pop().expect(&rt, "a pass");
    let mut first = passes.pop().expect(&rt, "a pass");
    assert!(rt; first.number() == 0 && second.number() == 1);
    let numbers = two_numbers(&rt, &turnstile, &mut first, &mut second);
    assert!(rt; numbers == Some((0, 1)));
    assert!(rt; matches!(turnstile.turn(&rt, &mut second, true), Ok(Some(2))));
    assert!(rt; matches!(turnstile.turn(&rt, &mut first, true), Ok(None)));
    let numbers = two_numbers(&rt, &turnstile, &mut first, &mut second);
    assert!(rt; numbers.is_none());
    passes.push(second).expect(&rt, "memory");
    passes.push(first).expect(&rt, "memory");
    let Ok(tally) = turnstile.close(passes) else {
        panic!(rt; "not all passes")
    };
    assert!(rt; tally.entries() == [1].as_slice());
}

#[test]
fn missing_pass_gives_all_back(rt: HostRuntime) {
    let tally = Tally::new(rt.alloc(), MOST);
    let (turnstile, mut passes) = Turnstile::build(rt.alloc(), tally, 2).expect(&rt, "memory");
    let mut second = passes.pop().expect(&rt, "a pass");
    let Err((turnstile, mut passes)) = turnstile.close(passes) else {
        panic!(rt; "closed without a pass")
    };
    assert!(rt; turnstile.turn(&rt, &mut second, true).is_ok());
    passes.push(second).expect(&rt, "memory");
    let Ok(tally) = turnstile.close(passes) else {
        panic!(rt; "not all passes")
    };
    assert!(rt; tally.entries() == [1].as_slice());
}

// So many turns of one pass.
fn some_turns<R: Wait>(
    rt: &R,
    turnstile: &Turnstile<Tally>,
    mut pass: Pass<Tally>,
    count: u64,
) -> Pass<Tally>
    requires { pass.lock ≡ Some turnstile.now }
    ensures { result.lock ≡ Some turnstile.now }
{
    for _ in 0..count {
        let _number = turnstile.turn(rt, &mut pass, true);
    }
    pass
}

// Both passes make their turns, each on a thread of its own.
fn on_two_threads<R: Threads + Wait + Sync>(
    rt: &R,
    turnstile: &Turnstile<Tally>,
    first: Pass<Tally>,
    second: Pass<Tally>,
    count: u64,
) -> (Pass<Tally>, Pass<Tally>)
    requires first { first.lock ≡ Some turnstile.now }
    requires second { second.lock ≡ Some turnstile.now }
    ensures first { result.0.lock ≡ Some turnstile.now }
    ensures second { result.1.lock ≡ Some turnstile.now }
{
    join(
        rt,
        || -> Pass<Tally>
            requires { first.lock ≡ Some turnstile.now }
            ensures { result.lock ≡ Some turnstile.entry.now }
        { some_turns(rt, turnstile, first, count) },
        || -> Pass<Tally>
            requires { second.lock ≡ Some turnstile.now }
            ensures { result.lock ≡ Some turnstile.entry.now }
        { some_turns(rt, turnstile, second, count) },
    )
}

#[test]
fn two_threads_tally(rt: HostRuntime) {
    let tally = Tally::new(rt.alloc(), MOST);
    let (turnstile, mut passes) = Turnstile::build(rt.alloc(), tally, 2).expect(&rt, "memory");
    let second = passes.pop().expect(&rt, "a pass");
    let first = passes.pop().expect(&rt, "a pass");
    let (first, second) = on_two_threads(&rt, &turnstile, first, second, 100);
    passes.push(second).expect(&rt, "memory");
    passes.push(first).expect(&rt, "memory");
    let Ok(tally) = turnstile.close(passes) else {
        panic!(rt; "not all passes")
    };
    let of_first = tally.entries().iter().filter(|e| **e == 0).count();
    let of_second = tally.entries().iter().filter(|e| **e == 1).count();
    assert!(rt; tally.entries().len() == 200 && of_first == 100 && of_second == 100);
}

type Pair = (Pass<Tally>, Pass<Tally>);

// So do four passes, of two pairs.
fn on_four_threads<R: Threads + Wait + Sync>(
    rt: &R,
    turnstile: &Turnstile<Tally>,
    left: Pair,
    right: Pair,
    count: u64,
) -> (Pair, Pair)
    requires left { (left.0.lock ≡ Some turnstile.now) × (left.1.lock ≡ Some turnstile.now) }
    requires right { (right.0.lock ≡ Some turnstile.now) × (right.1.lock ≡ Some turnstile.now) }
    ensures left { (result.0.0.lock ≡ Some turnstile.now)
        × (result.0.1.lock ≡ Some turnstile.now) }
    ensures right { (result.1.0.lock ≡ Some turnstile.now)
        × (result.1.1.lock ≡ Some turnstile.now) }
{
    join(
        rt,
        || -> Pair
            requires { (left.0.lock ≡ Some turnstile.now) × (left.1.lock ≡ Some turnstile.now) }
            ensures { (result.0.lock ≡ Some turnstile.entry.now)
                × (result.1.lock ≡ Some turnstile.entry.now) }
        { on_two_threads(rt, turnstile, left.0, left.1, count) },
        || -> Pair
            requires { (right.0.lock ≡ Some turnstile.now)
                × (right.1.lock ≡ Some turnstile.now) }
            ensures { (result.0.lock ≡ Some turnstile.entry.now)
                × (result.1.lock ≡ Some turnstile.entry.now) }
        { on_two_threads(rt, turnstile, right.0, right.1, count) },
    )
}

// There are so many turns that threads sleep: where nobody wakes them, this test does not end.
#[test]
fn four_threads_wait_and_wake(rt: HostRuntime) {
    let tally = Tally::new(rt.alloc(), MOST);
    let (turnstile, mut passes) = Turnstile::build(rt.alloc(), tally, 4).expect(&rt, "memory");
    let left = (
        passes.pop().expect(&rt, "a pass"),
        passes.pop().expect(&rt, "a pass"),
    );
    let right = (
        passes.pop().expect(&rt, "a pass"),
        passes.pop().expect(&rt, "a pass"),
    );
    let (left, right) = on_four_threads(&rt, &turnstile, left, right, 20_000);
    passes.push(left.0).expect(&rt, "memory");
    passes.push(left.1).expect(&rt, "memory");
    passes.push(right.0).expect(&rt, "memory");
    passes.push(right.1).expect(&rt, "memory");
    let Ok(tally) = turnstile.close(passes) else {
        panic!(rt; "not all passes")
    };
    let of_last = tally.entries().iter().filter(|e| **e == 3).count();
    assert!(rt; tally.entries().len() == 80_000 && of_last == 20_000);
}
