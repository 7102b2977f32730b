//! Bags.

use super::{TRIES, print_refused};
use bags::Bags;
use std::alloc::Global;
use std::process::Abort;

/// How many procedures one test has one after the other.
const ROUNDS: u64 = 10_000;

fn numbers(bags: &Bags) -> (u64, u64, u64, u64) {
    (bags.current(), bags.count(), bags.active(), bags.held())
}

/// Spawns. A refusal changes nothing, and with memory the same call succeeds.
pub fn spawn<R: Print + Abort>(rt: &R, bags: &mut Bags) {
    let _ = enter_tried(rt, bags, false);
}

/// Calls a procedure, and so on.
pub fn call<R: Print + Abort>(rt: &R, bags: &mut Bags) {
    let _ = enter_tried(rt, bags, true);
}

/// Spawns or calls, and answers how many tries were refused.
fn enter_tried<R: Print + Abort>(rt: &R, bags: &mut Bags, is_called: bool) -> u32 {
    let before = numbers(bags);
    for tried in 0..TRIES {
        assert!(rt; bags.count() <= ROUNDS);
        let entered = if is_called { bags.call() } else { bags.spawn() };
        if entered.is_ok() {
            return tried;
        }
        print_refused(rt, if is_called { "call" } else { "spawn" });
        assert!(rt; numbers(bags) == before);
    }
    assert!(rt; false);
    TRIES
}

pub fn ret<R: Abort>(rt: &R, bags: &mut Bags) {
    assert!(rt; bags.active() > 1);
    bags.ret();
}

fn in_p<R: Abort>(rt: &R, bags: &Bags, procedure: u64) -> bool {
    assert!(rt; procedure < bags.count());
    let (answer, _) = bags.in_p_counted(procedure);
    assert!(rt; answer == bags.in_p(procedure));
    answer
}

/// Spawns or calls a hundred procedures, each by the one before it; with the other calls it makes these too. A
/// returned procedure is parallel to its parent if it was spawned, and isn't if it was called.
fn nest<R: Print + Abort>(rt: &R, alloc: Global, is_called: bool, with: bool) {
    let Ok(mut bags) = Bags::new(alloc) else {
        print_refused(rt, "bags");
        return;
    };
    for depth in 0..100u64 {
        let _ = enter_tried(rt, &mut bags, is_called);
        if with {
            bags.sync();
            let wanted = (depth + 1, depth + 2, depth + 2, 3 * (depth + 2));
            assert!(rt; numbers(&bags) == wanted);
            assert!(rt; !in_p(rt, &bags, depth));
        }
    }
    if with {
        return_all(rt, &mut bags, is_called);
    }
}

fn return_all<R: Abort>(rt: &R, bags: &mut Bags, is_called: bool) {
    for _ in 0..100 {
        ret(rt, bags);
        assert!(rt; in_p(rt, bags, 100) == !is_called);
    }
}

#[test]
fn bags_without(rt: HostRuntime) {
    nest(&rt, rt.alloc(), false, false);
}

#[test]
fn bags_with(rt: HostRuntime) {
    nest(&rt, rt.alloc(), false, true);
}

#[test]
fn called_without(rt: HostRuntime) {
    nest(&rt, rt.alloc(), true, false);
}

#[test]
fn called_with(rt: HostRuntime) {
    nest(&rt, rt.alloc(), true, true);
}

/// A completed procedure leaves nothing: a refusal is met only before the third one.
fn complete<R: Print + Abort>(rt: &R, alloc: Global, is_called: bool) {
    let Ok(mut bags) = Bags::new(alloc) else {
        print_refused(rt, "bags");
        return;
    };
    for round in 0..ROUNDS {
        let refused = enter_tried(rt, &mut bags, is_called);
        assert!(rt; refused == 0 || round < 2);
        ret(rt, &mut bags);
    }
}

#[test]
fn completed(rt: HostRuntime) {
    complete(&rt, rt.alloc(), false);
}

#[test]
fn completed_calls(rt: HostRuntime) {
    complete(&rt, rt.alloc(), true);
}

/// The children are called and spawned in turn. Whichever growth was refused, the spawned ones are parallel to the
/// root, and after a sync none is.
fn alternate<R: Print + Abort>(rt: &R, alloc: Global, called_first: bool) {
    let Ok(mut bags) = Bags::new(alloc) else {
        print_refused(rt, "bags");
        return;
    };
    for round in 0..100u64 {
        let is_called = (round % 2 == 0) == called_first;
        let _ = enter_tried(rt, &mut bags, is_called);
        ret(rt, &mut bags);
    }
    for child in 0..100u64 {
        let is_called = (child % 2 == 0) == called_first;
        assert!(rt; in_p(rt, &bags, child + 1) == !is_called);
    }
    bags.sync();
    assert!(rt; numbers(&bags) == (0, 101, 1, 3));
    for procedure in 0..101u64 {
        assert!(rt; !in_p(rt, &bags, procedure));
    }
}

#[test]
fn spawned_and_called(rt: HostRuntime) {
    alternate(&rt, rt.alloc(), false);
}

#[test]
fn called_and_spawned(rt: HostRuntime) {
    alternate(&rt, rt.alloc(), true);
}
