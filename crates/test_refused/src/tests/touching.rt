//! Shadow memory.

use super::{Hasher, TRIES, print_refused, reported};
use bags::Bags;
use shadow::Shadow;
use std::alloc::Global;
use std::process::Abort;
use trace::{Kind, NoMemory, Race};

/// How many locations are written, each in a block of its own.
const STEPS: u64 = 100;

/// Touches once.
fn try_touch<R: Print + Abort>(
    rt: &R,
    shadow: &mut Shadow<Hasher>,
    bags: &Bags,
    location: u64,
    kind: Kind,
    place: u64,
) -> Result<Option<Race>, NoMemory> {
    let before = (shadow.last_place(), shadow.least_count());
    assert!(rt; before.0 < place && place <= 1 << 48 && before.1 <= bags.count());
    let touched = shadow.touch(bags, location, kind, place);
    if touched.is_err() {
        print_refused(rt, "touch");
        assert!(rt; (shadow.last_place(), shadow.least_count()) == before);
    }
    touched
}

/// Touches. A refusal changes nothing, and with memory the same call succeeds.
pub fn touch<R: Print + Abort>(
    rt: &R,
    shadow: &mut Shadow<Hasher>,
    bags: &Bags,
    location: u64,
    kind: Kind,
    place: u64,
) -> Option<Race> {
    for _ in 0..TRIES {
        if let Ok(race) = try_touch(rt, shadow, bags, location, kind, place) {
            return race;
        }
    }
    assert!(rt; false);
    None
}

/// A child writes each location. A touch that is refused is made again; or else the first one is missed.
fn write<R: Print + Abort>(
    rt: &R,
    shadow: &mut Shadow<Hasher>,
    bags: &Bags,
    again: bool,
) -> Option<u64> {
    let mut missed = None;
    for step in 0..STEPS {
        let (location, place) = (step * 1000, step + 2);
        let mut touched = try_touch(rt, shadow, bags, location, Kind::Write, place);
        if touched.is_err() {
            if !again && missed.is_none() {
                missed = Some(step);
                continue;
            }
            touched = Ok(touch(rt, shadow, bags, location, Kind::Write, place));
        }
        assert!(rt; touched == Ok(None));
    }
    missed
}

/// Its parent writes them again. Each has a race but the one that was missed; nothing may be kept of that one.
fn write_again<R: Print + Abort>(
    rt: &R,
    shadow: &mut Shadow<Hasher>,
    bags: &Bags,
    missed: Option<u64>,
) {
    for step in 0..STEPS {
        let (location, place) = (step * 1000, step + 2 + STEPS);
        let race = touch(rt, shadow, bags, location, Kind::Write, place);
        if missed == Some(step) {
            assert!(rt; race == None);
        } else {
            assert!(rt; race.map(reported) == Some((location, step + 2, place)));
        }
    }
}

fn child_and_parent<R: Print + Abort>(rt: &R, alloc: Global, again: bool, parent: bool) {
    let mut shadow = Shadow::with_hasher(alloc, Hasher::default());
    let Ok(mut bags) = Bags::new(alloc) else {
        print_refused(rt, "bags");
        return;
    };
    super::nesting::spawn(rt, &mut bags);
    let missed = write(rt, &mut shadow, &bags, again);
    super::nesting::ret(rt, &mut bags);
    if parent {
        write_again(rt, &mut shadow, &bags, missed);
    }
}

#[test]
fn touches_without(rt: HostRuntime) {
    child_and_parent(&rt, rt.alloc(), true, false);
}

#[test]
fn touches_with(rt: HostRuntime) {
    child_and_parent(&rt, rt.alloc(), true, true);
}

#[test]
fn touches_missed(rt: HostRuntime) {
    child_and_parent(&rt, rt.alloc(), false, true);
}
