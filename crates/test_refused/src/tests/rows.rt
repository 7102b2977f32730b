//! Rows that repeat a refused call. Each ends with the row's answer.

use super::collecting::{finish, take};
use super::nesting::{call, ret, spawn};
use super::touching::touch;
use super::{Hasher, Reported, TRIES, print_refused, reported};
use bags::Bags;
use collect::{Collector, Report};
use shadow::Shadow;
use shard::Shard;
use std::alloc::Global;
use std::process::Abort;
use trace::Record::{Call, Read, Return, Spawn, Sync, Write};
use trace::{Kind, Placed, Race, Record};

/// The rows. A call, since the proofs of the tests are shorter without them.
fn all_rows() -> [(&'static [Record], Reported); 5] {
    ROWS
}

/// Rows `two-readers-then-write`, `sync-in-sibling`, `three-writes`, `call-mixed` and the first of `call-sync-scopes`,
/// and the race of each.
const ROWS: [(&[Record], Reported); 5] = [
    (
        &[
            Spawn,
            Read(9),
            Return,
            Spawn,
            Read(9),
            Return,
            Write(9),
            Return,
        ],
        (9, 2, 7),
    ),
    (
        &[
            Spawn,
            Write(1),
            Return,
            Spawn,
            Sync,
            Write(1),
            Return,
            Return,
        ],
        (1, 2, 6),
    ),
    (
        &[
            Spawn,
            Write(3),
            Return,
            Spawn,
            Write(3),
            Return,
            Write(3),
            Return,
        ],
        (3, 2, 5),
    ),
    (
        &[
            Spawn,
            Write(1),
            Return,
            Call,
            Read(2),
            Return,
            Write(2),
            Write(1),
            Return,
        ],
        (1, 2, 8),
    ),
    (
        &[
            Spawn,
            Write(1),
            Return,
            Call,
            Sync,
            Write(1),
            Return,
            Return,
        ],
        (1, 2, 6),
    ),
];

fn step<R: Print + Abort>(
    rt: &R,
    bags: &mut Bags,
    shadow: &mut Shadow<Hasher>,
    placed: Placed,
) -> Option<Race> {
    match placed.what {
        Spawn => spawn(rt, bags),
        Call => call(rt, bags),
        Return => ret(rt, bags),
        Sync => bags.sync(),
        Read(location) => return touch(rt, shadow, bags, location, Kind::Read, placed.place),
        Write(location) => return touch(rt, shadow, bags, location, Kind::Write, placed.place),
    }
    None
}

/// The report of a row by bags, shadow memory and a collector. The row's root has three procedures above it, so that
/// the row's own spawns ask for memory too.
fn by_parts<R: Print + Abort>(rt: &R, alloc: Global, records: &[Record]) -> Option<Report> {
    let Ok(mut bags) = Bags::new(alloc) else {
        print_refused(rt, "bags");
        return None;
    };
    for _ in 0..3 {
        spawn(rt, &mut bags);
    }
    let mut shadow = Shadow::with_hasher(alloc, Hasher::default());
    let mut collector = Collector::new(alloc);
    for (index, what) in records.iter().enumerate() {
        let (place, what) = (index as u64 + 1, *what);
        if let Some(race) = step(rt, &mut bags, &mut shadow, Placed { place, what }) {
            take(rt, &mut collector, race);
        }
    }
    finish(rt, collector)
}

/// Asserts that this race is the only one.
fn assert_race<R: Abort>(rt: &R, report: &Report, wanted: Reported) {
    let mut races = 0u64;
    for race in report.races() {
        assert!(rt; reported(*race) == wanted);
        races = races.saturating_add(1);
    }
    assert!(rt; races == 1);
}

#[test]
fn parts(rt: HostRuntime) {
    for (records, wanted) in all_rows() {
        if let Some(report) = by_parts(&rt, rt.alloc(), records) {
            assert_race(&rt, &report, wanted);
        }
    }
}

/// Applies a record; its place is one more than the number of those before it. A refusal changes nothing, and with
/// memory the same call succeeds.
fn apply<R: Print + Abort>(rt: &R, shard: &mut Shard<Hasher>, placed: Placed) -> Option<Race> {
    for _ in 0..TRIES {
        assert!(rt; shard.accepts(placed.place));
        if let Ok(race) = shard.apply(placed) {
            return race;
        }
        print_refused(rt, "apply");
        assert!(rt; shard.taken().saturating_add(1) == placed.place);
    }
    assert!(rt; false);
    None
}

fn by_shard<R: Print + Abort>(
    rt: &R,
    alloc: Global,
    records: &[Record],
    wanted: Reported,
    with: bool,
) {
    let Ok(mut shard) = Shard::new(alloc, 0, Hasher::default()) else {
        print_refused(rt, "shard");
        return;
    };
    let mut found = None;
    for (index, what) in records.iter().enumerate() {
        let (place, what) = (index as u64 + 1, *what);
        if let Some(race) = apply(rt, &mut shard, Placed { place, what }) {
            assert!(rt; (found, race.second.place) == (None, place));
            found = Some(reported(race));
        }
        if with {
            assert!(rt; shard.taken() == place);
        }
    }
    assert!(rt; found == Some(wanted));
}

#[test]
fn shards_without(rt: HostRuntime) {
    for (records, wanted) in all_rows() {
        by_shard(&rt, rt.alloc(), records, wanted, false);
    }
}

#[test]
fn shards_with(rt: HostRuntime) {
    for (records, wanted) in all_rows() {
        by_shard(&rt, rt.alloc(), records, wanted, true);
    }
}
