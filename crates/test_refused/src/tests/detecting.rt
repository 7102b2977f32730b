//! Detection, in one thread and with threads.

use super::{Hasher, Reported, print_refused, reported};
use collect::Report;
use detect::{Plan, detect, detect_part, detect_plain, detect_plain_part};
use shard::Open;
use std::alloc::{AllocError, Global};
use std::process::Abort;
use std::sync::Wait;
use std::thread::Threads;
use std::time::Clock;
use trace::{Counted, Fault, Limits, Part, TextFault, TextKind};

const LIMITS: Limits = Limits {
    records: 1 << 48,
    depth: 9,
};

/// The rows. A call, since the proofs of the tests are shorter without them.
fn all_rows() -> [(&'static [u8], &'static [Reported]); 6] {
    ROWS
}

/// Rows `write-write`, `sync-in-sibling`, `three-shards`, `call-mixed` and both of `call-sync-scopes`, with their
/// races.
const ROWS: [(&[u8], &[Reported]); 6] = [
    (
        b"trace 1\nspawn\nwrite 5\nreturn\nwrite 5\nreturn\n",
        &[(5, 2, 4)],
    ),
    (
        b"trace 1\nspawn\nwrite 1\nreturn\nspawn\nsync\nwrite 1\nreturn\nreturn\n",
        &[(1, 2, 6)],
    ),
    (
        b"trace 1\nspawn\nwrite 8\nwrite 2\nreturn\nread 8\nread 2\nreturn\n",
        &[(2, 3, 6), (8, 2, 5)],
    ),
    (
        b"trace 2\nspawn\nwrite 1\nreturn\ncall\nread 2\nreturn\nwrite 2\nwrite 1\nreturn\n",
        &[(1, 2, 8)],
    ),
    (
        b"trace 2\nspawn\nwrite 1\nreturn\ncall\nsync\nwrite 1\nreturn\nreturn\n",
        &[(1, 2, 6)],
    ),
    (
        b"trace 2\ncall\nspawn\nwrite 1\nreturn\nreturn\nwrite 1\nreturn\n",
        &[],
    ),
];

/// Row `three-shards` with a bad last line.
const FAULTY: &[u8] = b"trace 1\nspawn\nwrite 8\nwrite 2\nreturn\nread 8\nread 2\nword\n";

fn hashers(alloc: Global, count: u32) -> Result<Vec<Hasher>, AllocError> {
    let mut hashers = Vec::new(alloc);
    for _ in 0..count {
        hashers.push(Hasher::default())?;
    }
    Ok(hashers)
}

/// The report with shards.
fn detect_sharded<T: Threads + Wait + Clock + Sync + Abort>(
    rt: &T,
    alloc: Global,
    shards: u32,
    bytes: &[u8],
) -> Result<Report, Fault> {
    let Ok(hashers) = hashers(alloc, shards) else {
        return Err(Fault::NoMemory);
    };
    assert!(rt; 1 <= shards && shards <= 64 && hashers.len() == shards as usize);
    let plan = Plan::new(shards, 1, LIMITS);
    Ok(detect(rt, alloc, plan, &mut Counted::new(bytes), &Open, hashers)?.report)
}

/// The report of a part so.
fn detect_sharded_part<T: Threads + Wait + Clock + Sync + Abort>(
    rt: &T,
    alloc: Global,
    shards: u32,
    part: Part,
    bytes: &[u8],
) -> Result<Report, Fault> {
    let Ok(hashers) = hashers(alloc, shards) else {
        return Err(Fault::NoMemory);
    };
    assert!(rt; 1 <= shards && shards <= 64 && hashers.len() == shards as usize);
    let plan = Plan::new(shards, 1, LIMITS);
    let source = &mut Counted::new(bytes);
    Ok(detect_part(rt, alloc, plan, part, source, &Open, hashers)?.report)
}

/// The report by one thread.
fn detect_in_one(alloc: Global, bytes: &[u8]) -> Result<Report, Fault> {
    detect_plain(alloc, LIMITS, &mut Counted::new(bytes), Hasher::default())
}

/// The report of a part so.
fn detect_part_in_one(alloc: Global, part: Part, bytes: &[u8]) -> Result<Report, Fault> {
    detect_plain_part(
        alloc,
        LIMITS,
        part,
        &mut Counted::new(bytes),
        Hasher::default(),
    )
}

fn assert_races<R: Abort>(rt: &R, report: &Report, races: &[Reported]) {
    assert!(rt; report.races().len() == races.len());
    for (race, wanted) in report.races().iter().zip(races) {
        assert!(rt; reported(*race) == *wanted);
    }
}

/// Either the report is that of the row, or the fault is a refusal.
fn judge<R: Print + Abort>(rt: &R, found: Result<Report, Fault>, races: &[Reported]) {
    match found {
        Ok(report) => assert_races(rt, &report, races),
        Err(Fault::NoMemory) => print_refused(rt, "memory"),
        Err(Fault::NoThread) => print_refused(rt, "thread"),
        Err(_) => assert!(rt; false),
    }
}

#[test]
fn plain(rt: HostRuntime) {
    for (bytes, races) in all_rows() {
        judge(&rt, detect_in_one(rt.alloc(), bytes), races);
    }
}

#[test]
fn sharded(rt: HostRuntime) {
    for shards in [1, 2, 3u32] {
        for (bytes, races) in all_rows() {
            judge(&rt, detect_sharded(&rt, rt.alloc(), shards, bytes), races);
        }
    }
}

// Both locations of row `three-shards` are of part 0 of 2.
#[test]
fn part(rt: HostRuntime) {
    let (bytes, races) = all_rows()[2];
    let part = Part { index: 0, count: 2 };
    judge(&rt, detect_part_in_one(rt.alloc(), part, bytes), races);
    for shards in [1, 3u32] {
        let found = detect_sharded_part(&rt, rt.alloc(), shards, part, bytes);
        judge(&rt, found, races);
    }
}

fn judge_faulty<R: Print + Abort>(rt: &R, fault: Option<Fault>) {
    let wanted = Fault::Text(TextFault {
        line: 8,
        kind: TextKind::Line,
    });
    match fault {
        Some(Fault::NoMemory) => print_refused(rt, "memory"),
        Some(Fault::NoThread) => print_refused(rt, "thread"),
        _ => assert!(rt; fault == Some(wanted)),
    }
}

// A refusal comes before the fault of the trace, whichever thread met it.
#[test]
fn refused_and_faulty(rt: HostRuntime) {
    for shards in [1, 2, 3u32] {
        let found = detect_sharded(&rt, rt.alloc(), shards, FAULTY);
        judge_faulty(&rt, found.err());
    }
}
