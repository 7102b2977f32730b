//! The parts of the worked rows: each reports the races of its locations, in one thread and with shards.

use super::answers::{Hasher, answer_of_part, assert_fault};
use super::faulty_rows::{Faulty, all_faulty};
use super::reported_rows::{LIMITS, Reported, WRITE_WRITE, all_reported};
use collect::{Report, read_report};
use detect::detect_plain_part;
use std::alloc::Global;
use std::process::Abort;
use std::sync::Wait;
use std::test::Fail;
use std::thread::Threads;
use std::time::Clock;
use test_helpers::devices::Pieces;
use trace::{Fault, Limits, Part, Race};

/// The numbers of parts.
const COUNTS: [u32; 5] = [1, 2, 3, 4, 5];

/// The numbers of shards that each part is run with.
const SHARDS: [u32; 2] = [1, 3];

/// The first and the last location race, one between them does, and one is read alone.
const ENDS: Reported = Reported {
    name: "ends",
    text: b"trace 1\nspawn\nwrite 0\nwrite 3\nread 5\nwrite 18446744073709551615\nreturn\n\
        write 0\nread 3\nread 5\nwrite 18446744073709551615\nreturn\n",
    report: b"races 3\nrace 0 write 2 write 7\nrace 3 write 3 read 8\n\
        race 18446744073709551615 write 5 write 10\n",
};

fn part_of<R: Abort>(rt: &R, index: u32, count: u32) -> Part {
    assert!(rt; index < count && count <= 65536);
    Part { index, count }
}

/// The report by one thread.
fn plain(alloc: Global, limits: Limits, part: Part, bytes: &[u8]) -> Result<Report, Fault> {
    let mut pieces = Pieces::of(bytes, 1);
    detect_plain_part(alloc, limits, part, &mut pieces, Hasher::default())
}

/// The report with shards.
fn sharded<T: Threads + Wait + Clock + Sync + Abort>(
    rt: &T,
    alloc: Global,
    shards: u32,
    part: Part,
    limits: Limits,
    bytes: &[u8],
) -> Result<Report, Fault> {
    Ok(answer_of_part(rt, alloc, shards, part, limits, bytes)?.0)
}

/// How many records of the part each shard takes.
fn taken<T: Threads + Wait + Clock + Sync + Abort>(
    rt: &T,
    alloc: Global,
    shards: u32,
    part: Part,
    bytes: &[u8],
) -> Result<Vec<u64>, Fault> {
    Ok(answer_of_part(rt, alloc, shards, part, LIMITS, bytes)?.1)
}

/// The races of the part's locations.
fn races_of(alloc: Global, part: Part, report: &[u8]) -> Result<Vec<Race>, Fail> {
    let whole = read_report(alloc, report)?;
    let mut races = Vec::new(alloc);
    for race in whole.races() {
        if race.location % part.count as u64 == part.index as u64 {
            races.push(*race)?;
        }
    }
    Ok(races)
}

/// Asserts the races of a part of the row of this name, with this number of shards.
fn assert_races<R: Abort>(
    rt: &R,
    found: &Report,
    wanted: &[Race],
    name: &str,
    part: Part,
    shards: u32,
) {
    assert!(rt; found.races() == wanted, "{name} in {part:?} by {shards}");
}

// The part of the row has the races of the part's locations, and no other.
fn judge<T: Threads + Wait + Clock + Sync + Abort>(
    rt: &T,
    alloc: Global,
    part: Part,
    row: Reported,
) -> Result<(), Fail> {
    let wanted = races_of(alloc, part, row.report)?;
    let found = plain(alloc, LIMITS, part, row.text)?;
    assert_races(rt, &found, &wanted, row.name, part, 0);
    for shards in SHARDS {
        let found = sharded(rt, alloc, shards, part, LIMITS, row.text)?;
        assert_races(rt, &found, &wanted, row.name, part, shards);
    }
    Ok(())
}

fn judge_all<T: Threads + Wait + Clock + Sync + Abort>(
    rt: &T,
    alloc: Global,
    part: Part,
) -> Result<(), Fail> {
    judge(rt, alloc, part, ENDS)?;
    for row in all_reported() {
        judge(rt, alloc, part, row)?;
    }
    Ok(())
}

#[test]
fn parts_report_their_locations(rt: HostRuntime) -> Result<(), Fail> {
    for count in COUNTS {
        for index in 0..count {
            judge_all(&rt, rt.alloc(), part_of(&rt, index, count))?;
        }
    }
    Ok(())
}

fn judge_fault<T: Threads + Wait + Clock + Sync + Abort>(
    rt: &T,
    alloc: Global,
    part: Part,
    row: Faulty,
) {
    let fault = plain(alloc, row.limits, part, row.text).err();
    assert_fault(rt, fault, row.fault, row.name, 0);
    let fault = sharded(rt, alloc, 3, part, row.limits, row.text).err();
    assert_fault(rt, fault, row.fault, row.name, 3);
}

// A fault is reported by each part, also where the part has no access.
#[test]
fn parts_report_faults(rt: HostRuntime) {
    for index in 0..2 {
        let part = part_of(&rt, index, 2);
        for row in all_faulty() {
            judge_fault(&rt, rt.alloc(), part, row);
        }
    }
}

// Location 5 has the number 2 in part 1 of 2, and the number 0 in part 5 of 65536.
#[test]
fn shards_of_a_part_take_their_shares(rt: HostRuntime) -> Result<(), Fail> {
    for (index, count, shares) in [
        (1, 2, [3, 3, 5u64]),
        (0, 2, [3, 3, 3]),
        (5, 65536, [5, 3, 3]),
    ] {
        let part = part_of(&rt, index, count);
        let taken = taken(&rt, rt.alloc(), 3, part, WRITE_WRITE)?;
        assert!(rt; taken.as_slice() == shares.as_slice(), "{part:?}");
    }
    Ok(())
}
