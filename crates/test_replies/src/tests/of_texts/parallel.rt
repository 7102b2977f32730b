//! Which places are parallel: on worked traces, and in every well nested list of at most 7 records.

use std::process::Abort;
use test_helpers::by_definition::{MOST, are_parallel, is_well_nested, joins, paths};
use trace::Record::{self, Call, Read, Return, Spawn, Sync, Write};
use trace::is_parallel;

#[test]
fn parallel_places(rt: HostRuntime) {
    let two_readers = [
        Spawn,
        Read(9),
        Return,
        Spawn,
        Read(9),
        Return,
        Write(9),
        Return,
    ];
    assert!(rt; is_parallel(&two_readers, 2, 5));
    assert!(rt; is_parallel(&two_readers, 2, 7));
    assert!(rt; !is_parallel(&two_readers, 1, 7));
    let grandchild_synced = [
        Spawn,
        Spawn,
        Write(1),
        Return,
        Return,
        Sync,
        Read(1),
        Return,
    ];
    assert!(rt; !is_parallel(&grandchild_synced, 3, 7));
    let sync_in_sibling = [
        Spawn,
        Write(1),
        Return,
        Spawn,
        Sync,
        Write(1),
        Return,
        Return,
    ];
    assert!(rt; is_parallel(&sync_in_sibling, 2, 6));
}

#[test]
fn parallel_places_with_calls(rt: HostRuntime) {
    let called = [Call, Write(1), Return, Read(1), Return];
    assert!(rt; !is_parallel(&called, 2, 4));
    let spawned_in_called = [
        Call,
        Spawn,
        Write(1),
        Return,
        Read(1),
        Return,
        Read(1),
        Return,
    ];
    assert!(rt; is_parallel(&spawned_in_called, 3, 5));
    assert!(rt; !is_parallel(&spawned_in_called, 3, 7));
    let called_in_spawned = [Spawn, Call, Write(1), Return, Return, Read(1), Return];
    assert!(rt; is_parallel(&called_in_spawned, 3, 6));
}

const LETTERS: [Record; 5] = [Spawn, Call, Return, Sync, Read(0)];

/// How many lists there are of each length.
const COUNTS: [usize; MOST] = [5, 25, 125, 625, 3125, 15625, 78125];

/// The number of pairs of places that are parallel, and of those that aren't.
#[derive(Drop)]
struct Tally {
    parallel: u64,
    serial: u64,
}

/// The list whose letters are the digits of the number.
fn list_of(number: usize) -> [Record; MOST] {
    let mut list = [Sync; MOST];
    let mut rest = number;
    for i in 0..MOST {
        list[i] = LETTERS[rest % 5];
        rest /= 5;
    }
    list
}

/// All pairs of places of a list, if the later one is neither a sync nor a return.
fn check_list(rt: &impl Abort, records: &[Record], tally: &mut Tally) {
    let paths = paths(records);
    for j in 0..records.len() {
        for i in 0..j {
            if joins(records, j) {
                continue;
            }
            let answer = is_parallel(records, i as u64 + 1, j as u64 + 1);
            assert!(rt; answer == are_parallel(&paths, i, j), "{records:?} {i} {j}");
            if answer {
                tally.parallel = tally.parallel.saturating_add(1);
            } else {
                tally.serial = tally.serial.saturating_add(1);
            }
        }
    }
}

#[test]
fn short_lists(rt: HostRuntime) {
    let mut tally = Tally {
        parallel: 0,
        serial: 0,
    };
    for shorter in 0..MOST {
        for number in 0..COUNTS[shorter] {
            let list = list_of(number);
            let records = &list[..shorter + 1];
            if is_well_nested(records, MOST) {
                check_list(&rt, records, &mut tally);
            }
        }
    }
    assert!(rt; tally.parallel == 692, "{}", tally.parallel);
    assert!(rt; tally.serial == 6848, "{}", tally.serial);
}
