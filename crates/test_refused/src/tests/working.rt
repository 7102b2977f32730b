//! A worker in one thread.

use super::{Hasher, print_refused};
use lane::{Item, Sender, lane};
use shard::{Back, Open, Shard, work};
use std::alloc::Global;
use std::process::Abort;
use std::sync::Wait;
use std::time::Clock;
use trace::Record::{Return, Spawn, Write};
use trace::{NoMemory, Placed, Record};

/// The records of row `three-writes`.
const THREE_WRITES: [Record; 8] = [
    Spawn,
    Write(3),
    Return,
    Spawn,
    Write(3),
    Return,
    Write(3),
    Return,
];

/// Puts the records with the places from 1 on, and the mark.
fn fill<R: Abort>(rt: &R, mut sender: Sender<Placed>, records: &[Record]) {
    for (index, what) in records.iter().enumerate() {
        let (place, what) = (index as u64 + 1, *what);
        assert!(rt; !sender.marked());
        assert!(rt; sender.put(Placed { place, what }) == Ok(()));
    }
    assert!(rt; !sender.marked() && sender.mark());
}

/// Records with one race, and the mark, by a worker. Whatever it is refused, it takes them all, and its lane back has
/// the race or the refusal, and the mark.
fn run<R: Print + Wait + Clock + Abort>(
    rt: &R,
    alloc: Global,
    capacity: usize,
    records: &[Record],
) -> Result<(), NoMemory> {
    assert!(rt; 1 <= capacity && capacity <= 65536);
    let (sender, taker) = lane::<Placed>(alloc, capacity)?;
    let (back, mut back_taker) = lane::<Back>(alloc, capacity)?;
    let shard = Shard::new(alloc, 0, Hasher::default())?;
    fill(rt, sender, records);
    let worked = work(rt, shard, taker, back, &Open);
    assert!(rt; worked.taker.ended());
    assert!(rt; worked.shard.taken() == records.len() as u64);
    let first = back_taker.take();
    if first == Some(Item::One(Back::NoMemory)) {
        print_refused(rt, "work");
    } else {
        assert!(rt; matches!(first, Some(Item::One(Back::Race(_)))));
    }
    assert!(rt; back_taker.take() == Some(Item::Finish));
    assert!(rt; back_taker.take() == None);
    Ok(())
}

#[test]
fn row(rt: HostRuntime) {
    if run(&rt, rt.alloc(), 16, &THREE_WRITES).is_err() {
        print_refused(&rt, "making");
    }
}

// More records than a worker takes at once: a worker that stops taking leaves some.
#[test]
fn more_than_a_block(rt: HostRuntime) {
    let mut records = [Write(3); 100];
    for index in 0..7usize {
        records[index] = THREE_WRITES[index];
    }
    if run(&rt, rt.alloc(), 128, &records).is_err() {
        print_refused(&rt, "making");
    }
}
