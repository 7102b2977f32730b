//! A child and its parent write the same 1,000 locations: the same 1,000 races, in one thread and with shards; and
//! none if the trace has a fault at its end.

use super::answers::{answer_from, answer_of, assert_fault, assert_text, text_plain};
use shard::Gate;
use std::alloc::{AllocError, Global};
use std::sync::atomic::{AtomicU64, Ordering};
use std::test::Fail;
use test_helpers::devices::Pieces;
use trace::{Fault, Limits, NestFault, NestKind};

const LIMITS: Limits = Limits {
    records: 2003,
    depth: 1,
};

fn writes(alloc: Global) -> Result<Vec<u8>, AllocError> {
    let mut writes = Vec::new(alloc);
    for k in 0..1000u64 {
        let line = format!(in alloc; "write {}\n", 2 * k)?;
        writes.extend_from_slice(line.as_bytes())?;
    }
    Ok(writes)
}

/// The row's text.
fn trace_text(alloc: Global) -> Result<Vec<u8>, AllocError> {
    let writes = writes(alloc)?;
    let mut text = Vec::from_slice(alloc, b"trace 1\nspawn\n")?;
    text.extend_from_slice(&writes)?;
    text.extend_from_slice(b"return\n")?;
    text.extend_from_slice(&writes)?;
    text.extend_from_slice(b"return\n")?;
    Ok(text)
}

/// The row's report: the child writes at places 2 to 1001, and its parent at places 1003 to 2002.
fn report_text(alloc: Global) -> Result<Vec<u8>, AllocError> {
    let mut text = Vec::from_slice(alloc, b"races 1000\n")?;
    for k in 0..1000u64 {
        let line = format!(in alloc; "race {} write {} write {}\n", 2 * k, 2 + k, 1003 + k)?;
        text.extend_from_slice(line.as_bytes())?;
    }
    Ok(text)
}

#[test]
fn thousand_races(rt: HostRuntime) -> Result<(), Fail> {
    let trace = trace_text(rt.alloc())?;
    let report = report_text(rt.alloc())?;
    for size in [1usize, 3, 11, 4096] {
        let text = text_plain(rt.alloc(), LIMITS, &trace, size)?;
        assert_text(&rt, &text, &report, "pieces", size);
    }
    Ok(())
}

#[test]
fn thousand_races_by_shards(rt: HostRuntime) -> Result<(), Fail> {
    let trace = trace_text(rt.alloc())?;
    let report = report_text(rt.alloc())?;
    for (shards, capacity, first_took) in [
        (1, 1, 2003),
        (2, 1, 2003),
        (64, 1, 67),
        (1, 65536, 2003),
        (2, 100, 2003),
        (64, 3, 67),
    ] {
        let answer = answer_of(&rt, rt.alloc(), shards, capacity, LIMITS, &trace)?;
        assert_text(&rt, &answer.text, &report, "shards", shards as usize);
        let second_took = if shards == 1 { None } else { Some(3) };
        let taken = (answer.taken.first().copied(), answer.taken.get(1).copied());
        assert!(rt; taken == (Some(first_took), second_took), "{shards}");
    }
    Ok(())
}

/// A gate that counts the records that pass it.
#[derive(Drop)]
struct Counting {
    passed: AtomicU64,
}

impl Gate for Counting {
    fn pass(&self, _shard: u32, _place: u64) {
        self.passed.fetch_add(1, Ordering::SeqCst);
    }
}

// Both workers have come to their ends: one took 2,002 records, and the other a spawn and a return.
#[test]
fn fault_after_a_flood(rt: HostRuntime) -> Result<(), Fail> {
    let trace = trace_text(rt.alloc())?;
    let gate = Counting {
        passed: AtomicU64::new(0),
    };
    let mut pieces = Pieces::of(
        trace.strip_suffix(b"return\n").ok_or("no last record")?,
        4096,
    );
    let answer = answer_from(&rt, rt.alloc(), 2, 1, LIMITS, &mut pieces, &gate);
    let fault = Fault::Nest(NestFault {
        place: 2003,
        kind: NestKind::Unfinished,
    });
    assert_fault(&rt, answer.err(), fault, "shards", 2);
    assert!(rt; gate.passed.load(Ordering::SeqCst) == 2004);
    Ok(())
}
