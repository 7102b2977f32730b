//! The workers run beside each other, and beside the reading. A body on one thread fails here.
ghost use Rattle.std.specs.Prelude.{None, false};

use super::answers::answer_from;
use super::reported_rows::{LIMITS, WRITE_WRITE};
use shard::Gate;
use std::alloc::{AllocError, Global};
use std::sync::atomic::{AtomicBool, Ordering};
use std::test::Fail;
use std::thread;
use test_helpers::devices::Pieces;
use trace::{Failed, Limits, Source};

/// How often a gate or a reader that waits looks: a load of a flag, and a yield if it isn't set.
const LOOKS: u32 = 1_000_000;

const REPORT: &[u8] = b"races 1\nrace 5 write 2 write 4\n";

/// A gate at which all shards meet: the first pass of each sets its flag, and waits for the others' flags.
#[derive(Drop)]
struct Meeting {
    came: Vec<AtomicBool>,
    missed: AtomicBool,
}

impl Meeting {
    fn of(alloc: Global, shards: u32) -> Result<Meeting, AllocError> {
        let mut came = Vec::new(alloc);
        for _ in 0..shards {
            came.push(AtomicBool::new(false))?;
        }
        Ok(Meeting {
            came,
            missed: AtomicBool::new(false),
        })
    }

    /// After the last look the run goes on, so that it ends.
    fn wait_for_all(&self) {
        let mut known = 0;
        for _ in 0..LOOKS {
            match self.came.get(known) {
                None => return,
                Some(flag) if flag.load(Ordering::SeqCst) => known += 1,
                Some(_) => thread::yield_now(),
            }
        }
        self.missed.store(true, Ordering::SeqCst);
    }
}

impl Gate for Meeting {
    fn pass(&self, shard: u32, _place: u64) {
        match self.came.get(shard as usize) {
            Some(flag) if !flag.swap(true, Ordering::SeqCst) => self.wait_for_all(),
            _ => {}
        }
    }
}

#[test]
fn two_shards_meet(rt: HostRuntime) -> Result<(), Fail> {
    for shards in [2u32, 8] {
        let gate = Meeting::of(rt.alloc(), shards)?;
        let mut pieces = Pieces::of(WRITE_WRITE, 1);
        let text = answer_from(&rt, rt.alloc(), shards, 1, LIMITS, &mut pieces, &gate)?.text;
        assert!(rt; !gate.missed.load(Ordering::SeqCst), "{shards} shards");
        assert!(rt; text.as_slice() == REPORT);
    }
    Ok(())
}

/// A child reads location 0 forty times.
fn reads_of_one_shard(alloc: Global) -> Result<Vec<u8>, AllocError> {
    let mut text = Vec::from_slice(alloc, b"trace 1\nspawn\n")?;
    for _ in 0..40 {
        text.extend_from_slice(b"read 0\n")?;
    }
    text.extend_from_slice(b"return\nreturn\n")?;
    Ok(text)
}

/// The lane to shard 0 is full while that shard waits at the gate for shard 1, whose spawn stays staged until a flush.
#[test]
fn two_shards_meet_at_a_full_lane(rt: HostRuntime) -> Result<(), Fail> {
    let gate = Meeting::of(rt.alloc(), 2)?;
    let trace = reads_of_one_shard(rt.alloc())?;
    let mut pieces = Pieces::of(&trace, 4096);
    let limits = Limits {
        records: 43,
        depth: 1,
    };
    let text = answer_from(&rt, rt.alloc(), 2, 4, limits, &mut pieces, &gate)?.text;
    assert!(rt; !gate.missed.load(Ordering::SeqCst));
    assert!(rt; text.as_slice() == b"races 0\n".as_slice());
    Ok(())
}

/// A gate that notes that a shard has passed.
#[derive(Drop)]
struct Noting {
    passed: AtomicBool,
}

impl Gate for Noting {
    fn pass(&self, _shard: u32, _place: u64) {
        self.passed.store(true, Ordering::SeqCst);
    }
}

/// A reader that gives its second piece only after a shard has passed a record, which is one of the first.
#[derive(Drop)]
struct Following<'a> {
    pieces: Pieces<'a>,
    second: Option<&'a [u8]>,
    passed: &'a AtomicBool,
    missed: bool,
}

impl<'a> Following<'a> {
    /// Whether a shard passes a record before the last look.
    fn waits_for_shard(&self) -> bool {
        for _ in 0..LOOKS {
            if self.passed.load(Ordering::SeqCst) {
                return true;
            }
            thread::yield_now();
        }
        false
    }
}

impl<'a> Source for Following<'a> {
    ghost state = { λ s. record { bytes = None; failures = s.pieces.failed; holds_back = false } };

    fn get(&mut self, buffer: &mut [u8]) -> Result<usize, Failed> {
        if self.pieces.bytes.is_empty() {
            // After the last look the run goes on, so that it ends.
            if let Some(second) = self.second.take() {
                self.missed = !self.waits_for_shard();
                self.pieces.bytes = second;
            }
        }
        self.pieces.get(buffer)
    }
}

#[test]
fn reader_follows_shard(rt: HostRuntime) -> Result<(), Fail> {
    let (first, second) = WRITE_WRITE.split_at(14);
    assert!(rt; first == b"trace 1\nspawn\n".as_slice());
    for capacity in [1u32, 1024] {
        let gate = Noting {
            passed: AtomicBool::new(false),
        };
        let mut reader = Following {
            pieces: Pieces::of(first, 4096),
            second: Some(second),
            passed: &gate.passed,
            missed: false,
        };
        let text = answer_from(&rt, rt.alloc(), 2, capacity, LIMITS, &mut reader, &gate)?.text;
        assert!(rt; !reader.missed, "capacity {capacity}");
        assert!(rt; text.as_slice() == REPORT);
    }
    Ok(())
}
