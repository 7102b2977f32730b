//! The worked rows with a thread a shard: the answers of one thread, and what each shard took.

use super::answers::{answer_of, assert_fault, assert_text, text_plain};
use super::faulty_rows::all_faulty;
use super::reported_rows::{CALL_MIXED, LIMITS, THREE_SHARDS, WRITE_WRITE, all_reported};
use std::alloc::Global;
use std::process::Abort;
use std::sync::Wait;
use std::test::Fail;
use std::thread::Threads;
use std::time::Clock;

/// How many shards each row is run with, and how many items each lane holds then.
const SHARDS: [(u32, u32); 8] = [
    (1, 1),
    (2, 1),
    (3, 1),
    (64, 1),
    (1, 65536),
    (2, 2),
    (3, 1024),
    (64, 5),
];

#[test]
fn same_reports(rt: HostRuntime) -> Result<(), Fail> {
    for row in all_reported() {
        let plain = text_plain(rt.alloc(), LIMITS, row.text, 1)?;
        assert_text(&rt, &plain, row.report, row.name, 0);
        for (shards, capacity) in SHARDS {
            let text = answer_of(&rt, rt.alloc(), shards, capacity, LIMITS, row.text)?.text;
            assert_text(&rt, &text, &plain, row.name, shards as usize);
        }
    }
    Ok(())
}

#[test]
fn same_faults(rt: HostRuntime) {
    for row in all_faulty() {
        let plain = text_plain(rt.alloc(), row.limits, row.text, 1).err();
        assert_fault(&rt, plain, row.fault, row.name, 0);
        for (shards, capacity) in SHARDS {
            let fault = answer_of(&rt, rt.alloc(), shards, capacity, row.limits, row.text).err();
            assert_fault(&rt, fault, row.fault, row.name, shards as usize);
        }
    }
}

fn check_shares<T: Threads + Wait + Clock + Sync + Abort>(
    rt: &T,
    alloc: Global,
    shards: u32,
    text: &[u8],
    shares: &[u64],
) -> Result<(), Fail> {
    let taken = answer_of(rt, alloc, shards, 1, LIMITS, text)?.taken;
    assert!(rt; taken.as_slice() == shares, "{shards} shards");
    Ok(())
}

#[test]
fn shards_take_their_shares(rt: HostRuntime) -> Result<(), Fail> {
    check_shares(&rt, rt.alloc(), 1, WRITE_WRITE, &[5])?;
    check_shares(&rt, rt.alloc(), 2, WRITE_WRITE, &[3, 5])?;
    check_shares(&rt, rt.alloc(), 3, WRITE_WRITE, &[3, 3, 5])?;
    check_shares(&rt, rt.alloc(), 3, THREE_SHARDS, &[3, 3, 7])?;
    check_shares(&rt, rt.alloc(), 3, CALL_MIXED, &[5, 7, 7])?;
    let mut many = [3u64; 64];
    many[5] = 5;
    check_shares(&rt, rt.alloc(), 64, WRITE_WRITE, &many)
}
