//! A source that shows its bytes: the answer is about these very bytes.
ghost use Rattle.std.specs.Prelude.{◌≡◌, ◌≤◌, ◌⊎◌, ℕ, List, Some, false, IfErr, MatchResult};
ghost use Rattle.dag.specs.declared.records.Version.{Version};
ghost use Rattle.dag.specs.declared.records.Record.{Record};
ghost use Rattle.dag.specs.Traces.{IsWellNested};
ghost use Rattle.trace.specs.Text.{text, AllFit};
ghost use Rattle.trace.specs.Faults.{IsFaultOfAll};
ghost use Rattle.trace.specs.Endings.{IsWantOfMemory, IsWantOfMemoryOrThread};
ghost use Rattle.verdict.specs.Reported.{IsReportOf};

use super::answers::{Hasher, assert_fault, assert_text, run_from, text_of};
use super::faulty_rows::all_faulty;
use super::reported_rows::{LIMITS, all_reported};
use collect::Report;
use detect::detect_plain;
use shard::Open;
use std::alloc::Global;
use std::process::Abort;
use std::sync::Wait;
use std::test::Fail;
use std::thread::Threads;
use std::time::Clock;
use trace::{Failed, Fault, Limits, Source};

/// Hands out the bytes, in pieces of one size, and shows those that are left. It never fails.
#[derive(Drop)]
struct Known<'a> {
    bytes: &'a [u8],
    size: usize,
    ghost some: { 1 ≤ size },
}

impl<'a> Source for Known<'a> {
    ghost state = { λ s. record { bytes = Some s.bytes.now; failures = 0; holds_back = false } };

    fn get(&mut self, buffer: &mut [u8]) -> Result<usize, Failed> {
        let count = self.size.min(self.bytes.len()).min(buffer.len());
        let (front, back) = self.bytes.split_at(count);
        buffer[..count].copy_from_slice(front);
        self.bytes = back;
        Ok(count)
    }
}

// The report by one thread.
fn report_plain(alloc: Global, limits: Limits, bytes: &[u8], size: usize) -> Result<Report, Fault>
    requires { 1 ≤ size }
    // Of the text of a well nested trace it is the verdict on that trace, where memory isn't refused.
    ensures report { (v : Version) (w : List Record) → bytes.now ≡ text v w → AllFit v w
        → IsWellNested w limits.records limits.depth → MatchResult result (IsReportOf w) IsWantOfMemory }
    // Otherwise the fault is the first of these bytes.
    ensures fault { IfErr result (λ fault. IsWantOfMemory fault
        ⊎ IsFaultOfAll limits.records limits.depth bytes.now fault) }
{
    let mut known = Known { bytes, size };
    detect_plain(alloc, limits, &mut known, Hasher::default())
}

// The report with a thread for each shard.
fn report_sharded<T: Threads + Wait + Clock + Sync>(
    rt: &T,
    alloc: Global,
    shards: u32,
    limits: Limits,
    bytes: &[u8],
    size: usize,
) -> Result<Report, Fault>
    requires shards { (1 ≤ shards) × (shards ≤ 64) }
    requires size { 1 ≤ size }
    ensures report { (v : Version) (w : List Record) → bytes.now ≡ text v w → AllFit v w
        → IsWellNested w limits.records limits.depth → MatchResult result (IsReportOf w) IsWantOfMemoryOrThread }
    ensures fault { IfErr result (λ fault. IsWantOfMemoryOrThread fault
        ⊎ IsFaultOfAll limits.records limits.depth bytes.now fault) }
{
    let mut known = Known { bytes, size };
    Ok(run_from(rt, alloc, shards, 1, limits, &mut known, &Open)?.report)
}

/// The text of the report on shown bytes by one thread, or the fault.
fn known_plain<R: Abort>(
    rt: &R,
    alloc: Global,
    limits: Limits,
    bytes: &[u8],
    size: usize,
) -> Result<Vec<u8>, Fault> {
    assert!(rt; 1 <= size);
    text_of(alloc, &report_plain(alloc, limits, bytes, size)?)
}

/// The same with shards.
fn known_sharded<T: Threads + Wait + Clock + Sync + Abort>(
    rt: &T,
    alloc: Global,
    shards: u32,
    limits: Limits,
    bytes: &[u8],
    size: usize,
) -> Result<Vec<u8>, Fault> {
    assert!(rt; 1 <= shards && shards <= 64 && 1 <= size);
    let report = report_sharded(rt, alloc, shards, limits, bytes, size)?;
    text_of(alloc, &report)
}

#[test]
fn reports_of_known_bytes(rt: HostRuntime) -> Result<(), Fail> {
    for row in all_reported() {
        for (shards, size) in [(1, 4096), (3, 5)] {
            let text = known_plain(&rt, rt.alloc(), LIMITS, row.text, size)?;
            assert_text(&rt, &text, row.report, row.name, 0);
            let text = known_sharded(&rt, rt.alloc(), shards, LIMITS, row.text, size)?;
            assert_text(&rt, &text, row.report, row.name, shards as usize);
        }
    }
    Ok(())
}

#[test]
fn faults_of_known_bytes(rt: HostRuntime) {
    for row in all_faulty() {
        let plain = known_plain(&rt, rt.alloc(), row.limits, row.text, 1).err();
        assert_fault(&rt, plain, row.fault, row.name, 0);
        let sharded = known_sharded(&rt, rt.alloc(), 2, row.limits, row.text, 1).err();
        assert_fault(&rt, sharded, row.fault, row.name, 2);
    }
}
