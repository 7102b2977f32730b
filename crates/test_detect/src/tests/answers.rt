//! How the tests detect: from a source that hands out pieces, to the report's text or the fault.
ghost use Rattle.std.specs.Prelude.{◌≡◌, ◌≤◌, None, IfOk, vec_len};
ghost use Rattle.trace.specs.Devices.{◌⇝◌};
ghost use Rattle.trace.specs.Endings.{EndsReading, IsWantOfMemoryOrThread};
ghost use Rattle.detect.specs.RunReports.{RunAnswers};

use collect::{Report, write_report};
use detect::{Plan, Run, detect, detect_part, detect_plain};
use shard::{Gate, Open};
use std::alloc::Global;
use std::hash::{BuildHasherDefault, FoldHasher};
use std::process::Abort;
use std::sync::Wait;
use std::thread::Threads;
use std::time::Clock;
use test_helpers::devices::Pieces;
use trace::{Counted, Fault, Limits, NoMemory, Part, Source};

pub type Hasher = BuildHasherDefault<FoldHasher>;

/// The text of the report by one thread, from pieces of the size.
pub fn text_plain(
    alloc: Global,
    limits: Limits,
    bytes: &[u8],
    size: usize,
) -> Result<Vec<u8>, Fault> {
    let mut pieces = Pieces::of(bytes, size);
    let report = detect_plain(alloc, limits, &mut pieces, Hasher::default())?;
    text_of(alloc, &report)
}

/// Detects with a thread for each shard, over lanes of this capacity.
pub fn run_from<T: Threads + Wait + Clock + Sync, R: Source, G: Gate + Sync>(
    rt: &T,
    alloc: Global,
    shards: u32,
    capacity: u32,
    limits: Limits,
    source: &mut R,
    gate: &G,
) -> Result<Run, Fault>
    requires shards { (1 ≤ shards) × (shards ≤ 64) }
    requires capacity { (1 ≤ capacity) × (capacity ≤ 65536) }
    ensures { EndsReading IsWantOfMemoryOrThread limits.records limits.depth (R.state source.old ⇝ R.state source.new)
        (RunAnswers shards) result }
{
    let hashers = hashers(alloc, shards)?;
    detect(
        rt,
        alloc,
        Plan::new(shards, capacity, limits),
        source,
        gate,
        hashers,
    )
}

/// The answer of a run: the report's text, and the number of records that each shard took.
#[derive(Drop)]
pub struct Answer {
    pub text: Vec<u8>,
    pub taken: Vec<u64>,
}

/// The answer of a run from the source.
pub fn answer_from<T: Threads + Wait + Clock + Sync + Abort, R: Source, G: Gate + Sync>(
    rt: &T,
    alloc: Global,
    shards: u32,
    capacity: u32,
    limits: Limits,
    source: &mut R,
    gate: &G,
) -> Result<Answer, Fault> {
    assert!(rt; 1 <= shards && shards <= 64 && 1 <= capacity && capacity <= 65536);
    let run = run_from(rt, alloc, shards, capacity, limits, source, gate)?;
    let text = text_of(alloc, &run.report)?;
    let taken = run.taken;
    Ok(Answer { text, taken })
}

/// The answer of a run from a source that hands out one byte at each call.
pub fn answer_of<T: Threads + Wait + Clock + Sync + Abort>(
    rt: &T,
    alloc: Global,
    shards: u32,
    capacity: u32,
    limits: Limits,
    bytes: &[u8],
) -> Result<Answer, Fault> {
    let mut pieces = Pieces::of(bytes, 1);
    answer_from(rt, alloc, shards, capacity, limits, &mut pieces, &Open)
}

/// The report of a part of the locations by the same kind of run, and the number of records that each shard took.
pub fn answer_of_part<T: Threads + Wait + Clock + Sync + Abort>(
    rt: &T,
    alloc: Global,
    shards: u32,
    part: Part,
    limits: Limits,
    bytes: &[u8],
) -> Result<(Report, Vec<u64>), Fault> {
    assert!(rt; 1 <= shards && shards <= 64);
    let hashers = hashers(alloc, shards)?;
    let plan = Plan::new(shards, 1, limits);
    let mut pieces = Pieces::of(bytes, 1);
    let run = detect_part(rt, alloc, plan, part, &mut pieces, &Open, hashers)?;
    Ok((run.report, run.taken))
}

/// Asserts the text of the row of this name. The number is that of the shards, 0 for one thread, or the pieces' size.
pub fn assert_text<R: Abort>(rt: &R, text: &[u8], wanted: &[u8], name: &str, by: usize) {
    assert!(rt; text == wanted, "{name} by {by}");
}

/// Asserts the fault of the row, in the same way.
pub fn assert_fault<R: Abort>(rt: &R, fault: Option<Fault>, wanted: Fault, name: &str, by: usize) {
    assert!(rt; fault == Some(wanted), "{name} by {by}");
}

fn hashers(alloc: Global, count: u32) -> Result<Vec<Hasher>, NoMemory>
    ensures { IfOk result (λ hashers. vec_len hashers ≡ count) }
{
    let mut hashers = Vec::new(alloc);
    for _ in 0..count {
        hashers.push(Hasher::default())?;
    }
    Ok(hashers)
}

/// The report's text.
pub fn text_of(alloc: Global, report: &Report) -> Result<Vec<u8>, Fault> {
    let mut text = Vec::new(alloc);
    match write_report(report, &mut Counted::new(&mut text)) {
        Ok(()) => Ok(text),
        Err(_) => Err(Fault::NoMemory),
    }
}
