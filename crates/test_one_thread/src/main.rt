//! The races of a trace, found in one thread.
#![tactic(auto)]

use collect::write_report;
use detect_plain::detect_plain;
use std::env;
use std::fs::File;
use std::hash::{BuildHasherDefault, FoldHasher};
use std::io::{BufReader, BufWriter};
use std::process::ExitCode;
use trace::{Counted, Limits, Sink};

fn main(rt: HostRuntime) -> ExitCode {
    ExitCode::from(report(&rt).unwrap_or(2))
}

// Prints the report of the trace that the first word names, and gives the exit status.
fn report(rt: &HostRuntime) -> Option<u8> {
    let alloc = rt.alloc();
    let name = env::args(rt).ok()?.skip(1).next()?;
    let file = File::open(rt, name.as_str()).ok()?;
    let mut ahead = Counted::new(BufReader::with_capacity(alloc, 1 << 16, file).ok()?);
    let limits = Limits {
        records: 1 << 48,
        depth: 65536,
    };
    let hasher: BuildHasherDefault<FoldHasher> = BuildHasherDefault::default();
    let report = detect_plain(alloc, limits, &mut ahead, hasher).ok()?;
    let mut out = Counted::new(BufWriter::new(alloc, rt.stdout()).ok()?);
    write_report(&report, &mut out).ok()?;
    out.flush().ok()?;
    Some(if report.races().is_empty() { 0 } else { 1 })
}
