//! What is answered about a trace, as texts. The callers know of the answers no more than that, or their proofs take
//! long.

use super::super::text_of;
use super::parts::Parts;
use audit::{confirm, explain, measure, pairs};
use collect::{Report, read_report};
use std::alloc::Global;
use texts::{put_confirm, put_explained, put_measure, put_pairs, say_fault};
use trace::{Counted, Fault, Feed, Limits};

/// The source of a test.
type Source<'a> = Counted<Parts<'a>>;

// Whether one more record was read. What else is known of the feed isn't needed here.
fn read_one(feed: &mut Feed<Source<'_>>) -> Result<bool, Fault> {
    match feed.next() {
        Ok(placed) => Ok(placed.is_some()),
        Err(fault) => Err(fault),
    }
}

// Reads all records, and answers how many there were or the fault, where the next call answers that too.
fn count_of(limits: Limits, source: Source<'_>) -> Result<u64, Fault> {
    let mut feed = Feed::new(limits, source);
    let mut count: u64 = 0;
    for _ in 0..1_000_000 {
        match read_one(&mut feed) {
            Ok(true) => count = count.saturating_add(1),
            Ok(false) => return Ok(count),
            Err(fault) if read_one(&mut feed) == Err(fault) => return Err(fault),
            Err(_) => return Ok(count),
        }
    }
    Ok(count)
}

// Puts how many records there are.
fn put_count(
    alloc: Global,
    limits: Limits,
    source: Source<'_>,
    out: &mut Vec<u8>,
) -> Result<(), Fault> {
    let count = count_of(limits, source)?;
    if let Ok(line) = format!(in alloc; "records {count}\n") {
        let _ = out.extend_from_slice(line.as_bytes());
    }
    Ok(())
}

fn put_measured(
    alloc: Global,
    limits: Limits,
    mut source: Source<'_>,
    out: &mut Vec<u8>,
) -> Result<(), Fault> {
    let measured = measure(alloc, limits, &mut source)?;
    let _ = put_measure(&measured, &mut Counted::new(out));
    Ok(())
}

fn put_listed(
    alloc: Global,
    limits: Limits,
    mut source: Source<'_>,
    location: u64,
    out: &mut Vec<u8>,
) -> Result<(), Fault> {
    let listed = pairs(alloc, limits, &mut source, location)?;
    let _ = put_pairs(&listed, &mut Counted::new(out));
    Ok(())
}

fn put_reason(
    alloc: Global,
    limits: Limits,
    mut source: Source<'_>,
    location: u64,
    out: &mut Vec<u8>,
) -> Result<(), Fault> {
    let explained = explain(alloc, limits, &mut source, location)?;
    let _ = put_explained(&explained, &mut Counted::new(out));
    Ok(())
}

fn put_confirmed(
    alloc: Global,
    limits: Limits,
    mut source: Source<'_>,
    report: &Report,
    out: &mut Vec<u8>,
) -> Result<(), Fault> {
    let confirmed = confirm(alloc, limits, &mut source, report)?;
    let _ = put_confirm(confirmed, &mut Counted::new(out));
    Ok(())
}

// Puts whether the report of this text is confirmed, and nothing where it isn't a report.
fn put_confirmed_text(
    alloc: Global,
    limits: Limits,
    source: Source<'_>,
    report: &str,
    out: &mut Vec<u8>,
) -> Result<(), Fault> {
    if let Ok(text) = text_of(alloc, report)
        && let Ok(report) = read_report(alloc, text.as_slice())
    {
        put_confirmed(alloc, limits, source, &report, out)?;
    }
    Ok(())
}

// Puts the answer to a question.
fn put_answer(
    alloc: Global,
    limits: Limits,
    question: &str,
    source: Source<'_>,
    out: &mut Vec<u8>,
) -> Result<(), Fault> {
    let (word, rest) = question.split_once(' ').unwrap_or((question, ""));
    let location = rest.parse::<u64>().unwrap_or(0);
    match word {
        "read" => put_count(alloc, limits, source, out),
        "measure" => put_measured(alloc, limits, source, out),
        "pairs" => put_listed(alloc, limits, source, location, out),
        "explain" => put_reason(alloc, limits, source, location, out),
        _ => put_confirmed_text(alloc, limits, source, rest, out),
    }
}

/// The answer to a question, or the message of the fault, before which nothing is put.
pub fn answer(alloc: Global, limits: Limits, question: &str, parts: Parts<'_>) -> Vec<u8> {
    let mut out = Vec::new(alloc);
    if let Err(fault) = put_answer(alloc, limits, question, Counted::new(parts), &mut out) {
        say_fault(&fault, &mut Counted::new(&mut out));
    }
    out
}
