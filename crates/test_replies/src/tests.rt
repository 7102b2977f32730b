//! The program from its words to its bytes, and the crates below it: nothing here is taken from its own output.

mod asked_words;
mod devices;
mod failures;
mod files;
mod known;
mod of_texts;
mod rows;

use devices::{ENDLESS, Full, Room, Slow};
use replies::{answer, answer_confirm, refuse};
use std::alloc::{AllocError, Global};
use std::process::Abort;
use std::sync::Wait;
use std::test::*;
use std::thread::Threads;
use std::time::Clock;
use trace::{Counted, Sink, Source};
use words::{Asked, read_words};

/// What a run of the program left.
#[derive(Debug, Drop)]
pub struct Ran {
    pub status: u8,
    pub out: Vec<u8>,
    pub err: Vec<u8>,
}

/// Runs the program on a trace and a report, with readers that hand out at most `step` bytes a call.
pub fn run<T: Threads + Wait + Clock + Sync>(
    rt: &T,
    alloc: Global,
    line: &str,
    trace: &[u8],
    report: &[u8],
    step: usize,
) -> Result<Ran, AllocError> {
    let mut trace = Counted::new(Slow::new(trace, step));
    let mut report = Counted::new(Slow::new(report, step));
    run_on(rt, alloc, line, &mut trace, &mut report, ENDLESS)
}

/// Runs the program on these devices, with this room on standard output.
pub fn run_on<T: Threads + Wait + Clock + Sync, R: Source, Q: Source>(
    rt: &T,
    alloc: Global,
    line: &str,
    trace: &mut R,
    report: &mut Q,
    room: Room,
) -> Result<Ran, AllocError> {
    let words = words_of(alloc, line)?;
    let mut out = Vec::new(alloc);
    let mut err = Vec::new(alloc);
    let status = answer_words(
        rt,
        alloc,
        words.as_slice(),
        trace,
        report,
        &mut Counted::new(Full::new(&mut out, room)),
        &mut Counted::new(&mut err),
    );
    Ok(Ran { status, out, err })
}

/// Answers the words, whatever they ask. It reads the report only if the question needs it. The reports of `merge` are
/// in files, and these are none.
fn answer_words<T: Threads + Wait + Clock + Sync, R: Source, Q: Source, W: Sink, E: Sink>(
    rt: &T,
    alloc: Global,
    words: &[String],
    trace: &mut R,
    report: &mut Q,
    out: &mut W,
    err: &mut E,
) -> u8 {
    match read_words(alloc, words) {
        Ok(Asked::Question(question)) => answer(rt, alloc, &question, trace, out, err),
        Ok(Asked::Confirm(confirm)) => answer_confirm(alloc, &confirm, trace, report, out, err),
        Ok(Asked::Merge(_)) => 3,
        Err(fault) => refuse(&fault, out, err),
    }
}

/// Asserts what a run of a case left.
pub fn assert_left<R: Abort>(rt: &R, ran: &Ran, status: u8, out: &[u8], err: &[u8], case: &str) {
    assert!(rt; ran.status == status, "{case}");
    assert!(rt; ran.out.as_slice() == out, "{case}");
    assert!(rt; ran.err.as_slice() == err, "{case}");
}

/// Asserts the answer of a run of a case: with status 2 it is on standard error, and nothing else is written.
pub fn assert_answer<R: Abort>(rt: &R, ran: &Ran, status: u8, answer: &[u8], case: &str) {
    if status == 2 {
        assert_left(rt, ran, status, b"", answer, case);
    } else {
        assert_left(rt, ran, status, answer, b"", case);
    }
}

/// The words of a command line, with spaces between them.
pub fn words_of(alloc: Global, line: &str) -> Result<Vec<String>, AllocError> {
    let mut words = Vec::new(alloc);
    for word in line.split_whitespace() {
        words.push(String::from_str(alloc, word)?)?;
    }
    Ok(words)
}

/// The bytes of a column of a table, where `/` ends a line.
pub fn text_of(alloc: Global, column: &str) -> Result<Vec<u8>, AllocError> {
    let mut text = Vec::new(alloc);
    for byte in column.as_bytes() {
        text.push(if *byte == b'/' { b'\n' } else { *byte })?;
    }
    Ok(text)
}

/// A child and its parent write the same thousand locations.
pub fn flood(alloc: Global) -> Result<Vec<u8>, AllocError> {
    let mut text = Vec::from_slice(alloc, b"trace 1\nspawn\n")?;
    for _ in 0..2 {
        for place in 0..1000u64 {
            let line = format!(in alloc; "write {}\n", place * 2)?;
            text.extend_from_slice(line.as_bytes())?;
        }
        text.extend_from_slice(b"return\n")?;
    }
    Ok(text)
}
