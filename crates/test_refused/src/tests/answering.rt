//! The answers of the program, from a trace to standard output and standard error.

use super::print_refused;
use replies::{answer, answer_confirm};
use std::alloc::{AllocError, Global};
use std::io::{self, Write};
use std::process::Abort;
use std::sync::Wait;
use std::thread::Threads;
use std::time::Clock;
use trace::{Counted, Part};
use words::{CheckWords, ConfirmWords, LocationWords, MeasureWords, Question};

/// Row `write-write`.
const WRITE_WRITE: &[u8] = b"trace 1\nspawn\nwrite 5\nreturn\nwrite 5\nreturn\n";

/// Row `call-mixed`.
const CALL_MIXED: &[u8] =
    b"trace 2\nspawn\nwrite 1\nreturn\ncall\nread 2\nreturn\nwrite 2\nwrite 1\nreturn\n";

/// Keeps up to 64 bytes, and takes no memory.
#[derive(Drop)]
struct Room {
    bytes: [u8; 64],
    count: usize,
}

impl Room {
    fn new() -> Room {
        Room {
            bytes: [0; 64],
            count: 0,
        }
    }

    fn kept(&self) -> &[u8] {
        self.bytes.split_at(self.count.min(64)).0
    }
}

impl Write for Room {
    fn write(&mut self, buffer: &[u8]) -> io::Result<usize> {
        if buffer.is_empty() || self.count >= 64 {
            return Ok(0);
        }
        self.bytes[self.count] = buffer[0];
        self.count += 1;
        Ok(1)
    }

    fn flush(&mut self) -> io::Result<()> {
        Ok(())
    }
}

/// The answer is the expected one, or it is the message of a refusal, and this reports it. A thread may be refused
/// only if the call starts threads.
fn judge<R: Print + Abort>(
    rt: &R,
    left: (u8, &[u8], &[u8]),
    starts_threads: bool,
    wanted: (u8, &[u8]),
) {
    let (status, out, err) = left;
    if status != 2 {
        assert!(rt; (status, out) == wanted);
        assert!(rt; err.is_empty());
        return;
    }
    assert!(rt; out.is_empty());
    if starts_threads && err == b"spbags: no thread\n".as_slice() {
        print_refused(rt, "thread");
        return;
    }
    assert!(rt; err == b"spbags: out of memory\n".as_slice());
    print_refused(rt, "memory");
}

/// Answers a question about a trace.
fn ask<T: Threads + Wait + Clock + Sync + Abort + Print>(
    rt: &T,
    alloc: Global,
    trace: &[u8],
    question: Result<Question, AllocError>,
    wanted: (u8, &[u8]),
) {
    let Ok(question) = question else {
        print_refused(rt, "name");
        return;
    };
    let (mut out, mut err) = (Room::new(), Room::new());
    let status = answer(
        rt,
        alloc,
        &question,
        &mut Counted::new(trace),
        &mut Counted::new(&mut out),
        &mut Counted::new(&mut err),
    );
    let starts_threads = matches!(question, Question::Check(_));
    judge(rt, (status, out.kept(), err.kept()), starts_threads, wanted);
}

fn check(alloc: Global) -> Result<Question, AllocError> {
    Ok(Question::Check(CheckWords {
        shards: 2,
        capacity: 1,
        depth: 9,
        part: Part::whole(),
        trace: String::from_str(alloc, "-")?,
    }))
}

fn pairs(alloc: Global, location: u64) -> Result<Question, AllocError> {
    Ok(Question::Pairs(LocationWords {
        depth: 9,
        trace: String::from_str(alloc, "-")?,
        location,
    }))
}

fn measure(alloc: Global) -> Result<Question, AllocError> {
    Ok(Question::Measure(MeasureWords {
        depth: 9,
        trace: String::from_str(alloc, "-")?,
    }))
}

#[test]
fn checked(rt: HostRuntime) {
    for (trace, wanted) in [
        (WRITE_WRITE, b"races 1\nrace 5 write 2 write 4\n".as_slice()),
        (CALL_MIXED, b"races 1\nrace 1 write 2 write 8\n".as_slice()),
    ] {
        ask(&rt, rt.alloc(), trace, check(rt.alloc()), (1, wanted));
    }
}

#[test]
fn listed(rt: HostRuntime) {
    for (trace, location, status, wanted) in [
        (
            WRITE_WRITE,
            5,
            1,
            b"pairs 1\npair write 2 write 4\n".as_slice(),
        ),
        (
            CALL_MIXED,
            1,
            1,
            b"pairs 1\npair write 2 write 8\n".as_slice(),
        ),
        (CALL_MIXED, 2, 0, b"pairs 0\n".as_slice()),
    ] {
        let question = pairs(rt.alloc(), location);
        ask(&rt, rt.alloc(), trace, question, (status, wanted));
    }
}

#[test]
fn measured(rt: HostRuntime) {
    for (trace, wanted) in [
        (
            WRITE_WRITE,
            b"work 5\nspan 4\nspawns 1\ndepth 1\n".as_slice(),
        ),
        (
            CALL_MIXED,
            b"work 9\nspan 7\nspawns 1\ndepth 1\n".as_slice(),
        ),
    ] {
        ask(&rt, rt.alloc(), trace, measure(rt.alloc()), (0, wanted));
    }
}

fn confirm(alloc: Global) -> Result<ConfirmWords, AllocError> {
    Ok(ConfirmWords {
        depth: 9,
        trace: String::from_str(alloc, "trace")?,
        report: String::from_str(alloc, "-")?,
    })
}

/// Answers whether the report is one of races of a trace.
fn ask_confirm<R: Print + Abort>(
    rt: &R,
    alloc: Global,
    trace: &[u8],
    report: &[u8],
    wanted: (u8, &[u8]),
) {
    let Ok(confirm) = confirm(alloc) else {
        print_refused(rt, "name");
        return;
    };
    let (mut out, mut err) = (Room::new(), Room::new());
    let status = answer_confirm(
        alloc,
        &confirm,
        &mut Counted::new(trace),
        &mut Counted::new(report),
        &mut Counted::new(&mut out),
        &mut Counted::new(&mut err),
    );
    judge(rt, (status, out.kept(), err.kept()), false, wanted);
}

#[test]
fn confirmed(rt: HostRuntime) {
    let (yes, no) = ((0, b"yes\n".as_slice()), (1, b"no 1\n".as_slice()));
    for (trace, report, wanted) in [
        (
            WRITE_WRITE,
            b"races 1\nrace 5 write 2 write 4\n".as_slice(),
            yes,
        ),
        (
            WRITE_WRITE,
            b"races 1\nrace 5 write 2 read 4\n".as_slice(),
            no,
        ),
        (
            CALL_MIXED,
            b"races 1\nrace 1 write 2 write 8\n".as_slice(),
            yes,
        ),
        (
            CALL_MIXED,
            b"races 1\nrace 2 read 5 write 7\n".as_slice(),
            no,
        ),
    ] {
        ask_confirm(&rt, rt.alloc(), trace, report, wanted);
    }
}
