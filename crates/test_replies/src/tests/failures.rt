//! Readers that fail in each call in turn, with every kind of error, and writers that fail or take nothing.
use super::devices::{ENDLESS, Full, Halting, KINDS, Large, Room, Slow};
use super::{Ran, assert_left, run_on};
use replies::refuse;
use std::alloc::{AllocError, Global};
use std::io::ErrorKind;
use std::process::Abort;
use std::sync::Wait;
use std::test::Fail;
use std::thread::Threads;
use std::time::Clock;
use trace::Counted;
use words::WordsFault;

const COMMANDS: [&str; 6] = [
    "check --shards 1 -",
    "check --shards 3 --capacity 1 -",
    "pairs - 5",
    "explain - 5",
    "measure -",
    "confirm - b",
];

const WRITE_WRITE: &[u8] = b"trace 1\nspawn\nwrite 5\nreturn\nwrite 5\nreturn\n";

const THREE_WRITES: &[u8] =
    b"trace 1\nspawn\nwrite 3\nreturn\nspawn\nwrite 3\nreturn\nwrite 3\nreturn\n";

const REPORT: &[u8] = b"races 1\nrace 5 write 2 write 4\n";

// Runs a command on a trace of which a call fails.
fn run_halting<T: Threads + Wait + Clock + Sync>(
    rt: &T,
    alloc: Global,
    line: &str,
    trace: &[u8],
    call: usize,
    kind: ErrorKind,
) -> Result<Ran, AllocError> {
    let mut trace = Counted::new(Halting::new(trace, call, kind));
    let mut report = Counted::new(Slow::new(REPORT, 4096));
    run_on(rt, alloc, line, &mut trace, &mut report, ENDLESS)
}

// The kind of error whose turn it is at a call.
fn kind_of(call: usize) -> ErrorKind {
    KINDS[call % 41]
}

// Asserts that a command says that it can't read, whichever call of the trace fails.
fn halt_trace<T: Threads + Wait + Clock + Sync + Abort>(
    rt: &T,
    alloc: Global,
    line: &str,
    trace: &[u8],
) -> Result<(), AllocError> {
    for call in 0..=trace.len() {
        for kind in [kind_of(call), ErrorKind::Interrupted] {
            let ran = run_halting(rt, alloc, line, trace, call, kind)?;
            let case = format!(in alloc; "{line}: {kind:?} at {call}")?;
            assert_left(rt, &ran, 2, b"", b"spbags: cannot read\n", case.as_str());
        }
    }
    Ok(())
}

// A call that fails isn't tried again, and no answer comes of what was read before. There are more calls than kinds, so
// each kind has its turn.
#[test]
fn every_call_of_the_trace_fails(rt: HostRuntime) -> Result<(), Fail> {
    for line in COMMANDS {
        halt_trace(&rt, rt.alloc(), line, WRITE_WRITE)?;
    }
    Ok(())
}

// Asserts what each command says of a trace whose end can't be read.
fn judge_front<T: Threads + Wait + Clock + Sync + Abort>(
    rt: &T,
    alloc: Global,
    trace: &str,
    want: &str,
) -> Result<(), AllocError> {
    for line in COMMANDS {
        let text = trace.as_bytes();
        let ran = run_halting(rt, alloc, line, text, text.len(), ErrorKind::Other)?;
        let case = format!(in alloc; "{line}: {trace}")?;
        assert_left(rt, &ran, 2, b"", want.as_bytes(), case.as_str());
    }
    Ok(())
}

// What came before a call that fails is judged first; here all bytes come, and the call fails that would show the end.
#[test]
fn judges_what_came_before(rt: HostRuntime) -> Result<(), Fail> {
    for (trace, want) in [
        ("trace 1\nx\n", "spbags: line 2: bad line\n"),
        ("trace 1\nreturn\nsync\n", "spbags: place 2: after end\n"),
        ("trace 1\nretu", "spbags: cannot read\n"),
        ("trace 1\nreturn\n", "spbags: cannot read\n"),
        ("", "spbags: cannot read\n"),
    ] {
        judge_front(&rt, rt.alloc(), trace, want)?;
    }
    Ok(())
}

// Asserts that `confirm` says that it can't read, whichever kind of error this call of the report has.
fn halt_report<T: Threads + Wait + Clock + Sync + Abort>(
    rt: &T,
    alloc: Global,
    call: usize,
    kinds: &[ErrorKind],
) -> Result<(), AllocError> {
    for &kind in kinds {
        let mut trace = Counted::new(Slow::new(b"x\n", 1));
        let mut report = Counted::new(Halting::new(REPORT, call, kind));
        let ran = run_on(rt, alloc, "confirm - b", &mut trace, &mut report, ENDLESS)?;
        let case = format!(in alloc; "{kind:?} at {call}")?;
        assert_left(rt, &ran, 2, b"", b"spbags: cannot read\n", case.as_str());
    }
    Ok(())
}

// The report is read first: of what is no trace nothing is said.
#[test]
fn every_call_of_the_report_fails(rt: HostRuntime) -> Result<(), Fail> {
    for call in 0..=REPORT.len() {
        halt_report(&rt, rt.alloc(), call, &KINDS)?;
    }
    Ok(())
}

// Asserts that a command leaves the beginning of its answer for which there is room.
fn assert_front<T: Threads + Wait + Clock + Sync + Abort>(
    rt: &T,
    alloc: Global,
    line: &str,
    answer: &[u8],
    room: Room,
) -> Result<(), AllocError> {
    let mut source = Counted::new(Slow::new(THREE_WRITES, 4096));
    let mut report = Counted::new(Slow::new(b"races 1\nrace 4 write 5 write 7\n", 1));
    let ran = run_on(rt, alloc, line, &mut source, &mut report, room)?;
    let (front, _) = answer.split_at(room.bytes.min(answer.len()));
    let case = format!(in alloc; "{line}: {:?} after {}", room.error, room.bytes)?;
    assert_left(rt, &ran, 2, front, b"spbags: cannot write\n", case.as_str());
    Ok(())
}

// Asserts what a command leaves, whichever of its writes fails, and then its flush.
fn fill_output<T: Threads + Wait + Clock + Sync + Abort>(
    rt: &T,
    alloc: Global,
    line: &str,
    answer: &[u8],
) -> Result<(), AllocError> {
    for bytes in 0..=answer.len() {
        for error in [Some(kind_of(bytes)), Some(ErrorKind::Interrupted), None] {
            assert_front(rt, alloc, line, answer, Room { bytes, error })?;
        }
    }
    Ok(())
}

#[test]
fn says_that_the_output_is_full(rt: HostRuntime) -> Result<(), Fail> {
    for (line, answer) in [
        ("check -", "races 1\nrace 3 write 2 write 5\n"),
        (
            "pairs - 3",
            "pairs 3\npair write 2 write 5\npair write 2 write 7\npair write 5 write 7\n",
        ),
        (
            "explain - 3",
            "race 3 write 2 write 5\nmeet 0\nfirst spawn 1 write 2\nsecond spawn 4 write 5\njoined 8\n",
        ),
        ("measure -", "work 8\nspan 5\nspawns 2\ndepth 1\n"),
        ("confirm - b", "no 1\n"),
    ] {
        fill_output(&rt, rt.alloc(), line, answer.as_bytes())?;
    }
    Ok(())
}

// Asserts what a text of help leaves, of which this is the front for which there is room.
fn fill_with_help<T: Abort>(rt: &T, alloc: Global, fault: &WordsFault, front: &[u8], room: Room) {
    let mut out = Vec::new(alloc);
    let mut err = Vec::new(alloc);
    let status = refuse(
        fault,
        &mut Counted::new(Full::new(&mut out, room)),
        &mut Counted::new(Full::new(&mut err, Room { bytes: 6, ..room })),
    );
    let ran = Ran { status, out, err };
    assert_left(rt, &ran, 2, front, b"spbags", "help");
}

// A full standard error changes nothing else, and help may fail too.
#[test]
fn says_that_the_output_of_help_is_full(rt: HostRuntime) -> Result<(), Fail> {
    let fault = WordsFault::Help(String::from_str(rt.alloc(), "a text")?);
    for (bytes, error) in [(3, Some(ErrorKind::StorageFull)), (3, None), (6, None)] {
        let (front, _) = b"a text".split_at(bytes);
        fill_with_help(&rt, rt.alloc(), &fault, front, Room { bytes, error });
    }
    Ok(())
}

#[test]
fn says_that_memory_lacks(rt: HostRuntime) {
    let mut out = Vec::new(rt.alloc());
    let mut err = Vec::new(rt.alloc());
    let status = refuse(
        &WordsFault::NoMemory,
        &mut Counted::new(&mut out),
        &mut Counted::new(&mut err),
    );
    let ran = Ran { status, out, err };
    assert_left(&rt, &ran, 2, b"", b"spbags: out of memory\n", "no memory");
}

// A report may have 67108864 bytes. These are no report's text, and that is said only where they are no more.
#[test]
fn refuses_a_large_report_first(rt: HostRuntime) -> Result<(), Fail> {
    for (left, want) in [
        (67108864, "spbags: report line 1: bad\n"),
        (67108865, "spbags: report too large\n"),
    ] {
        let mut trace = Counted::new(Slow::new(b"x\n", 1));
        let mut report = Counted::new(Large { left });
        let line = "confirm - b";
        let ran = run_on(&rt, rt.alloc(), line, &mut trace, &mut report, ENDLESS)?;
        assert_left(&rt, &ran, 2, b"", want.as_bytes(), line);
    }
    Ok(())
}
