//! Worked rows: command lines, traces and reports, and what is answered.
use super::{assert_answer, assert_left, flood, run, text_of};
use std::alloc::{AllocError, Global};
use std::process::Abort;
use std::sync::Wait;
use std::test::Fail;
use std::thread::Threads;
use std::time::Clock;
use words::VERSION;

// The records of traces, and what `check` answers. `/` ends a line.
const CHECKED: &str = "\
return/ | 0 races 0/
spawn/write 5/return/write 5/return/ | 1 races 1/race 5 write 2 write 4/
spawn/write 5/return/sync/write 5/return/ | 0 races 0/
spawn/read 5/return/read 5/return/ | 0 races 0/
spawn/read 9/return/spawn/read 9/return/write 9/return/ | 1 races 1/race 9 read 2 write 7/
read 9/spawn/read 9/return/write 9/return/ | 1 races 1/race 9 read 3 write 5/
spawn/spawn/write 1/return/return/sync/read 1/return/ | 0 races 0/
spawn/write 1/return/spawn/sync/write 1/return/return/ | 1 races 1/race 1 write 2 write 6/
spawn/spawn/write 1/return/return/read 1/return/ | 1 races 1/race 1 write 3 read 6/
write 18446744073709551615/return/ | 0 races 0/
spawn/write 3/return/spawn/write 3/return/write 3/return/ | 1 races 1/race 3 write 2 write 5/
spawn/read 4/return/read 4/write 4/return/ | 1 races 1/race 4 read 2 write 5/
spawn/read 7/write 7/return/write 7/return/ | 1 races 1/race 7 write 3 write 5/
write 7/spawn/read 7/return/write 7/return/ | 1 races 1/race 7 read 3 write 5/
spawn/write 8/write 2/return/read 8/read 2/return/ | 1 races 2/race 2 write 3 read 6/race 8 write 2 read 5/
spawn/return/spawn/return/return/ | 0 races 0/
sync/return/ | 0 races 0/";

// The same of version 2, which alone has calls.
const CALLS: &str = "\
spawn/write 1/return/call/read 2/return/write 2/write 1/return/ | 1 races 1/race 1 write 2 write 8/
spawn/write 1/return/call/sync/write 1/return/return/ | 1 races 1/race 1 write 2 write 6/
call/spawn/write 1/return/return/write 1/return/ | 0 races 0/
call/write 1/return/write 1/return/ | 0 races 0/
spawn/call/write 1/return/return/write 1/return/ | 1 races 1/race 1 write 3 write 6/";

// Command lines, traces that have a fault, and the answer.
const FAULTS: &str = "\
check - | trace 1/write 18446744073709551616/return/ | 2 spbags: line 2: bad line/
check - |  | 2 spbags: line 1: truncated/
check - | trace 1/ | 2 spbags: place 1: unfinished/
check - | trace 1/return/read 1/ | 2 spbags: place 2: after end/
check - | trace 1/read 01/return/ | 2 spbags: line 2: bad line/
check - | trace 1/return | 2 spbags: line 2: truncated/
check - | trace 1/aaaaaaaaaaaaaaaaaaaaaaaaaaa | 2 spbags: line 2: bad line/
check - | trace 1/aaaaaaaaaaaaaaaaaaaaaaaaaa | 2 spbags: line 2: truncated/
check - | trace 3/return/ | 2 spbags: line 1: header/
check - | trace 02/return/ | 2 spbags: line 1: header/
check - | trace 2 | 2 spbags: line 1: truncated/
check - | trace 2/call 1/return/return/ | 2 spbags: line 2: bad line/
check - | trace 2/call/return/ | 2 spbags: place 3: unfinished/
check --depth 1 - | trace 2/call/spawn/return/return/return/ | 2 spbags: place 2: too deep/
check --depth 0 - | trace 2/call/return/return/ | 2 spbags: place 1: too deep/
check - | trace 1/call/return/return/ | 2 spbags: line 2: bad line/
check - | trace 1\r/return/ | 2 spbags: line 1: header/
check - | trace 01/return/ | 2 spbags: line 1: header/
check - | trace 1 | 2 spbags: line 1: truncated/
check - | trace 1//return/ | 2 spbags: line 2: bad line/
check - | trace 1/read  1/return/ | 2 spbags: line 2: bad line/
check - | trace 1/spawn / | 2 spbags: line 2: bad line/
check - | trace 1/spawn\r/ | 2 spbags: line 2: bad line/
check - | trace 1/read -1/ | 2 spbags: line 2: bad line/
check - | trace 1/read/ | 2 spbags: line 2: bad line/
check - | trace 1/return/return | 2 spbags: line 3: truncated/
check - | trace 1/return/return/ | 2 spbags: place 2: after end/
check - | trace 1/return/x/ | 2 spbags: line 3: bad line/
check - | trace 1/\0/return/ | 2 spbags: line 2: bad line/
check --depth 1 - | trace 1/spawn/spawn/write 1/return/return/sync/read 1/return/ | 2 spbags: place 2: too deep/
check --depth 0 - | trace 1/spawn/write 5/return/write 5/return/ | 2 spbags: place 1: too deep/
check - | trace 1/spawn/write 5/return/write 5/ | 2 spbags: place 5: unfinished/";

// Command lines, traces and the answer, and a report if the command reads one.
const ANSWERS: &str = "\
check --shards 64 --capacity 1 - | trace 1/spawn/write 5/return/sync/write 5/return/ | 0 races 0/
pairs - 3 | trace 1/spawn/write 3/return/spawn/write 3/return/write 3/return/ | \
    1 pairs 3/pair write 2 write 5/pair write 2 write 7/pair write 5 write 7/
pairs - 4 | trace 1/spawn/write 3/return/spawn/write 3/return/write 3/return/ | 0 pairs 0/
pairs - 7 | trace 1/spawn/read 7/write 7/return/write 7/return/ | \
    1 pairs 2/pair read 2 write 5/pair write 3 write 5/
pairs - 9 | trace 1/read 9/spawn/read 9/return/write 9/return/ | 1 pairs 1/pair read 3 write 5/
pairs - 1 | trace 1/spawn/spawn/write 1/return/return/sync/read 1/return/ | 0 pairs 0/
pairs - 9 | trace 1/spawn/read 9/return/spawn/read 9/return/write 9/return/ | \
    1 pairs 2/pair read 2 write 7/pair read 5 write 7/
pairs - 8 | trace 1/spawn/write 8/write 2/return/read 8/read 2/return/ | 1 pairs 1/pair write 2 read 5/
measure - | trace 1/return/ | 0 work 1/span 1/spawns 0/depth 0/
measure - | trace 1/spawn/write 5/return/write 5/return/ | 0 work 5/span 4/spawns 1/depth 1/
measure - | trace 1/spawn/write 5/return/sync/write 5/return/ | 0 work 6/span 6/spawns 1/depth 1/
measure - | trace 1/spawn/write 1/return/spawn/sync/write 1/return/return/ | 0 work 8/span 6/spawns 2/depth 1/
measure - | trace 1/spawn/spawn/write 1/return/return/sync/read 1/return/ | 0 work 8/span 8/spawns 2/depth 2/
measure - | trace 1/spawn/read 9/return/spawn/read 9/return/write 9/return/ | 0 work 8/span 5/spawns 2/depth 1/
measure --depth 0 - | trace 1/return/ | 0 work 1/span 1/spawns 0/depth 0/
pairs - 18446744073709551615 | trace 1/write 18446744073709551615/return/ | 0 pairs 0/
pairs --depth 0 - 0 | trace 1/write 0/return/ | 0 pairs 0/
measure - | trace 2/spawn/write 1/return/call/read 2/return/write 2/write 1/return/ | \
    0 work 9/span 7/spawns 1/depth 1/
measure - | trace 2/spawn/write 1/return/call/sync/write 1/return/return/ | 0 work 8/span 6/spawns 1/depth 1/
measure --depth 2 - | trace 2/call/spawn/write 1/return/return/write 1/return/ | 0 work 7/span 7/spawns 1/depth 2/
measure - | trace 2/return/ | 0 work 1/span 1/spawns 0/depth 0/
pairs - 1 | trace 2/spawn/write 1/return/call/read 2/return/write 2/write 1/return/ | \
    1 pairs 1/pair write 2 write 8/
pairs - 2 | trace 2/spawn/write 1/return/call/read 2/return/write 2/write 1/return/ | 0 pairs 0/
pairs - 1 | trace 2/spawn/write 1/return/call/sync/write 1/return/return/ | 1 pairs 1/pair write 2 write 6/
pairs - 1 | trace 2/call/spawn/write 1/return/return/write 1/return/ | 0 pairs 0/
explain - 1 | trace 1/spawn/write 1/return/write 1/return/ | \
    1 race 1 write 2 write 4/meet 0/first spawn 1 write 2/second write 4/joined 5/
explain - 1 | trace 1/spawn/write 1/return/sync/write 1/return/ | 0 no race/
explain - 1 | trace 1/spawn/write 5/return/write 5/read 1/return/ | 0 no race/
explain - 1 | trace 1/spawn/spawn/write 1/return/return/read 1/sync/return/ | \
    1 race 1 write 3 read 6/meet 0/first spawn 1 spawn 2 write 3/second read 6/joined 7/
explain - 1 | trace 1/spawn/write 1/return/spawn/sync/write 1/sync/return/sync/return/ | \
    1 race 1 write 2 write 6/meet 0/first spawn 1 write 2/second spawn 4 write 6/joined 9/
explain - 1 | trace 1/spawn/read 1/return/spawn/read 1/return/write 1/return/ | \
    1 race 1 read 2 write 7/meet 0/first spawn 1 read 2/second write 7/joined 8/
explain - 1 | trace 1/spawn/spawn/spawn/write 1/return/return/write 1/return/return/ | \
    1 race 1 write 4 write 7/meet 1/first spawn 2 spawn 3 write 4/second write 7/joined 8/
explain - 1 | trace 2/call/spawn/write 1/return/call/call/read 1/return/return/return/return/ | \
    1 race 1 write 3 read 7/meet 1/first spawn 2 write 3/second call 5 call 6 read 7/joined 10/
explain - 1 | trace 2/spawn/call/write 1/return/return/write 1/return/ | \
    1 race 1 write 3 write 6/meet 0/first spawn 1 call 2 write 3/second write 6/joined 7/
explain - 1 | trace 2/spawn/write 1/return/call/sync/return/write 1/return/ | \
    1 race 1 write 2 write 7/meet 0/first spawn 1 write 2/second write 7/joined 8/
explain - 1 | trace 2/call/spawn/write 1/return/return/write 1/return/ | 0 no race/
explain - 1 | trace 2/return/ | 0 no race/
explain - 5 | trace 1/spawn/write 5/return/write 5/ | 2 spbags: place 5: unfinished/
explain - 5 | trace 1/spawn/write 5/return/write 5/write 05/ | 2 spbags: line 6: bad line/
explain --depth 1 - 5 | trace 2/spawn/write 5/return/write 5/call/call/ | 2 spbags: place 6: too deep/
confirm - b | trace 1/spawn/write 5/return/write 5/return/ | 0 yes/ | races 1/race 5 write 2 write 4/
confirm - b | trace 1/spawn/write 5/return/write 5/return/ | 1 no 1/ | races 1/race 5 write 2 read 4/
confirm - b | trace 1/spawn/write 5/return/sync/write 5/return/ | 1 no 1/ | races 1/race 5 write 2 write 5/
confirm - b | trace 1/spawn/write 3/return/spawn/write 3/return/write 3/return/ | 0 yes/ | \
    races 1/race 3 write 5 write 7/
confirm - b | trace 1/spawn/write 5/return/write 5/return/ | 0 yes/ | races 0/
confirm - b | trace 1/spawn/write 5/return/write 5/return/ | 1 no 1/ | races 1/race 5 write 2 write 9/
confirm - b | trace 1/spawn/write 8/write 2/return/read 8/read 2/return/ | 1 no 2/ | \
    races 2/race 2 write 3 read 6/race 8 write 2 read 6/
confirm - b | trace 1/spawn/write 8/write 2/return/read 8/read 2/return/ | 0 yes/ | \
    races 2/race 2 write 3 read 6/race 8 write 2 read 5/
confirm - b | trace 2/spawn/write 1/return/call/read 2/return/write 2/write 1/return/ | 0 yes/ | \
    races 1/race 1 write 2 write 8/
confirm - b | trace 2/spawn/write 1/return/call/read 2/return/write 2/write 1/return/ | 1 no 1/ | \
    races 1/race 2 read 5 write 7/
confirm - b | trace 2/spawn/write 1/return/call/read 2/return/write 2/write 1/return/ | 1 no 2/ | \
    races 2/race 1 write 2 write 8/race 2 read 5 write 7/
confirm - b | trace 2/spawn/write 1/return/call/sync/write 1/return/return/ | 0 yes/ | \
    races 1/race 1 write 2 write 6/
confirm - b | trace 2/call/spawn/write 1/return/return/write 1/return/ | 1 no 1/ | races 1/race 1 write 3 write 6/
confirm - b | trace 1/return/ | 2 spbags: report line 1: bad/ | 
confirm - b | x/ | 2 spbags: report line 1: bad/ | 
confirm - b | trace 1/return/ | 2 spbags: report line 1: bad/ | races 0
confirm - b | x/ | 2 spbags: report line 1: bad/ | races 0
confirm - b | trace 1/return/ | 2 spbags: report line 2: bad/ | races 0//
confirm - b | x/ | 2 spbags: report line 2: bad/ | races 0//
confirm - b | trace 1/return/ | 2 spbags: report line 3: bad/ | races 2/race 5 write 2 write 4/
confirm - b | x/ | 2 spbags: report line 3: bad/ | races 2/race 5 write 2 write 4/
confirm - b | trace 1/return/ | 2 spbags: report line 2: bad/ | races 1/race 5 read 2 read 4/
confirm - b | x/ | 2 spbags: report line 2: bad/ | races 1/race 5 read 2 read 4/
confirm - b | trace 1/return/ | 2 spbags: report line 2: bad/ | races 1/race 5 write 4 write 4/
confirm - b | x/ | 2 spbags: report line 2: bad/ | races 1/race 5 write 4 write 4/
confirm - b | trace 1/return/ | 2 spbags: report line 2: bad/ | races 1/race 5 write 0 write 4/
confirm - b | x/ | 2 spbags: report line 2: bad/ | races 1/race 5 write 0 write 4/
confirm - b | trace 1/return/ | 2 spbags: report line 3: bad/ | \
    races 2/race 5 write 2 write 4/race 5 write 2 write 4/
confirm - b | x/ | 2 spbags: report line 3: bad/ | races 2/race 5 write 2 write 4/race 5 write 2 write 4/
confirm - b | trace 1/return/ | 2 spbags: report line 3: bad/ | races 1/race 5 write 2 write 4/x
confirm - b | x/ | 2 spbags: report line 3: bad/ | races 1/race 5 write 2 write 4/x
confirm - b | x/ | 2 spbags: line 1: header/ | races 0/
check | trace 1/return/ | 2 spbags: bad command line/
check --shards 0 - | trace 1/return/ | 2 spbags: bad command line/
check --shards 65 - | trace 1/return/ | 2 spbags: bad command line/
check --part 1/1 - | trace 1/return/ | 2 spbags: bad command line/
pairs - 03 | trace 1/return/ | 2 spbags: bad command line/
confirm - - | trace 1/return/ | 2 spbags: bad command line/
merge - - | trace 1/return/ | 2 spbags: bad command line/
chec - | trace 1/return/ | 2 spbags: bad command line/
 | trace 1/return/ | 2 spbags: bad command line/";

// Those of three traces of `examples/`; `examples/check` asks the built program about all of them.
const EXAMPLES: &str = "\
check - | trace 2/call/spawn/write 2/return/call/spawn/write 4/return/call/write 5/return/sync/read 4/read 5/\
    write 3/return/read 2/read 3/write 1/return/read 1/return/ | 1 races 1/race 2 write 3 read 17/
confirm - report | trace 2/call/spawn/write 2/return/call/spawn/write 4/return/call/write 5/return/sync/read 4/\
    read 5/write 3/return/read 2/read 3/write 1/return/read 1/return/ | 0 yes/ | races 1/race 2 write 3 read 17/
measure - | trace 2/call/spawn/write 2/return/call/spawn/write 4/return/call/write 5/return/sync/read 4/read 5/\
    write 3/return/read 2/read 3/write 1/return/read 1/return/ | 0 work 22/span 18/spawns 2/depth 3/
pairs - 2 | trace 2/call/spawn/write 2/return/call/spawn/write 4/return/call/write 5/return/sync/read 4/read 5/\
    write 3/return/read 2/read 3/write 1/return/read 1/return/ | 1 pairs 1/pair write 3 read 17/
check - | trace 1/spawn/write 5/read 7/return/read 7/write 5/sync/write 7/return/ | \
    1 races 1/race 5 write 2 write 6/
confirm - report | trace 1/spawn/write 5/read 7/return/read 7/write 5/sync/write 7/return/ | 0 yes/ | \
    races 1/race 5 write 2 write 6/
measure - | trace 1/spawn/write 5/read 7/return/read 7/write 5/sync/write 7/return/ | \
    0 work 9/span 7/spawns 1/depth 1/
pairs - 5 | trace 1/spawn/write 5/read 7/return/read 7/write 5/sync/write 7/return/ | \
    1 pairs 1/pair write 2 write 6/
check - | trace 1/spawn/write 5/return/write 5/return/ | 1 races 1/race 5 write 2 write 4/
confirm - report | trace 1/spawn/write 5/return/write 5/return/ | 0 yes/ | races 1/race 5 write 2 write 4/
measure - | trace 1/spawn/write 5/return/write 5/return/ | 0 work 5/span 4/spawns 1/depth 1/
pairs - 5 | trace 1/spawn/write 5/return/write 5/return/ | 1 pairs 1/pair write 2 write 4/
explain - 2 | trace 2/call/spawn/write 2/return/call/spawn/write 4/return/call/write 5/return/sync/read 4/read 5/\
    write 3/return/read 2/read 3/write 1/return/read 1/return/ | \
    1 race 2 write 3 read 17/meet 1/first spawn 2 write 3/second read 17/joined 20/
explain - 5 | trace 1/spawn/write 5/read 7/return/read 7/write 5/sync/write 7/return/ | \
    1 race 5 write 2 write 6/meet 0/first spawn 1 write 2/second write 6/joined 7/
explain - 7 | trace 1/spawn/write 5/read 7/return/read 7/write 5/sync/write 7/return/ | 0 no race/";

// What `check` is given beside its file, and how many bytes its reader hands at a call; neither changes an answer.
const WAYS: [(&str, usize); 5] = [
    ("", 1),
    ("", 4096),
    ("--shards 1 --capacity 1", 1),
    ("--shards 3 --capacity 1", 1),
    ("--shards 3", 4096),
];

#[derive(Drop)]
struct Row<'a> {
    text: &'a str,
    line: &'a str,
    trace: Vec<u8>,
    report: Vec<u8>,
    status: u8,
    answer: Vec<u8>,
}

// A command line, a trace, the status and the answer, and a report.
fn row_of(alloc: Global, text: &str) -> Result<Row<'_>, Fail> {
    let mut columns = text.split(" | ");
    let line = columns.next().ok_or("no command line")?;
    let trace = columns.next().ok_or("no trace")?;
    let answer = columns.next().ok_or("no answer")?;
    let report = columns.next().unwrap_or("");
    let (status, answer) = answer.split_once(' ').ok_or("no status")?;
    Ok(Row {
        text,
        line,
        trace: text_of(alloc, trace)?,
        report: text_of(alloc, report)?,
        status: status.parse::<u8>().unwrap_or(3),
        answer: text_of(alloc, answer)?,
    })
}

// Asserts the answer with these words beside the others, and from a reader that hands so many bytes at a call.
fn assert_way<T: Threads + Wait + Clock + Sync + Abort>(
    rt: &T,
    alloc: Global,
    row: &Row<'_>,
    options: &str,
    step: usize,
) -> Result<(), AllocError> {
    let line = format!(in alloc; "{} {options}", row.line)?;
    let ran = run(rt, alloc, line.as_str(), &row.trace, &row.report, step)?;
    let case = format!(in alloc; "{options}, {step} bytes a call: {}", row.text)?;
    assert_answer(rt, &ran, row.status, &row.answer, case.as_str());
    Ok(())
}

// Asserts the answer in each way that the command has.
fn assert_row<T: Threads + Wait + Clock + Sync + Abort>(
    rt: &T,
    alloc: Global,
    row: &Row<'_>,
) -> Result<(), AllocError> {
    let is_alone = !row.line.starts_with("check") || row.line.split_once("--shards").is_some();
    for (options, step) in WAYS {
        if options.is_empty() || !is_alone {
            assert_way(rt, alloc, row, options, step)?;
        }
    }
    Ok(())
}

// Asserts the answers of rows that all begin with the same text.
fn assert_rows<T: Threads + Wait + Clock + Sync + Abort>(
    rt: &T,
    alloc: Global,
    front: &str,
    rows: &str,
) -> Result<(), Fail> {
    for row in rows.split('\n') {
        let text = format!(in alloc; "{front}{row}")?;
        assert_row(rt, alloc, &row_of(alloc, text.as_str())?)?;
    }
    Ok(())
}

#[test]
fn checks_rows(rt: HostRuntime) -> Result<(), Fail> {
    assert_rows(&rt, rt.alloc(), "check - | trace 1/", CHECKED)
}

#[test]
fn checks_rows_of_version_2(rt: HostRuntime) -> Result<(), Fail> {
    for rows in [CHECKED, CALLS] {
        assert_rows(&rt, rt.alloc(), "check - | trace 2/", rows)?;
    }
    Ok(())
}

#[test]
fn names_faults(rt: HostRuntime) -> Result<(), Fail> {
    assert_rows(&rt, rt.alloc(), "", FAULTS)
}

// The one faulty text that is no text of characters.
#[test]
fn no_character(rt: HostRuntime) -> Result<(), Fail> {
    let ran = run(&rt, rt.alloc(), "check -", b"trace 1\n\xff\n", b"", 1)?;
    assert_answer(&rt, &ran, 2, b"spbags: line 2: bad line\n", "ff");
    Ok(())
}

#[test]
fn answers_rows(rt: HostRuntime) -> Result<(), Fail> {
    for rows in [ANSWERS, EXAMPLES] {
        assert_rows(&rt, rt.alloc(), "", rows)?;
    }
    Ok(())
}

#[test]
fn helps(rt: HostRuntime) -> Result<(), Fail> {
    for line in ["--help", "check - --help", "-V"] {
        let ran = run(&rt, rt.alloc(), line, b"", b"", 1)?;
        assert!(rt;
            ran.status == 0 && ran.err.is_empty() && !ran.out.is_empty(),
            "{line}"
        );
    }
    let version = run(&rt, rt.alloc(), "--version", b"", b"", 1)?;
    let want = format!(in rt.alloc(); "spbags {VERSION}\n")?;
    assert_left(&rt, &version, 0, want.as_bytes(), b"", "--version");
    Ok(())
}

// Of a report the races of the locations that leave the rest `index` where they are divided by `count`.
fn report_of_part(
    alloc: Global,
    report: &str,
    (index, count): (u64, u64),
) -> Result<String, AllocError> {
    let mut races = 0u64;
    let mut own = String::new(alloc);
    let (_, lines) = report.split_once('/').unwrap_or((report, ""));
    for line in lines.split_inclusive('/') {
        let location = line
            .split(' ')
            .nth(1)
            .and_then(|word| word.parse::<u64>().ok());
        if location.is_some_and(|location| location.checked_rem(count) == Some(index)) {
            races = races.saturating_add(1);
            own.push_str(line)?;
        }
    }
    let status = if races == 0 { 0 } else { 1 };
    format!(in alloc; "{status} races {races}/{own}")
}

// Checks a part of a trace with these records, whose report is this.
fn check_part<T: Threads + Wait + Clock + Sync + Abort>(
    rt: &T,
    alloc: Global,
    row: &str,
    part: (u64, u64),
) -> Result<(), Fail> {
    let (records, report) = row.split_once(" | ").ok_or("no report")?;
    let own = report_of_part(alloc, report, part)?;
    let (index, count) = part;
    let text = format!(in alloc; "check --part {index}/{count} - | trace 1/{records} | {own}")?;
    assert_way(rt, alloc, &row_of(alloc, text.as_str())?, "", 4096)?;
    Ok(())
}

#[test]
fn checks_parts_of_rows(rt: HostRuntime) -> Result<(), Fail> {
    for row in CHECKED.split('\n') {
        for part in [(0, 1), (0, 2), (1, 2), (0, 3), (1, 3), (2, 3)] {
            check_part(&rt, rt.alloc(), row, part)?;
        }
    }
    Ok(())
}

// Command lines that are given a thousand races, and the answer.
const FLOODED: &str = "\
measure - | 0 work 2003/span 1003/spawns 1/depth 1/
pairs - 1998 | 1 pairs 1/pair write 1001 write 2002/
explain - 1998 | 1 race 1998 write 1001 write 2002/meet 0/first spawn 1 write 1001/second write 2002/joined 2003/";

const FLOODED_CHECKS: [&str; 5] = [
    "check -",
    "check --shards 1 --capacity 1 -",
    "check --shards 2 --capacity 1 -",
    "check --shards 3 -",
    "check --shards 64 --capacity 1 -",
];

// The report of the thousand races.
fn flooded(alloc: Global) -> Result<String, AllocError> {
    let mut report = String::from_str(alloc, "races 1000\n")?;
    for race in 0..1000u64 {
        let line = format!(in alloc;
            "race {} write {} write {}\n",
            race * 2,
            race + 2,
            race + 1003
        )?;
        report.push_str(line.as_str())?;
    }
    Ok(report)
}

#[test]
fn reports_a_thousand_races(rt: HostRuntime) -> Result<(), Fail> {
    let text = flood(rt.alloc())?;
    let want = flooded(rt.alloc())?;
    for line in FLOODED_CHECKS {
        let ran = run(&rt, rt.alloc(), line, &text, b"", 4096)?;
        assert_answer(&rt, &ran, 1, want.as_bytes(), line);
    }
    Ok(())
}

#[test]
fn answers_about_a_thousand_races(rt: HostRuntime) -> Result<(), Fail> {
    let trace = flood(rt.alloc())?;
    for row in FLOODED.split('\n') {
        let (line, answer) = row.split_once(" | ").ok_or("no answer")?;
        let (status, answer) = answer.split_once(' ').ok_or("no status")?;
        let ran = run(&rt, rt.alloc(), line, &trace, b"", 4096)?;
        let answer = text_of(rt.alloc(), answer)?;
        assert_answer(&rt, &ran, status.parse::<u8>().unwrap_or(3), &answer, line);
    }
    Ok(())
}

// A fault at the end leaves nothing of an answer.
fn assert_unfinished<T: Threads + Wait + Clock + Sync + Abort>(
    rt: &T,
    alloc: Global,
    lines: &[&str],
) -> Result<(), AllocError> {
    let text = flood(alloc)?;
    let (text, _) = text.split_at(text.len() - b"return\n".len().min(text.len()));
    for line in lines {
        let report = b"races 1\nrace 0 write 2 write 1003\n";
        let ran = run(rt, alloc, line, text, report, 4096)?;
        assert_answer(rt, &ran, 2, b"spbags: place 2003: unfinished\n", line);
    }
    Ok(())
}

#[test]
fn reports_no_race_before_a_fault(rt: HostRuntime) -> Result<(), Fail> {
    assert_unfinished(&rt, rt.alloc(), &FLOODED_CHECKS)?;
    Ok(())
}

#[test]
fn answers_nothing_before_a_fault(rt: HostRuntime) -> Result<(), Fail> {
    let lines = ["measure -", "pairs - 0", "explain - 0", "confirm - b"];
    assert_unfinished(&rt, rt.alloc(), &lines)?;
    Ok(())
}

// Procedures one inside another, and then their returns.
fn nested(alloc: Global, depth: u32) -> Result<Vec<u8>, AllocError> {
    let mut text = Vec::from_slice(alloc, b"trace 1\n")?;
    for _ in 0..depth {
        text.extend_from_slice(b"spawn\n")?;
    }
    for _ in 0..depth {
        text.extend_from_slice(b"return\n")?;
    }
    text.extend_from_slice(b"return\n")?;
    Ok(text)
}

// Asserts what a line says of a trace of this depth.
fn assert_nested<T: Threads + Wait + Clock + Sync + Abort>(
    rt: &T,
    alloc: Global,
    line: &str,
    depth: u32,
    status: u8,
    answer: &str,
) -> Result<(), AllocError> {
    let text = nested(alloc, depth)?;
    let ran = run(rt, alloc, line, &text, b"", 4096)?;
    assert_answer(rt, &ran, status, answer.as_bytes(), line);
    Ok(())
}

// At its depth a line answers, and a trace that is one deeper is refused.
#[test]
fn keeps_to_its_depth(rt: HostRuntime) -> Result<(), Fail> {
    let numbers = "work 131073\nspan 131073\nspawns 65536\ndepth 65536\n";
    for (line, depth, status, answer) in [
        ("check -", 65536, 0, "races 0\n"),
        ("check -", 65537, 2, "spbags: place 65537: too deep\n"),
        ("measure -", 65536, 0, numbers),
        ("measure -", 65537, 2, "spbags: place 65537: too deep\n"),
        ("check --depth 0 -", 0, 0, "races 0\n"),
        ("check --depth 0 -", 1, 2, "spbags: place 1: too deep\n"),
    ] {
        assert_nested(&rt, rt.alloc(), line, depth, status, answer)?;
    }
    Ok(())
}
