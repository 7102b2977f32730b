//! The worked rows of the questions, in pieces of some sizes and cut at every place.

use super::super::text_of;
use super::answers::answer;
use super::parts::Parts;
use std::alloc::Global;
use std::process::Abort;
use std::test::Fail;
use trace::Limits;

// A question, a trace, the answer, and under what: a limit other than the usual one, or a source that fails at its end.
// A question of a report has its text. `/` ends a line.
const ROWS: &str = "read | trace 1/return/ | records 1/
read | trace 1/spawn/write 5/return/write 5/return/ | records 5/
read | trace 1/write 18446744073709551615/return/ | records 2/
read | trace 1/read 0/read 1844674407370955161/read 10/return/ | records 4/
read | trace 1\r/return/ | spbags: line 1: header/
read | trace 01/return/ | spbags: line 1: header/
read | trace 1 | spbags: line 1: truncated/
read | trace 1//return/ | spbags: line 2: bad line/
read | trace 1/read  1/return/ | spbags: line 2: bad line/
read | trace 1/spawn / | spbags: line 2: bad line/
read | trace 1/read -1/ | spbags: line 2: bad line/
read | trace 1/read/ | spbags: line 2: bad line/
read | trace 1/call/return/ | spbags: line 2: bad line/
read | trace 1/return/return | spbags: line 3: truncated/
read | trace 1/return/x/ | spbags: line 3: bad line/
read | trace 1/write 18446744073709551616/return/ | spbags: line 2: bad line/
read |  | spbags: line 1: truncated/
read | trace 1/read 01/return/ | spbags: line 2: bad line/
read | trace 1/return | spbags: line 2: truncated/
read | trace 1/return/return/ | spbags: line 3: too many records/ | records 1
read | trace 1/return/retur/ | spbags: line 3: bad line/ | records 1
read | trace 1/aaaaaaaaaaaaaaaaaaaaaaaaaaa | spbags: line 2: bad line/
read | trace 1/aaaaaaaaaaaaaaaaaaaaaaaaaa | spbags: line 2: truncated/
read | trace 1/spawn\r/ | spbags: line 2: bad line/
read | trace 1/\0/ | spbags: line 2: bad line/
read | trace 1/return/return/ | spbags: place 2: after end/
read | trace 1/ | spbags: place 1: unfinished/
read | trace 1/return/read 1/ | spbags: place 2: after end/
read | trace 1/spawn/spawn/ | spbags: place 2: too deep/ | depth 1
read | trace 2/return/ | records 1/
read | trace 0/return/ | spbags: line 1: header/
read | trace 3/return/ | spbags: line 1: header/
read | trace 02/return/ | spbags: line 1: header/
read | trace 12/return/ | spbags: line 1: header/
read | trace 20/return/ | spbags: line 1: header/
read | trace 22/return/ | spbags: line 1: header/
read | trace  2/return/ | spbags: line 1: header/
read | trace 2 /return/ | spbags: line 1: header/
read | trace 2\r/return/ | spbags: line 1: header/
read | trace +2/return/ | spbags: line 1: header/
read | trace/return/ | spbags: line 1: header/
read | Trace 2/return/ | spbags: line 1: header/
read | call/return/ | spbags: line 1: header/
read | trace 2 | spbags: line 1: truncated/
read | trace 2/call/return/return/ | records 3/
read | trace 1/call/return/return/ | spbags: line 2: bad line/
read | trace 2/spawn/call/return/return/write 18446744073709551615/return/ | records 6/
read | trace 1/spawn/call/return/return/write 18446744073709551615/return/ | spbags: line 3: bad line/
read | trace 2/call/sync/read 2/return/spawn/write 2/return/return/ | records 8/
read | trace 2/Call/return/return/ | spbags: line 2: bad line/
read | trace 2/calls/return/return/ | spbags: line 2: bad line/
read | trace 2/cal/return/return/ | spbags: line 2: bad line/
read | trace 2/call /return/return/ | spbags: line 2: bad line/
read | trace 2/ call/return/return/ | spbags: line 2: bad line/
read | trace 2/call\r/return/return/ | spbags: line 2: bad line/
read | trace 2/call 1/write 1/return/return/ | spbags: line 2: bad line/
read | trace 2/call/call 18446744073709551615/return/return/ | spbags: line 3: bad line/
read | trace 2/read 01/return/ | spbags: line 2: bad line/
read | trace 2/trace 2/return/ | spbags: line 2: bad line/
read | trace 1/trace 2/return/ | spbags: line 2: bad line/
read | trace 2/call/ | spbags: place 1: too deep/ | depth 0
read | trace 2/call/call/ | spbags: place 2: too deep/ | depth 1
read | trace 2/spawn/call/ | spbags: place 2: too deep/ | depth 1
read | trace 2/call/spawn/ | spbags: place 2: too deep/ | depth 1
read | trace 2/call/return/call/spawn/ | spbags: place 4: too deep/ | depth 1
read | trace 2/return/call/ | spbags: place 2: after end/ | depth 0
read | trace 2/call/return/ | spbags: place 3: unfinished/ | depth 1
read | trace 2/call/ | spbags: place 2: unfinished/ | depth 1
read | trace 2/ | spbags: place 1: unfinished/ | depth 0
read | trace 2/call/return/return/ | spbags: line 4: too many records/ | records 2
read | trace 2/call/ | spbags: line 2: too many records/ | records 0
read | trace 2/call/retur/ | spbags: line 3: bad line/ | records 1
read | trace 2/call | spbags: line 2: truncated/ | records 9
read | trace 1/x/ | spbags: line 2: bad line/ | fails
read | trace 1/retu | spbags: cannot read/ | fails
read | trace 1/return/ | spbags: cannot read/ | fails
read | trace 1/return/sync/ | spbags: place 2: after end/ | fails
measure | trace 1/x/ | spbags: line 2: bad line/ | fails
measure | trace 1/retu | spbags: cannot read/ | fails
measure | trace 1/return/ | spbags: cannot read/ | fails
measure | trace 1/return/sync/ | spbags: place 2: after end/ | fails
measure | trace 1/return/ | work 1/span 1/spawns 0/depth 0/
measure | trace 1/spawn/write 5/return/write 5/return/ | work 5/span 4/spawns 1/depth 1/
measure | trace 1/spawn/write 5/return/sync/write 5/return/ | work 6/span 6/spawns 1/depth 1/
measure | trace 1/spawn/write 1/return/spawn/sync/write 1/return/return/ | work 8/span 6/spawns 2/depth 1/
measure | trace 1/spawn/read 9/return/spawn/read 9/return/write 9/return/ | work 8/span 5/spawns 2/depth 1/
measure | trace 1/spawn/spawn/write 1/return/return/sync/read 1/return/ | work 8/span 8/spawns 2/depth 2/
measure | trace 1/spawn/write 3/return/spawn/write 3/return/write 3/return/ | work 8/span 5/spawns 2/depth 1/
measure | trace 1/spawn/read 7/write 7/return/write 7/return/ | work 6/span 5/spawns 1/depth 1/
measure | trace 2/return/ | work 1/span 1/spawns 0/depth 0/
measure | trace 2/spawn/write 1/return/call/read 2/return/write 2/write 1/return/ | work 9/span 7/spawns 1/depth 1/
measure | trace 2/spawn/write 1/return/call/sync/write 1/return/return/ | work 8/span 6/spawns 1/depth 1/
measure | trace 2/call/spawn/write 1/return/return/write 1/return/ | work 7/span 7/spawns 1/depth 2/
measure | trace 1/spawn/read 5/return/read 5/return/ | work 5/span 4/spawns 1/depth 1/
measure | trace 1/read 9/spawn/read 9/return/write 9/return/ | work 6/span 5/spawns 1/depth 1/
measure | trace 1/spawn/spawn/write 1/return/return/read 1/return/ | work 7/span 6/spawns 2/depth 2/
measure | trace 1/write 18446744073709551615/return/ | work 2/span 2/spawns 0/depth 0/
measure | trace 1/write 18446744073709551616/return/ | spbags: line 2: bad line/
measure |  | spbags: line 1: truncated/
measure | trace 1/read 01/return/ | spbags: line 2: bad line/
measure | trace 1/return | spbags: line 2: truncated/
measure | trace 3/return/ | spbags: line 1: header/
measure | trace 1/call/return/ | spbags: line 2: bad line/
measure | trace 1/ | spbags: place 1: unfinished/
measure | trace 1/return/read 1/ | spbags: place 2: after end/
measure | trace 1/spawn/spawn/ | spbags: place 2: too deep/ | depth 1
measure | trace 1/spawn/write 5/return/write 5/return/ | spbags: place 1: too deep/ | depth 0
measure | trace 2/call/return/ | spbags: place 3: unfinished/
measure | trace 2/call/spawn/write 1/return/return/write 1/return/ | spbags: place 2: too deep/ | depth 1
measure | trace 1/write 5/ | spbags: place 2: unfinished/
pairs 5 | trace 1/x/ | spbags: line 2: bad line/ | fails
pairs 5 | trace 1/retu | spbags: cannot read/ | fails
pairs 5 | trace 1/return/ | spbags: cannot read/ | fails
pairs 5 | trace 1/return/sync/ | spbags: place 2: after end/ | fails
pairs 0 | trace 1/return/ | pairs 0/
pairs 9 | trace 1/read 9/spawn/read 9/return/write 9/return/ | pairs 1/pair read 3 write 5/
pairs 1 | trace 1/spawn/spawn/write 1/return/return/sync/read 1/return/ | pairs 0/
pairs 9 | trace 1/spawn/read 9/return/spawn/read 9/return/write 9/return/ | \
    pairs 2/pair read 2 write 7/pair read 5 write 7/
pairs 3 | trace 1/spawn/write 3/return/spawn/write 3/return/write 3/return/ | \
    pairs 3/pair write 2 write 5/pair write 2 write 7/pair write 5 write 7/
pairs 4 | trace 1/spawn/write 3/return/spawn/write 3/return/write 3/return/ | pairs 0/
pairs 7 | trace 1/spawn/read 7/write 7/return/write 7/return/ | pairs 2/pair read 2 write 5/pair write 3 write 5/
pairs 5 | trace 1/spawn/write 5/return/sync/write 5/return/ | pairs 0/
pairs 1 | trace 2/spawn/write 1/return/call/read 2/return/write 2/write 1/return/ | pairs 1/pair write 2 write 8/
pairs 2 | trace 2/spawn/write 1/return/call/read 2/return/write 2/write 1/return/ | pairs 0/
pairs 1 | trace 2/spawn/write 1/return/call/sync/write 1/return/return/ | pairs 1/pair write 2 write 6/
pairs 1 | trace 2/call/spawn/write 1/return/return/write 1/return/ | pairs 0/
pairs 5 | trace 1/spawn/write 5/return/write 5/return/ | pairs 1/pair write 2 write 4/
pairs 5 | trace 1/spawn/read 5/return/read 5/return/ | pairs 0/
pairs 1 | trace 1/spawn/write 1/return/spawn/sync/write 1/return/return/ | pairs 1/pair write 2 write 6/
pairs 1 | trace 1/spawn/spawn/write 1/return/return/read 1/return/ | pairs 1/pair write 3 read 6/
pairs 18446744073709551615 | trace 1/write 18446744073709551615/return/ | pairs 0/
pairs 5 | trace 1/write 18446744073709551616/return/ | spbags: line 2: bad line/
pairs 5 |  | spbags: line 1: truncated/
pairs 5 | trace 1/read 01/return/ | spbags: line 2: bad line/
pairs 5 | trace 1/return | spbags: line 2: truncated/
pairs 5 | trace 3/return/ | spbags: line 1: header/
pairs 5 | trace 1/call/return/ | spbags: line 2: bad line/
pairs 5 | trace 1/ | spbags: place 1: unfinished/
pairs 5 | trace 1/return/read 1/ | spbags: place 2: after end/
pairs 5 | trace 1/spawn/spawn/ | spbags: place 2: too deep/ | depth 1
pairs 5 | trace 1/spawn/write 5/return/write 5/return/ | spbags: place 1: too deep/ | depth 0
pairs 5 | trace 2/call/return/ | spbags: place 3: unfinished/
pairs 5 | trace 2/call/spawn/write 1/return/return/write 1/return/ | spbags: place 2: too deep/ | depth 1
pairs 5 | trace 1/write 5/ | spbags: place 2: unfinished/
explain 5 | trace 1/spawn/write 5/return/write 5/return/ | \
    race 5 write 2 write 4/meet 0/first spawn 1 write 2/second write 4/joined 5/
explain 1 | trace 1/spawn/write 1/return/spawn/sync/write 1/return/return/ | \
    race 1 write 2 write 6/meet 0/first spawn 1 write 2/second spawn 4 write 6/joined 8/
explain 9 | trace 1/spawn/read 9/return/spawn/read 9/return/write 9/return/ | \
    race 9 read 2 write 7/meet 0/first spawn 1 read 2/second write 7/joined 8/
explain 3 | trace 1/spawn/write 3/return/spawn/write 3/return/write 3/return/ | \
    race 3 write 2 write 5/meet 0/first spawn 1 write 2/second spawn 4 write 5/joined 8/
explain 9 | trace 1/read 9/spawn/read 9/return/write 9/return/ | \
    race 9 read 3 write 5/meet 0/first spawn 2 read 3/second write 5/joined 6/
explain 7 | trace 1/spawn/read 7/write 7/return/write 7/return/ | \
    race 7 write 3 write 5/meet 0/first spawn 1 write 3/second write 5/joined 6/
explain 5 | \
    trace 2/call/spawn/call/write 5/return/return/spawn/write 5/spawn/sync/return/sync/return/sync/return/return/ | \
    race 5 write 4 write 8/meet 1/first spawn 2 call 3 write 4/second spawn 7 write 8/joined 14/
explain 7 | trace 2/spawn/sync/spawn/read 7/return/call/spawn/write 7/return/return/read 7/return/sync/return/ | \
    race 7 read 4 write 8/meet 1/first spawn 3 read 4/second call 6 spawn 7 write 8/joined 12/
explain 0 | trace 1/return/ | no race/
explain 5 | trace 1/spawn/write 5/return/sync/write 5/return/ | no race/
explain 1 | trace 1/spawn/spawn/write 1/return/return/sync/read 1/return/ | no race/
explain 4 | trace 1/spawn/write 3/return/spawn/write 3/return/write 3/return/ | no race/
explain 6 | trace 1/spawn/write 5/return/write 5/return/ | no race/
confirm races 0/ | trace 1/x/ | spbags: line 2: bad line/ | fails
confirm races 0/ | trace 1/retu | spbags: cannot read/ | fails
confirm races 0/ | trace 1/return/ | spbags: cannot read/ | fails
confirm races 0/ | trace 1/return/sync/ | spbags: place 2: after end/ | fails
confirm races 1/race 5 write 2 write 4/ | trace 1/spawn/write 5/return/write 5/return/ | yes/
confirm races 1/race 5 write 2 read 4/ | trace 1/spawn/write 5/return/write 5/return/ | no 1/
confirm races 1/race 5 write 2 write 9/ | trace 1/spawn/write 5/return/write 5/return/ | no 1/
confirm races 1/race 5 write 2 write 5/ | trace 1/spawn/write 5/return/sync/write 5/return/ | no 1/
confirm races 1/race 3 write 5 write 7/ | trace 1/spawn/write 3/return/spawn/write 3/return/write 3/return/ | yes/
confirm races 0/ | trace 1/spawn/write 5/return/write 5/return/ | yes/
confirm races 2/race 2 write 3 read 6/race 8 write 2 read 5/ | \
    trace 1/spawn/write 8/write 2/return/read 8/read 2/return/ | yes/
confirm races 2/race 2 write 3 read 6/race 8 write 2 read 6/ | \
    trace 1/spawn/write 8/write 2/return/read 8/read 2/return/ | no 2/
confirm races 2/race 2 write 2 read 6/race 8 write 2 read 6/ | \
    trace 1/spawn/write 8/write 2/return/read 8/read 2/return/ | no 1/
confirm races 1/race 1 write 2 write 8/ | trace 2/spawn/write 1/return/call/read 2/return/write 2/write 1/return/ | yes/
confirm races 1/race 2 read 5 write 7/ | trace 2/spawn/write 1/return/call/read 2/return/write 2/write 1/return/ | no 1/
confirm races 2/race 1 write 2 write 8/race 2 read 5 write 7/ | \
    trace 2/spawn/write 1/return/call/read 2/return/write 2/write 1/return/ | no 2/
confirm races 1/race 1 write 2 write 6/ | trace 2/spawn/write 1/return/call/sync/write 1/return/return/ | yes/
confirm races 1/race 1 write 3 write 6/ | trace 2/call/spawn/write 1/return/return/write 1/return/ | no 1/
confirm races 0/ | trace 1/spawn/write 5/return/sync/write 5/return/ | yes/
confirm races 0/ | trace 1/spawn/read 5/return/read 5/return/ | yes/
confirm races 1/race 9 read 2 write 7/ | trace 1/spawn/read 9/return/spawn/read 9/return/write 9/return/ | yes/
confirm races 1/race 9 read 3 write 5/ | trace 1/read 9/spawn/read 9/return/write 9/return/ | yes/
confirm races 0/ | trace 1/spawn/spawn/write 1/return/return/sync/read 1/return/ | yes/
confirm races 1/race 1 write 2 write 6/ | trace 1/spawn/write 1/return/spawn/sync/write 1/return/return/ | yes/
confirm races 1/race 1 write 3 read 6/ | trace 1/spawn/spawn/write 1/return/return/read 1/return/ | yes/
confirm races 0/ | trace 1/write 18446744073709551615/return/ | yes/
confirm races 1/race 3 write 2 write 5/ | trace 1/spawn/write 3/return/spawn/write 3/return/write 3/return/ | yes/
confirm races 0/ | trace 2/call/spawn/write 1/return/return/write 1/return/ | yes/
confirm races 0/ | trace 1/write 18446744073709551616/return/ | spbags: line 2: bad line/
confirm races 0/ |  | spbags: line 1: truncated/
confirm races 0/ | trace 1/read 01/return/ | spbags: line 2: bad line/
confirm races 0/ | trace 1/return | spbags: line 2: truncated/
confirm races 0/ | trace 3/return/ | spbags: line 1: header/
confirm races 0/ | trace 1/call/return/ | spbags: line 2: bad line/
confirm races 0/ | trace 1/ | spbags: place 1: unfinished/
confirm races 0/ | trace 1/return/read 1/ | spbags: place 2: after end/
confirm races 0/ | trace 1/spawn/spawn/ | spbags: place 2: too deep/ | depth 1
confirm races 0/ | trace 1/spawn/write 5/return/write 5/return/ | spbags: place 1: too deep/ | depth 0
confirm races 0/ | trace 2/call/return/ | spbags: place 3: unfinished/
confirm races 0/ | trace 2/call/spawn/write 1/return/return/write 1/return/ | spbags: place 2: too deep/ | depth 1
confirm races 0/ | trace 1/write 5/ | spbags: place 2: unfinished/";

const USUAL: Limits = Limits {
    records: 1 << 48,
    depth: 9,
};

// By one byte, by some, and whole.
const SIZES: [usize; 4] = [1, 2, 7, 4096];

#[derive(Drop)]
struct Row<'a> {
    question: &'a str,
    text: Vec<u8>,
    answer: Vec<u8>,
    limits: Limits,
    fails: bool,
}

// The limits that a column names.
fn limits_of(column: &str) -> Limits {
    let (word, number) = column.split_once(' ').unwrap_or((column, ""));
    let number = number.parse::<u32>().unwrap_or(9);
    match word {
        "records" => Limits {
            records: u64::from(number),
            depth: 9,
        },
        "depth" => Limits {
            records: 1 << 48,
            depth: number,
        },
        _ => USUAL,
    }
}

fn row_of(alloc: Global, line: &str) -> Result<Row<'_>, Fail> {
    let mut columns = line.split(" | ");
    let question = columns.next().ok_or("no question")?;
    let text = text_of(alloc, columns.next().ok_or("no trace")?)?;
    let answer = text_of(alloc, columns.next().ok_or("no answer")?)?;
    let last = columns.next().unwrap_or("");
    Ok(Row {
        question,
        text,
        answer,
        limits: limits_of(last),
        fails: last == "fails",
    })
}

// Asserts the answer of a row from these parts.
fn assert_answer<R: Abort>(rt: &R, alloc: Global, row: &Row<'_>, parts: Parts<'_>, line: &str) {
    let found = answer(alloc, row.limits, row.question, parts);
    assert!(rt; found == row.answer, "{line}: {found:?}");
}

fn assert_row<R: Abort>(rt: &R, alloc: Global, row: &Row<'_>, line: &str) {
    for size in SIZES {
        let parts = Parts::of(row.text.as_slice(), size, row.fails);
        assert_answer(rt, alloc, row, parts, line);
    }
    if row.fails {
        return;
    }
    for place in 0..=row.text.len() {
        let parts = Parts::cut(row.text.as_slice(), place, 4096, false);
        assert_answer(rt, alloc, row, parts, line);
    }
}

#[test]
fn answers_rows(rt: HostRuntime) -> Result<(), Fail> {
    for line in ROWS.split('\n') {
        let row = row_of(rt.alloc(), line)?;
        assert_row(&rt, rt.alloc(), &row, line);
    }
    Ok(())
}

// The one faulty text that is no text of characters.
#[test]
fn no_character(rt: HostRuntime) {
    for size in SIZES {
        let parts = Parts::of(b"trace 1\n\xff\n", size, false);
        let found = answer(rt.alloc(), USUAL, "read", parts);
        assert!(rt; found.as_slice() == b"spbags: line 2: bad line\n".as_slice());
    }
}

const WRITE_WRITE: &[u8] = b"trace 1\nspawn\nwrite 5\nreturn\nwrite 5\nreturn\n";

// Asserts that each question says that it can't read, in pieces of each size.
fn assert_failing<R: Abort>(rt: &R, alloc: Global, place: usize) {
    for question in [
        "read",
        "measure",
        "pairs 5",
        "explain 5",
        "confirm races 0/",
    ] {
        for size in SIZES {
            let parts = Parts::cut(WRITE_WRITE, place, size, true);
            let found = answer(alloc, USUAL, question, parts);
            let is_so = found.as_slice() == b"spbags: cannot read\n".as_slice();
            assert!(rt; is_so, "{question} at {place}");
        }
    }
}

// A call that fails isn't tried again, and no answer comes of what was read before.
#[test]
fn failing_calls(rt: HostRuntime) {
    for place in 0..=WRITE_WRITE.len() {
        assert_failing(&rt, rt.alloc(), place);
    }
}

// Adds 1,000 writes, a procedure's, and its return.
fn write_thousand(text: &mut Vec<u8>, alloc: Global) -> Result<(), Fail> {
    for k in 0..1000u64 {
        let line = format!(in alloc; "write {}\n", 2 * k)?;
        text.extend_from_slice(line.as_bytes())?;
    }
    text.extend_from_slice(b"return\n")?;
    Ok(())
}

// The answer about a whole text.
fn answer_whole(alloc: Global, question: &str, text: &[u8]) -> Vec<u8> {
    answer(alloc, USUAL, question, Parts::of(text, 4096, false))
}

// Whether the k-th location has one race: the child's k-th write with its parent's.
fn is_only_pair(alloc: Global, text: &[u8], k: u64) -> Result<bool, Fail> {
    let k = k.min(1000);
    let question = format!(in alloc; "pairs {}", 2 * k)?;
    let wanted = format!(in alloc; "pairs 1\npair write {} write {}\n", 2 + k, 1003 + k)?;
    Ok(answer_whole(alloc, question.as_str(), text).as_slice() == wanted.as_bytes())
}

// A child and its parent write the same 1,000 locations.
#[test]
fn thousand_races(rt: HostRuntime) -> Result<(), Fail> {
    let mut text = Vec::from_slice(rt.alloc(), b"trace 1\nspawn\n")?;
    write_thousand(&mut text, rt.alloc())?;
    write_thousand(&mut text, rt.alloc())?;
    let measured = answer_whole(rt.alloc(), "measure", text.as_slice());
    let wanted: &[u8] = b"work 2003\nspan 1003\nspawns 1\ndepth 1\n";
    assert!(rt; measured.as_slice() == wanted);
    for k in 0..1000 {
        assert!(rt; is_only_pair(rt.alloc(), text.as_slice(), k)?, "{k}");
    }
    Ok(())
}
