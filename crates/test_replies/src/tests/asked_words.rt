//! Command lines, and the texts that they ask for. The tables are texts, since tuples would take the prover long.
use std::alloc::{AllocError, Global};
use std::string::ToString;
use std::test::Fail;
use words::{VERSION, WordsFault, read_words};

// The words of a command line, which stand between spaces.
fn words_of(alloc: Global, line: &str) -> Result<Vec<String>, AllocError> {
    let mut words = Vec::new(alloc);
    for word in line.split_whitespace() {
        words.push(String::from_str(alloc, word)?)?;
    }
    Ok(words)
}

// What the words ask for, or else their fault, with all that it holds.
fn said_of(alloc: Global, words: &[String]) -> Result<String, AllocError> {
    match read_words(alloc, words) {
        Ok(asked) => format!(in alloc; "{asked:?}"),
        Err(fault) => format!(in alloc; "{fault:?}"),
    }
}

// The same of a command line.
fn said_of_line(alloc: Global, line: &str) -> Result<String, AllocError> {
    let words = words_of(alloc, line)?;
    said_of(alloc, words.as_slice())
}

// Command lines, and what they ask for.
const ASKED: &str =
    r#"pairs run.trace 5 => Question(Pairs(LocationWords { depth: 65536, trace: "run.trace", location: 5 }))
pairs - 0 => Question(Pairs(LocationWords { depth: 65536, trace: "-", location: 0 }))
pairs --depth 0 - 7 => Question(Pairs(LocationWords { depth: 0, trace: "-", location: 7 }))
pairs a --depth=1000000 7 => Question(Pairs(LocationWords { depth: 1000000, trace: "a", location: 7 }))
explain run.trace 5 => Question(Explain(LocationWords { depth: 65536, trace: "run.trace", location: 5 }))
explain - 0 => Question(Explain(LocationWords { depth: 65536, trace: "-", location: 0 }))
explain --depth 0 - 7 => Question(Explain(LocationWords { depth: 0, trace: "-", location: 7 }))
explain a --depth=1000000 7 => Question(Explain(LocationWords { depth: 1000000, trace: "a", location: 7 }))
measure - => Question(Measure(MeasureWords { depth: 65536, trace: "-" }))
measure - --depth 3 => Question(Measure(MeasureWords { depth: 3, trace: "-" }))
confirm run.trace run.report => Confirm(ConfirmWords { depth: 65536, trace: "run.trace", report: "run.report" })
confirm - run.report => Confirm(ConfirmWords { depth: 65536, trace: "-", report: "run.report" })
confirm run.trace - => Confirm(ConfirmWords { depth: 65536, trace: "run.trace", report: "-" })
confirm same same => Confirm(ConfirmWords { depth: 65536, trace: "same", report: "same" })
confirm --depth 9 a b => Confirm(ConfirmWords { depth: 9, trace: "a", report: "b" })
merge a => Merge(MergeWords { reports: ["a"] })
merge - => Merge(MergeWords { reports: ["-"] })
merge a b c => Merge(MergeWords { reports: ["a", "b", "c"] })
merge same same => Merge(MergeWords { reports: ["same", "same"] })
merge c - a => Merge(MergeWords { reports: ["c", "-", "a"] })
merge -- --part - => Merge(MergeWords { reports: ["--part", "-"] })"#;

// Longer ones, of questions.
const QUESTIONS: &str = r#"check run.trace
Check(CheckWords { shards: 4, capacity: 1024, depth: 65536, part: Part { index: 0, count: 1 }, trace: "run.trace" })

check -
Check(CheckWords { shards: 4, capacity: 1024, depth: 65536, part: Part { index: 0, count: 1 }, trace: "-" })

check --depth 0 -
Check(CheckWords { shards: 4, capacity: 1024, depth: 0, part: Part { index: 0, count: 1 }, trace: "-" })

check --depth=1 -
Check(CheckWords { shards: 4, capacity: 1024, depth: 1, part: Part { index: 0, count: 1 }, trace: "-" })

check - --depth 1
Check(CheckWords { shards: 4, capacity: 1024, depth: 1, part: Part { index: 0, count: 1 }, trace: "-" })

check --depth 1000000 a
Check(CheckWords { shards: 4, capacity: 1024, depth: 1000000, part: Part { index: 0, count: 1 }, trace: "a" })

check -- --depth
Check(CheckWords { shards: 4, capacity: 1024, depth: 65536, part: Part { index: 0, count: 1 }, trace: "--depth" })

check --shards 1 --capacity 1 -
Check(CheckWords { shards: 1, capacity: 1, depth: 65536, part: Part { index: 0, count: 1 }, trace: "-" })

check --shards 64 --capacity 65536 -
Check(CheckWords { shards: 64, capacity: 65536, depth: 65536, part: Part { index: 0, count: 1 }, trace: "-" })

check --capacity=7 --shards=3 -
Check(CheckWords { shards: 3, capacity: 7, depth: 65536, part: Part { index: 0, count: 1 }, trace: "-" })

check - --shards 2
Check(CheckWords { shards: 2, capacity: 1024, depth: 65536, part: Part { index: 0, count: 1 }, trace: "-" })

check - --capacity 9
Check(CheckWords { shards: 4, capacity: 9, depth: 65536, part: Part { index: 0, count: 1 }, trace: "-" })

check --shards 5 --depth 6 --capacity 7 -
Check(CheckWords { shards: 5, capacity: 7, depth: 6, part: Part { index: 0, count: 1 }, trace: "-" })

check --part 0/1 -
Check(CheckWords { shards: 4, capacity: 1024, depth: 65536, part: Part { index: 0, count: 1 }, trace: "-" })

check --part 1/2 -
Check(CheckWords { shards: 4, capacity: 1024, depth: 65536, part: Part { index: 1, count: 2 }, trace: "-" })

check --part=9/10 -
Check(CheckWords { shards: 4, capacity: 1024, depth: 65536, part: Part { index: 9, count: 10 }, trace: "-" })

check - --part 10/16
Check(CheckWords { shards: 4, capacity: 1024, depth: 65536, part: Part { index: 10, count: 16 }, trace: "-" })

check --part 65535/65536 -
Check(CheckWords { shards: 4, capacity: 1024, depth: 65536, part: Part { index: 65535, count: 65536 }, trace: "-" })

check --shards 5 --part 2/3 --depth 6 -
Check(CheckWords { shards: 5, capacity: 1024, depth: 6, part: Part { index: 2, count: 3 }, trace: "-" })

pairs - 18446744073709551615
Pairs(LocationWords { depth: 65536, trace: "-", location: 18446744073709551615 })

explain - 18446744073709551615
Explain(LocationWords { depth: 65536, trace: "-", location: 18446744073709551615 })"#;

#[test]
fn reads_command_lines(rt: HostRuntime) -> Result<(), Fail> {
    for row in ASKED.split('\n') {
        let (line, asked) = row.split_once(" => ").ok_or("no arrow")?;
        let said = said_of_line(rt.alloc(), line)?;
        assert!(rt; said.as_str() == asked, "{line}: {said}");
    }
    Ok(())
}

#[test]
fn reads_questions(rt: HostRuntime) -> Result<(), Fail> {
    for row in QUESTIONS.split("\n\n") {
        let (line, question) = row.split_once('\n').ok_or("no question")?;
        let said = said_of_line(rt.alloc(), line)?;
        let asked = format!(in rt.alloc(); "Question({question})")?;
        assert!(rt; said.as_str() == asked.as_str(), "{line}: {said}");
    }
    Ok(())
}

// Command lines that ask for nothing. The first one has no words.
const REFUSED: &str = "
check
check a b
check --depth 1000001 -
check --depth 007 -
check --depth 00 -
check --depth +1 -
check --depth -1 -
check --depth 18446744073709551617 -
check --depth x -
check --depth= -
check --depth
check --depth 1 --depth 1 -
check --depths 1 -
check --shards 0 -
check --shards 65 -
check --shards 01 -
check --shards +1 -
check --shards 4294967297 -
check --shards 18446744073709551617 -
check --shards= -
check --shards
check --shards 1 --shards 1 -
check --capacity 0 -
check --capacity 65537 -
check --capacity 01 -
check --capacity x -
check --capacity 4294967297 -
check --capacity
check --part 0/0 -
check --part 1/1 -
check --part 2/1 -
check --part 65536/65537 -
check --part 0/65537 -
check --part 65536/65536 -
check --part 0/4294967297 -
check --part 0/18446744073709551617 -
check --part 00/1 -
check --part 0/01 -
check --part 1/ -
check --part /1 -
check --part / -
check --part 1 -
check --part -1/2 -
check --part +1/2 -
check --part 1/2/3 -
check --part x/2 -
check --part= -
check --part
check --part 0/2 --part 1/2 -
check -x -
pairs
pairs -
pairs - 03
pairs - x
pairs - 5 6
pairs - +5
pairs - 18446744073709551616
pairs --depth 1000001 - 5
pairs --shards 1 - 5
explain
explain -
explain - 03
explain - x
explain - 5 6
explain - 18446744073709551616
explain --depth 1000001 - 5
explain --shards 1 - 5
measure
measure - 5
measure --depth 007 -
measure --capacity 1 -
confirm
confirm -
confirm - -
confirm a b c
confirm --depth 1000001 a b
confirm --shards 1 a b
merge
merge - -
merge - a -
merge --depth 1 a
merge --part 0/1 a
pairs --part 0/1 - 5
explain --part 0/1 - 5
measure --part 0/1 -
confirm --part 0/1 a b
--depth 1 check -
chec -
help
-";

#[test]
fn refuses_command_lines(rt: HostRuntime) -> Result<(), Fail> {
    for line in REFUSED.split('\n') {
        let said = said_of_line(rt.alloc(), line)?;
        assert!(rt; said.as_str() == "Bad", "{line}: {said}");
    }
    Ok(())
}

// A word may be empty, which no line shows.
#[test]
fn refuses_empty_words(rt: HostRuntime) -> Result<(), Fail> {
    for line in ["", "merge a"] {
        let mut words = words_of(rt.alloc(), line)?;
        words.push(String::new(rt.alloc()))?;
        assert!(rt;
            said_of(rt.alloc(), words.as_slice())?.as_str() == "Bad",
            "{line}"
        );
    }
    Ok(())
}

// Command lines that ask for help or the version.
const HELPED: &str = "--help
-h
check --help
check -h
check - --help
pairs --help
explain --help
measure -h
confirm --help
merge --help
--version
-V";

#[test]
fn helps(rt: HostRuntime) -> Result<(), Fail> {
    for line in HELPED.split('\n') {
        let said = said_of_line(rt.alloc(), line)?;
        let said = said.as_str();
        assert!(rt;
            said.starts_with("Help(\"") && said != "Help(\"\")",
            "{line}: {said}"
        );
    }
    let said = said_of_line(rt.alloc(), "--version")?;
    let want = format!(in rt.alloc(); "Help(\"spbags {VERSION}\\n\")")?;
    assert!(rt; said == want, "{said}");
    Ok(())
}

// Command lines that ask for help, and what it has to say. A line's end is `\n` in both.
const HELPS: &str = r"--help: `trace 1` or `trace 2`
--help: `spawn`, `sync`, `return`, 
--help: After `trace 2` a\nline may also be `call`
--help: an ordinary call of a procedure that may spawn
--help: `read L` or `write L`
--help: 0 to 18446744073709551615
--help: A file named `-` is standard input
--help: spbags check --help
check --help: 1 to 64, by default 4
check --help: 1 to 65536, by default 1024
check --help: 0 to 1000000, by default 65536
check --help: Place k is on line k + 1
check --help: use --shards 1
pairs --help: 0 to 1000000, by default 65536
pairs --help: 0 to 18446744073709551615
pairs --help: Place k is on line k + 1
pairs --help: when the whole trace has been read
pairs --help: four times as long
--help: spbags explain run.trace 5
check --help: `spbags explain run.trace 5` says why it is a race
explain --help: 0 to 1000000, by default 65536
explain --help: 0 to 18446744073709551615
explain --help: Place k is on line k + 1
explain --help: the race that `check` reports
explain --help: first spawn 1 write 2
measure --help: 0 to 1000000, by default 65536
measure --help: work divided by span
--help: SPBAGS_TRACE
confirm --help: 0 to 1000000, by default 65536
confirm --help: 67108864 bytes
--help: spbags merge part-0.report part-1.report
check --help: N is 1 to 65536, K below N
check --help: l with l mod N = K
merge --help: 67108864 bytes
merge --help: spbags check --part 1/2 run.trace > part-1.report";

#[test]
fn helps_a_newcomer(rt: HostRuntime) -> Result<(), Fail> {
    for row in HELPS.split('\n') {
        let (line, part) = row.split_once(": ").ok_or("no colon")?;
        let said = said_of_line(rt.alloc(), line)?;
        let said = said.as_str();
        assert!(rt;
            said.starts_with("Help(\"") && said.split_once(part).is_some(),
            "{row}"
        );
    }
    Ok(())
}

#[test]
fn shows_its_faults(rt: HostRuntime) -> Result<(), Fail> {
    let help = WordsFault::Help(String::from_str(rt.alloc(), "a text")?);
    for (fault, text) in [
        (&WordsFault::Bad, "bad command line"),
        (&WordsFault::NoMemory, "out of memory"),
        (&help, "a text"),
    ] {
        assert!(rt; fault.to_string(rt.alloc())?.as_str() == text, "{text}");
    }
    Ok(())
}
