//! What is written of records, reports, answers and faults, to writers that fail too.
use audit::{Confirm, Explained, Measure, Opener, Opening};
use collect::{Report, ReportRefusal, read_report, write_report};
use std::alloc::{AllocError, Global};
use std::io;
use std::io::{ErrorKind, Write};
use std::process::Abort;
use std::test::Fail;
use texts::{
    put_confirm, put_explained, put_measure, put_pairs, say, say_fault, say_merge_refusal,
    say_refusal,
};
use trace::{
    Access, Counted, Fault, Kind, Race, Record, Sink, TextFault, TextKind, Version, WriteFault,
    write_header, write_record,
};

/// Takes one byte a call. The call after `most` bytes fails, with an error or by taking none, and the later ones go
/// on.
#[derive(Drop)]
struct Drip<'a> {
    held: &'a mut Vec<u8>,
    most: usize,
    error: Option<ErrorKind>,
    failed: bool,
}

impl Write for Drip<'_> {
    fn write(&mut self, buffer: &[u8]) -> io::Result<usize> {
        if self.held.len() == self.most && !self.failed {
            self.failed = true;
            return match self.error {
                Some(kind) => Err(io::Error::from(kind)),
                None => Ok(0),
            };
        }
        if buffer.is_empty() {
            return Ok(0);
        }
        self.held.push(buffer[0])?;
        Ok(1)
    }

    fn flush(&mut self) -> io::Result<()> {
        Ok(())
    }
}

/// What is written.
#[derive(Clone, Copy)]
enum Text {
    Header(Version),
    Record(Record),
    Pairs,
    Numbers,
    Yes,
    No,
    Fault(Fault),
    Refusal(ReportRefusal),
    MergeRefusal,
    Line,
}

const FIRST: Access = Access {
    kind: Kind::Read,
    place: 2,
};

const SECOND: Access = Access {
    kind: Kind::Write,
    place: 5,
};

const NUMBERS: Measure = Measure {
    work: 8,
    span: 5,
    spawns: 2,
    depth: 1,
};

const TOO_MANY: Fault = Fault::Text(TextFault {
    line: u64::MAX,
    kind: TextKind::TooMany,
});

const BAD: ReportRefusal = ReportRefusal::Bad { line: 7 };

const LAST_BAD: ReportRefusal = ReportRefusal::Bad { line: u64::MAX - 1 };

/// Writes a text. For the texts that report no failure the answer is `Ok`.
fn write<W: Sink>(text: Text, sink: &mut W) -> Result<(), WriteFault> {
    match text {
        Text::Header(Version::One) => return write_header(1, sink),
        Text::Header(Version::Two) => return write_header(2, sink),
        Text::Record(record) => return write_record(&record, sink),
        Text::Pairs => return put_pairs(&[(FIRST, SECOND)], sink),
        Text::Numbers => return put_measure(&NUMBERS, sink),
        Text::Yes => return put_confirm(Confirm::Yes, sink),
        Text::No => return put_confirm(Confirm::No { entry: 3 }, sink),
        Text::Fault(fault) => say_fault(&fault, sink),
        Text::Refusal(refusal) => say_refusal(refusal, sink),
        Text::MergeRefusal => say_merge_refusal(u64::MAX, LAST_BAD, sink),
        Text::Line => say(b"a line\n", sink),
    }
    Ok(())
}

/// The texts, and whether a failure is reported.
const TEXTS: [(Text, &str, bool); 19] = [
    (Text::Header(Version::One), "trace 1\n", true),
    (Text::Header(Version::Two), "trace 2\n", true),
    (Text::Record(Record::Spawn), "spawn\n", true),
    (Text::Record(Record::Call), "call\n", true),
    (Text::Record(Record::Return), "return\n", true),
    (Text::Record(Record::Sync), "sync\n", true),
    (Text::Record(Record::Read(0)), "read 0\n", true),
    (
        Text::Record(Record::Write(u64::MAX)),
        "write 18446744073709551615\n",
        true,
    ),
    (Text::Pairs, "pairs 1\npair read 2 write 5\n", true),
    (Text::Numbers, "work 8\nspan 5\nspawns 2\ndepth 1\n", true),
    (Text::Yes, "yes\n", true),
    (Text::No, "no 3\n", true),
    (
        Text::Fault(TOO_MANY),
        "spbags: line 18446744073709551615: too many records\n",
        false,
    ),
    (
        Text::Fault(Fault::NoMemory),
        "spbags: out of memory\n",
        false,
    ),
    (Text::Fault(Fault::NoThread), "spbags: no thread\n", false),
    (Text::Refusal(BAD), "spbags: report line 7: bad\n", false),
    (
        Text::Refusal(ReportRefusal::TooLarge),
        "spbags: report too large\n",
        false,
    ),
    (
        Text::MergeRefusal,
        "spbags: report 18446744073709551615 line 18446744073709551614: bad\n",
        false,
    ),
    (Text::Line, "a line\n", false),
];

/// Whether a text is written up to the byte that fails, and whether it reports this failure, as expected.
fn is_cut(alloc: Global, text: (Text, &str, bool), most: usize, error: Option<ErrorKind>) -> bool {
    let (text, want, fails) = text;
    let mut out = Vec::new(alloc);
    let mut sink = Counted::new(Drip {
        held: &mut out,
        most,
        error,
        failed: false,
    });
    let failed = write(text, &mut sink).is_err();
    failed == (fails && most < want.len()) && Some(out.as_slice()) == want.as_bytes().get(..most)
}

// Each byte fails in turn, and last none.
#[test]
fn writes_texts(rt: HostRuntime) {
    for text in TEXTS {
        for most in 0..=text.1.len() {
            for error in [Some(ErrorKind::Interrupted), Some(ErrorKind::Other), None] {
                let is_so = is_cut(rt.alloc(), text, most, error);
                assert!(rt; is_so, "{} after {most}: {error:?}", text.1);
            }
        }
    }
}

/// A race whose accesses meet in the procedure that place 1 opened.
fn explained(alloc: Global, joined: Option<u64>) -> Result<Explained, AllocError> {
    let first = Vec::from_slice(alloc, &[opener(Opening::Spawn, 2)])?;
    let openers = [opener(Opening::Call, 5), opener(Opening::Spawn, 8)];
    let second = Vec::from_slice(alloc, &openers)?;
    let race = Race {
        location: 7,
        first: Access {
            kind: Kind::Write,
            place: 3,
        },
        second: Access {
            kind: Kind::Read,
            place: 9,
        },
    };
    Ok(Explained {
        race,
        meeting: 1,
        first,
        second,
        joined,
    })
}

fn opener(what: Opening, place: u64) -> Opener {
    Opener { what, place }
}

/// Whether the explanation of a location is written up to the byte that fails, and the failure is reported.
fn is_explained(
    alloc: Global,
    answer: &Option<Explained>,
    want: &str,
    most: usize,
    error: Option<ErrorKind>,
) -> bool {
    let mut out = Vec::new(alloc);
    let mut sink = Counted::new(Drip {
        held: &mut out,
        most,
        error,
        failed: false,
    });
    let failed = put_explained(answer, &mut sink).is_err();
    failed == (most < want.len()) && Some(out.as_slice()) == want.as_bytes().get(..most)
}

// Puts what is said of a location into a sink of which each byte fails in turn, and last none.
fn assert_explained<R: Abort>(rt: &R, alloc: Global, answer: &Option<Explained>, want: &str) {
    for most in 0..=want.len() {
        for error in [Some(ErrorKind::Interrupted), Some(ErrorKind::Other), None] {
            let is_so = is_explained(alloc, answer, want, most, error);
            assert!(rt; is_so, "{want} after {most}: {error:?}");
        }
    }
}

const LINES: &str =
    "race 7 write 3 read 9\nmeet 1\nfirst spawn 2 write 3\nsecond call 5 spawn 8 read 9\n";

const JOINED: &str = "race 7 write 3 read 9\nmeet 1\nfirst spawn 2 write 3\n\
    second call 5 spawn 8 read 9\njoined 12\n";

#[test]
fn writes_explanations(rt: HostRuntime) -> Result<(), Fail> {
    let with_joined = Some(explained(rt.alloc(), Some(12))?);
    assert_explained(&rt, rt.alloc(), &with_joined, JOINED);
    let without = Some(explained(rt.alloc(), None)?);
    assert_explained(&rt, rt.alloc(), &without, LINES);
    assert_explained(&rt, rt.alloc(), &None, "no race\n");
    Ok(())
}

// Whether a report is written up to the byte that fails, and the failure is reported.
fn is_report(
    alloc: Global,
    report: &Report,
    want: &[u8],
    most: usize,
    error: Option<ErrorKind>,
) -> bool {
    let mut out = Vec::new(alloc);
    let mut sink = Counted::new(Drip {
        held: &mut out,
        most,
        error,
        failed: false,
    });
    let failed = write_report(report, &mut sink).is_err();
    failed == (most < want.len()) && Some(out.as_slice()) == want.get(..most)
}

#[test]
fn writes_a_report(rt: HostRuntime) -> Result<(), Fail> {
    let text: &[u8] = b"races 1\nrace 5 write 2 write 4\n";
    let report = read_report(rt.alloc(), text)?;
    for most in 0..=text.len() {
        for error in [Some(ErrorKind::Interrupted), Some(ErrorKind::Other), None] {
            let is_so = is_report(rt.alloc(), &report, text, most, error);
            assert!(rt; is_so, "{error:?} after {most}");
        }
    }
    Ok(())
}
