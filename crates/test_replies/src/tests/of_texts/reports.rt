//! The texts of reports, and the collector.

use super::super::text_of;
use collect::{
    Collector, MOST_BYTES, ReportFault, ReportRefusal, read_report, report_from, write_report,
};
use std::alloc::Global;
use std::io::{self, ErrorKind, Read};
use std::test::Fail;
use trace::{Access, Back, Counted, Kind, NoMemory, Race};

// How many races the bytes have, or the number of their first faulty line.
fn read(alloc: Global, bytes: &[u8]) -> Result<usize, ReportFault> {
    Ok(read_report(alloc, bytes)?.races().len())
}

// Texts, where `/` ends a line, and what they are read as.
const ROWS: &str = " | Err(Bad { line: 1 })
races 0/ | Ok(0)
races 0 | Err(Bad { line: 1 })
races 0// | Err(Bad { line: 2 })
races 1/race 5 write 2 write 4/ | Ok(1)
races 2/race 5 write 2 write 4/ | Err(Bad { line: 3 })
races 1/race 5 read 2 read 4/ | Err(Bad { line: 2 })
races 1/race 5 write 4 write 4/ | Err(Bad { line: 2 })
races 1/race 5 write 0 write 4/ | Err(Bad { line: 2 })
races 2/race 5 write 2 write 4/race 5 write 2 write 4/ | Err(Bad { line: 3 })
races 1/race 5 write 2 write 4/x | Err(Bad { line: 3 })
races 1/race 05 write 2 write 4/ | Err(Bad { line: 2 })
races 1/race 5 write 2 write 4 | Err(Bad { line: 2 })
races 01/race 5 write 2 write 4/ | Err(Bad { line: 1 })
races 1/race 5 write 2 write 281474976710656/ | Ok(1)
races 1/race 5 write 2 write 281474976710657/ | Err(Bad { line: 2 })
races 1/race 18446744073709551615 read 2 write 4/ | Ok(1)
races 1/race 18446744073709551616 read 2 write 4/ | Err(Bad { line: 2 })
races 18446744073709551615/ | Err(Bad { line: 2 })
races 2/race 4 write 2 read 4/race 5 read 2 write 4/ | Ok(2)";

#[test]
fn rows(rt: HostRuntime) -> Result<(), Fail> {
    for row in ROWS.split('\n') {
        let (text, wanted) = row.split_once(" | ").ok_or("no column")?;
        let text = text_of(rt.alloc(), text)?;
        let found = format!(in rt.alloc(); "{:?}", read(rt.alloc(), text.as_slice()))?;
        assert!(rt; found.as_str() == wanted, "{row}: {found}");
    }
    Ok(())
}

fn race(location: u64, first: u64, second: u64) -> Option<Race> {
    if 0 < first && first < second && second <= 1 << 48 {
        let kind = Kind::Write;
        Some(Race {
            location,
            first: Access { kind, place: first },
            second: Access {
                kind,
                place: second,
            },
        })
    } else {
        None
    }
}

#[test]
fn best_of_each_location(rt: HostRuntime) -> Result<(), Fail> {
    let mut collector = Collector::new(rt.alloc());
    for (location, first, second) in [(5, 2, 9), (5, 3, 6), (5, 2, 6), (4, 1, 6)] {
        let race = race(location, first, second).ok_or("no race")?;
        collector.take(Back::Race(race))?;
    }
    let report = collector.finish()?;
    assert!(rt; report.races().len() == 2);
    assert!(rt; Some(report.races()[0]) == race(4, 1, 6));
    assert!(rt; Some(report.races()[1]) == race(5, 3, 6));
    Ok(())
}

// Of two races on location 5 the one with the lesser second place is kept, though its report comes last.
#[test]
fn merged(rt: HostRuntime) -> Result<(), Fail> {
    let reports: [&[u8]; 3] = [
        b"races 2\nrace 5 write 2 write 9\nrace 8 read 3 write 4\n",
        b"races 1\nrace 4 write 1 read 6\n",
        b"races 1\nrace 5 write 3 read 7\n",
    ];
    let mut collector = Collector::new(rt.alloc());
    for bytes in reports {
        let report = read_report(rt.alloc(), bytes)?;
        collector.take_report(&report)?;
    }
    let merged = collector.finish()?;
    let mut text = Vec::new(rt.alloc());
    write_report(&merged, &mut Counted::new(&mut text))?;
    let wanted: &[u8] =
        b"races 3\nrace 4 write 1 read 6\nrace 5 write 3 read 7\nrace 8 read 3 write 4\n";
    assert!(rt; text.as_slice() == wanted);
    Ok(())
}

#[test]
fn shard_without_memory(rt: HostRuntime) -> Result<(), Fail> {
    let mut collector = Collector::new(rt.alloc());
    collector.take(Back::NoMemory)?;
    collector.take(Back::Race(race(4, 1, 6).ok_or("no race")?))?;
    assert!(rt; collector.finish().err() == Some(NoMemory));
    Ok(())
}

// The number of races in the report. Without the other promises the proofs are shorter.
fn count_from<R: Read + Drop>(alloc: Global, reader: R) -> Result<usize, ReportRefusal> {
    match report_from(alloc, &mut Counted::new(reader)) {
        Ok(report) => Ok(report.races().len()),
        Err(refusal) => Err(refusal),
    }
}

#[test]
fn reads_reports(rt: HostRuntime) {
    let good: &[u8] = b"races 1\nrace 5 write 2 write 4\n";
    assert!(rt; count_from(rt.alloc(), good) == Ok(1));
    let bad: &[u8] = b"races 2\n";
    assert!(rt; count_from(rt.alloc(), bad) == Err(ReportRefusal::Bad { line: 2 }));
}

// A reader of many bytes. It keeps none: they are those that the buffers hold. Then it fails, or its input ends.
#[derive(Drop)]
struct Large {
    left: usize,
    fails: bool,
}

impl Read for Large {
    fn read(&mut self, buffer: &mut [u8]) -> io::Result<usize> {
        if self.left == 0 && self.fails {
            return Err(io::Error::from(ErrorKind::Other));
        }
        let count = self.left.min(buffer.len());
        self.left -= count;
        Ok(count)
    }
}

#[test]
fn limits_the_bytes_of_a_report(rt: HostRuntime) {
    // The reader fails where more is read than shows that the report is too large.
    let table = [
        (MOST_BYTES - 1, true, ReportRefusal::Read),
        (MOST_BYTES, true, ReportRefusal::Read),
        (MOST_BYTES, false, ReportRefusal::Bad { line: 1 }),
        (MOST_BYTES + 1, true, ReportRefusal::TooLarge),
        (MOST_BYTES + 4096, true, ReportRefusal::TooLarge),
    ];
    for (left, fails, want) in table {
        let found = count_from(rt.alloc(), Large { left, fails });
        assert!(rt; found == Err(want), "{left}");
    }
}
