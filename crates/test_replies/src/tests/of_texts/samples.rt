//! The examples of the doc comments.

use audit::{Confirm, Opener, Opening, confirm, explain, measure, pairs};
use collect::{read_report, write_report};
use std::test::Fail;
use trace::{Counted, Feed, Limits, Placed, Record};

#[test]
fn measures_a_trace(rt: HostRuntime) -> Result<(), Fail> {
    let text: &[u8] = b"trace 1\nspawn\nwrite 5\nreturn\nwrite 5\nreturn\n";
    let (records, depth) = (1 << 48, 9);
    let limits = Limits { records, depth };
    let answer = measure(rt.alloc(), limits, &mut Counted::new(text))?;
    assert!(rt; (answer.work, answer.span, answer.spawns, answer.depth) == (5, 4, 1, 1));
    Ok(())
}

#[test]
fn lists_the_pairs_of_a_location(rt: HostRuntime) -> Result<(), Fail> {
    let text: &[u8] = b"trace 1\nread 9\nspawn\nread 9\nreturn\nwrite 9\nreturn\n";
    let (records, depth) = (1 << 48, 9);
    let limits = Limits { records, depth };
    let found = pairs(rt.alloc(), limits, &mut Counted::new(text), 9)?;
    assert_eq!(rt; found.len(), 1);
    let (first, second) = found[0];
    assert_eq!(rt; (first.place, second.place), (3, 5));
    Ok(())
}

#[test]
fn confirms_a_report(rt: HostRuntime) -> Result<(), Fail> {
    let text: &[u8] = b"trace 1\nspawn\nwrite 5\nreturn\nwrite 5\nreturn\n";
    let report = read_report(rt.alloc(), b"races 1\nrace 5 write 2 write 9\n")?;
    let (records, depth) = (1 << 48, 9);
    let limits = Limits { records, depth };
    let answer = confirm(rt.alloc(), limits, &mut Counted::new(text), &report)?;
    assert_eq!(rt; answer, Confirm::No { entry: 1 });
    Ok(())
}

#[test]
fn explains_a_race(rt: HostRuntime) -> Result<(), Fail> {
    let text: &[u8] = b"trace 1\nspawn\nwrite 5\nreturn\nwrite 5\nreturn\n";
    let (records, depth) = (1 << 48, 9);
    let limits = Limits { records, depth };
    let answer = explain(rt.alloc(), limits, &mut Counted::new(text), 5)?;
    let explained = answer.ok_or("no race")?;
    assert!(rt; (explained.race.first.place, explained.race.second.place) == (2, 4));
    assert_eq!(rt; (explained.meeting, explained.joined), (0, Some(5)));
    let (what, place) = (Opening::Spawn, 1);
    assert!(rt; explained.first.as_slice() == [Opener { what, place }].as_slice());
    Ok(())
}

#[test]
fn records_one_by_one(rt: HostRuntime) -> Result<(), Fail> {
    let text: &[u8] = b"trace 1\nwrite 5\nreturn\n";
    let (records, depth) = (1 << 48, 9);
    let mut feed = Feed::new(Limits { records, depth }, Counted::new(text));
    let (place, what) = (1, Record::Write(5));
    assert_eq!(rt; feed.next()?, Some(Placed { place, what }));
    let (place, what) = (2, Record::Return);
    assert_eq!(rt; feed.next()?, Some(Placed { place, what }));
    assert_eq!(rt; feed.next()?, None);
    Ok(())
}

#[test]
fn text_of_a_report(rt: HostRuntime) -> Result<(), Fail> {
    let report = read_report(rt.alloc(), b"races 1\nrace 5 write 2 read 4\n")?;
    assert_eq!(rt; report.races().len(), 1);
    let race = report.races()[0];
    assert!(rt; (race.location, race.first.place, race.second.place) == (5, 2, 4));
    let mut text = Vec::new(rt.alloc());
    write_report(&report, &mut Counted::new(&mut text))?;
    assert!(rt; text.as_slice() == b"races 1\nrace 5 write 2 read 4\n".as_slice());
    Ok(())
}
