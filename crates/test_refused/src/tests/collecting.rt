//! The collector.

use super::{TRIES, print_refused};
use collect::{Collector, Report, write_report};
use std::alloc::Global;
use std::process::Abort;
use trace::{Access, Back, Counted, Kind, Race};

/// How many locations have a race.
const LOCATIONS: u64 = 100;

fn race<R: Abort>(rt: &R, location: u64, second: u64) -> Race {
    assert!(rt; 2 < second && second < 1000);
    let kind = Kind::Write;
    Race {
        location,
        first: Access { kind, place: 2 },
        second: Access {
            kind,
            place: second,
        },
    }
}

/// Takes. A refusal changes nothing, and with memory the same call succeeds.
pub fn take<R: Print + Abort>(rt: &R, collector: &mut Collector, race: Race) {
    for _ in 0..TRIES {
        if collector.take(Back::Race(race)).is_ok() {
            return;
        }
        print_refused(rt, "take");
    }
    assert!(rt; false);
}

pub fn finish<R: Print>(rt: &R, collector: Collector) -> Option<Report> {
    match collector.finish() {
        Ok(report) => Some(report),
        Err(_) => {
            print_refused(rt, "finish");
            None
        }
    }
}

fn collected<R: Print + Abort>(rt: &R, alloc: Global) -> Option<Report> {
    let mut collector = Collector::new(alloc);
    for number in 0..LOCATIONS {
        let location = number * 7 % LOCATIONS;
        for second in [9, 5, 9u64] {
            let race = race(rt, location, second);
            take(rt, &mut collector, race);
        }
    }
    finish(rt, collector)
}

/// Takes a report. A refusal leaves a part of it taken, and with memory the same call takes the whole.
fn take_report<R: Print + Abort>(rt: &R, collector: &mut Collector, report: &Report) {
    for _ in 0..TRIES {
        if collector.take_report(report).is_ok() {
            return;
        }
        print_refused(rt, "merge");
    }
    assert!(rt; false);
}

fn merged<R: Print + Abort>(rt: &R, alloc: Global) -> Option<Report> {
    let report = collected(rt, alloc)?;
    let mut collector = Collector::new(alloc);
    take_report(rt, &mut collector, &report);
    finish(rt, collector)
}

/// Asserts that each location has its race.
fn assert_races<R: Abort>(rt: &R, report: &Report) {
    assert!(rt; report.races().len() as u64 == LOCATIONS);
    for (index, race) in report.races().iter().enumerate() {
        assert!(rt; (race.location, race.second.place) == (index as u64, 5));
    }
}

#[test]
fn merges(rt: HostRuntime) {
    if let Some(report) = merged(&rt, rt.alloc()) {
        assert_races(&rt, &report);
    }
}

#[test]
fn collects_without(rt: HostRuntime) {
    let _ = collected(&rt, rt.alloc());
}

// The report is written into an array, which is too short for it: this writer takes no memory.
#[test]
fn collects_with(rt: HostRuntime) {
    if let Some(report) = collected(&rt, rt.alloc()) {
        assert_races(&rt, &report);
        let mut room = [0u8; 64];
        let mut text: &mut [u8] = &mut room;
        assert!(rt; write_report(&report, &mut Counted::new(&mut text)).is_err());
    }
}
