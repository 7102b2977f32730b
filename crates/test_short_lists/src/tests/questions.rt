//! Every list of at most 7 records over one location, and with calls every list of at most 6: its measure, all its
//! races, and what is confirmed of any two of its accesses, are those of the definitions.

use super::lists::{counts, list_of, write_list};
use audit::{Confirm, Measure, confirm, measure, pairs};
use collect::{Collector, Report};
use std::alloc::Global;
use std::process::Abort;
use std::test::Fail;
use test_helpers::by_definition::{
    self, Between, MOST, accesses_at, is_well_nested, paths, race_at,
};
use trace::{Access, Back, Counted, Fault, Kind, Limits, Race, Record, Version};

const LIMITS: Limits = Limits {
    records: 1 << 48,
    depth: MOST as u32,
};

/// The races of location 0, by their second places and then by their first.
fn races(
    alloc: Global,
    records: &[Record],
    paths: &Between,
) -> Result<Vec<(Access, Access)>, Fail> {
    let mut races = Vec::new(alloc);
    for j in 0..records.len() {
        for i in 0..j {
            if let Some(race) = race_at(records, paths, 0, i, j) {
                races.push(race)?;
            }
        }
    }
    Ok(races)
}

/// The report of one race of location 0.
fn report_of(alloc: Global, first: Access, second: Access) -> Result<Report, Fail> {
    let one_writes = first.kind == Kind::Write || second.kind == Kind::Write;
    let are_places = 1 <= first.place && second.place <= 1 << 48;
    if !one_writes || !are_places || first.place >= second.place {
        return Err("no race".into());
    }
    let mut collector = Collector::new(alloc);
    collector.take(Back::Race(Race {
        location: 0,
        first,
        second,
    }))?;
    Ok(collector.finish()?)
}

fn confirmed(alloc: Global, text: &[u8], report: &Report) -> Result<Confirm, Fault> {
    confirm(alloc, LIMITS, &mut Counted::new(text), report)
}

fn measured(alloc: Global, text: &[u8]) -> Result<Measure, Fault> {
    measure(alloc, LIMITS, &mut Counted::new(text))
}

/// The listed races of location 0 of a text.
fn listed(alloc: Global, text: &[u8]) -> Result<Vec<(Access, Access)>, Fault> {
    pairs(alloc, LIMITS, &mut Counted::new(text), 0)
}

/// Asks whether two accesses race.
fn check_confirm(
    rt: &impl Abort,
    alloc: Global,
    text: &[u8],
    (first, second): (Access, Access),
    wanted: Confirm,
) -> Result<(), Fail> {
    let report = report_of(alloc, first, second)?;
    let answer = confirmed(alloc, text, &report);
    assert!(rt; answer == Ok(wanted), "{first:?} {second:?} of {text:?}");
    Ok(())
}

/// Asserts this of any two accesses, if at least one writes.
fn check_confirms(
    rt: &impl Abort,
    alloc: Global,
    records: &[Record],
    paths: &Between,
    text: &[u8],
) -> Result<(), Fail> {
    for j in 0..records.len() {
        for i in 0..j {
            if let Some(accesses) = accesses_at(records, 0, i, j) {
                let wanted = match race_at(records, paths, 0, i, j) {
                    Some(_) => Confirm::Yes,
                    None => Confirm::No { entry: 1 },
                };
                check_confirm(rt, alloc, text, accesses, wanted)?;
            }
        }
    }
    Ok(())
}

/// Asks for the races of location 0.
fn check_races(
    rt: &impl Abort,
    alloc: Global,
    records: &[Record],
    paths: &Between,
    text: &[u8],
) -> Result<(), Fail> {
    let wanted = races(alloc, records, paths)?;
    let answer = listed(alloc, text);
    assert!(rt; answer.is_ok(), "{records:?}");
    let listed = answer?;
    assert!(rt; listed.as_slice() == wanted.as_slice(), "{records:?}");
    Ok(())
}

/// Asks for the measure.
fn check_measure(rt: &impl Abort, alloc: Global, records: &[Record], text: &[u8]) {
    let wanted = by_definition::measure(records);
    assert!(rt; measured(alloc, text) == Ok(wanted), "{records:?}");
}

/// Asks about one list. A list that isn't well nested has neither measure nor races.
fn check_list(rt: &impl Abort, alloc: Global, records: &[Record], text: &[u8]) -> Result<(), Fail> {
    if !is_well_nested(records, MOST) {
        assert!(rt; measured(alloc, text).is_err(), "{records:?}");
        assert!(rt; listed(alloc, text).is_err(), "{records:?}");
        return Ok(());
    }
    let paths = paths(records);
    check_measure(rt, alloc, records, text);
    check_races(rt, alloc, records, &paths, text)?;
    check_confirms(rt, alloc, records, &paths, text)
}

/// Asks about every list of a version.
fn check_lists(rt: &impl Abort, alloc: Global, version: Version) -> Result<(), Fail> {
    let mut text = Vec::new(alloc);
    for length in 1..MOST + 1 {
        for number in 0..counts(version)[length - 1] {
            let list = list_of(version, number);
            let records = &list[..length];
            write_list(version, records, &mut text)?;
            check_list(rt, alloc, records, &text)?;
        }
    }
    Ok(())
}

#[test]
fn asked_of_all_lists(rt: HostRuntime) -> Result<(), Fail> {
    check_lists(&rt, rt.alloc(), Version::One)
}

#[test]
fn asked_of_all_lists_with_calls(rt: HostRuntime) -> Result<(), Fail> {
    check_lists(&rt, rt.alloc(), Version::Two)
}
