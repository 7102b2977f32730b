//! Every list of at most 7 records over one location, and with calls every list of at most 6: the detected races, and
//! the answer of a shard at each place, are those of the definitions.

use collect::Report;
use detect::detect_plain;
use shard::Shard;
use std::alloc::Global;
use std::hash::{BuildHasherDefault, FoldHasher};
use std::process::Abort;
use std::test::Fail;
use test_helpers::by_definition::{
    MOST, ReportedRace, first_fault, is_well_nested, paths, race_ending_at, second_place,
};
use trace::{
    Counted, Fault, Limits, NestKind, Placed, Race, Record, Version, WriteFault, write_header,
    write_record,
};

type Hasher = BuildHasherDefault<FoldHasher>;

/// The records that the lists are made of. Only version 2 has the last one.
const LETTERS: [Record; 6] = [
    Record::Spawn,
    Record::Return,
    Record::Sync,
    Record::Read(0),
    Record::Write(0),
    Record::Call,
];

/// How many lists of a version there are of each length.
pub fn counts(version: Version) -> [usize; MOST] {
    match version {
        Version::One => [5, 25, 125, 625, 3125, 15625, 78125],
        Version::Two => [6, 36, 216, 1296, 7776, 46656, 0],
    }
}

/// How many lists were read, and with which answers.
#[derive(Clone, Copy, Debug, PartialEq, Eq)]
struct Tally {
    race_free: u64,
    racy: u64,
    too_deep: u64,
    otherwise_faulty: u64,
}

impl Tally {
    fn count(&mut self, expected: &Result<Option<ReportedRace>, Fault>) {
        match expected {
            Ok(None) => self.race_free = self.race_free.saturating_add(1),
            Ok(Some(_)) => self.racy = self.racy.saturating_add(1),
            Err(Fault::Nest(nest)) if nest.kind == NestKind::TooDeep => {
                self.too_deep = self.too_deep.saturating_add(1);
            }
            Err(_) => self.otherwise_faulty = self.otherwise_faulty.saturating_add(1),
        }
    }
}

/// The list of a version whose letters are the digits of the number.
pub fn list_of(version: Version, number: usize) -> [Record; MOST] {
    let letters = match version {
        Version::One => 5,
        Version::Two => 6,
    };
    let mut list = [Record::Sync; MOST];
    let mut rest = number;
    for i in 0..MOST {
        list[i] = LETTERS[rest % letters];
        rest /= letters;
    }
    list
}

/// Writes the text of a list, in place of what was there.
pub fn write_list(
    version: Version,
    records: &[Record],
    text: &mut Vec<u8>,
) -> Result<(), WriteFault> {
    text.clear();
    let mut sink = Counted::new(text);
    match version {
        Version::One => write_header(1, &mut sink)?,
        Version::Two => write_header(2, &mut sink)?,
    }
    for record in records {
        write_record(record, &mut sink)?;
    }
    Ok(())
}

/// The race by the definitions, or the first fault. All accesses are of location 0.
fn expected(
    rt: &impl Abort,
    records: &[Record],
    depth: usize,
) -> Result<Option<ReportedRace>, Fault> {
    let fault = first_fault(records, depth);
    assert!(rt;
        fault.is_none() == is_well_nested(records, depth),
        "{records:?}"
    );
    if let Some(fault) = fault {
        return Err(Fault::Nest(fault));
    }
    let paths = paths(records);
    let Some(second) = second_place(records, &paths, 0) else {
        return Ok(None);
    };
    let race = race_ending_at(records, &paths, 0, second);
    assert!(rt; race.is_some(), "{records:?}");
    Ok(race)
}

fn detected(alloc: Global, text: &[u8], depth: u32) -> Result<Report, Fault> {
    let limits = Limits {
        records: 1 << 48,
        depth,
    };
    detect_plain(alloc, limits, &mut Counted::new(text), Hasher::default())
}

/// The race of a report that has one at most.
fn only_race(rt: &impl Abort, report: &Report) -> Option<ReportedRace> {
    assert!(rt; report.races().len() <= 1);
    report.races().first().map(|race| reported_race(*race))
}

fn reported_race(race: Race) -> ReportedRace {
    ReportedRace {
        location: race.location,
        first: race.first,
        second: race.second,
    }
}

/// What the shard answers to a record that it has to accept.
fn applied(shard: &mut Shard<Hasher>, placed: Placed) -> Result<Option<ReportedRace>, Fail> {
    if !shard.accepts(placed.place) {
        return Err("not accepted".into());
    }
    Ok(shard.apply(placed)?.map(reported_race))
}

/// A shard answers the race at its second place, and none elsewhere.
fn check_shard(
    rt: &impl Abort,
    alloc: Global,
    records: &[Record],
    wanted: Option<ReportedRace>,
) -> Result<(), Fail> {
    let mut shard = Shard::new(alloc, 0, Hasher::default())?;
    for (index, what) in records.iter().enumerate() {
        let place = index as u64 + 1;
        let what = *what;
        let answer = applied(&mut shard, Placed { place, what })?;
        let wanted_here = wanted.filter(|race| race.second.place == place);
        assert_answer(rt, answer, wanted_here, place, records);
    }
    Ok(())
}

fn assert_answer(
    rt: &impl Abort,
    answer: Option<ReportedRace>,
    wanted: Option<ReportedRace>,
    place: u64,
    records: &[Record],
) {
    assert!(rt; answer == wanted, "place {place} of {records:?}");
}

/// Detects a list from its text.
fn check_list(
    rt: &impl Abort,
    alloc: Global,
    text: &[u8],
    depth: u32,
    wanted: Result<Option<ReportedRace>, Fault>,
    records: &[Record],
) {
    let found = match detected(alloc, text, depth) {
        Ok(report) => Ok(only_race(rt, &report)),
        Err(fault) => Err(fault),
    };
    assert!(rt; found == wanted, "{records:?} within depth {depth}");
}

/// Detects every list of a version, each after another in the same text.
fn check_lists(
    rt: &impl Abort,
    alloc: Global,
    version: Version,
    depth: u32,
) -> Result<Tally, Fail> {
    let mut tally = Tally {
        race_free: 0,
        racy: 0,
        too_deep: 0,
        otherwise_faulty: 0,
    };
    let mut text = Vec::new(alloc);
    for length in 1..MOST + 1 {
        for number in 0..counts(version)[length - 1] {
            let list = list_of(version, number);
            let records = &list[..length];
            write_list(version, records, &mut text)?;
            let wanted = expected(rt, records, depth as usize);
            check_list(rt, alloc, &text, depth, wanted, records);
            if let Ok(race) = wanted {
                check_shard(rt, alloc, records, race)?;
            }
            tally.count(&wanted);
        }
    }
    Ok(tally)
}

fn check_tally(
    rt: &impl Abort,
    alloc: Global,
    version: Version,
    depth: u32,
    wanted: Tally,
) -> Result<(), Fail> {
    let tally = check_lists(rt, alloc, version, depth)?;
    assert!(rt; tally == wanted);
    Ok(())
}

#[test]
fn within_depth_7(rt: HostRuntime) -> Result<(), Fail> {
    let wanted = Tally {
        race_free: 2_676,
        racy: 273,
        too_deep: 0,
        otherwise_faulty: 94_706,
    };
    check_tally(&rt, rt.alloc(), Version::One, 7, wanted)
}

#[test]
fn within_depth_2(rt: HostRuntime) -> Result<(), Fail> {
    let wanted = Tally {
        race_free: 2_675,
        racy: 273,
        too_deep: 7_210,
        otherwise_faulty: 87_497,
    };
    check_tally(&rt, rt.alloc(), Version::One, 2, wanted)
}

#[test]
fn within_depth_1(rt: HostRuntime) -> Result<(), Fail> {
    let wanted = Tally {
        race_free: 2_533,
        racy: 261,
        too_deep: 21_672,
        otherwise_faulty: 73_189,
    };
    check_tally(&rt, rt.alloc(), Version::One, 1, wanted)
}

#[test]
fn with_calls_within_depth_6(rt: HostRuntime) -> Result<(), Fail> {
    let wanted = Tally {
        race_free: 1_125,
        racy: 35,
        too_deep: 0,
        otherwise_faulty: 54_826,
    };
    check_tally(&rt, rt.alloc(), Version::Two, 6, wanted)
}

#[test]
fn with_calls_within_depth_2(rt: HostRuntime) -> Result<(), Fail> {
    let wanted = Tally {
        race_free: 1_125,
        racy: 35,
        too_deep: 11_056,
        otherwise_faulty: 43_770,
    };
    check_tally(&rt, rt.alloc(), Version::Two, 2, wanted)
}

#[test]
fn with_calls_within_depth_1(rt: HostRuntime) -> Result<(), Fail> {
    let wanted = Tally {
        race_free: 1_061,
        racy: 35,
        too_deep: 23_476,
        otherwise_faulty: 31_414,
    };
    check_tally(&rt, rt.alloc(), Version::Two, 1, wanted)
}
