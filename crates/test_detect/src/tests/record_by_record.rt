//! Worked traces, taken record by record.

use online::{Detector, Refusal};
use std::alloc::Global;
use std::hash::{BuildHasherDefault, FoldHasher};
use std::test::Fail;
use trace::{Access, Kind, NoMemory, Race, Record};

type Hasher = BuildHasherDefault<FoldHasher>;

fn new_detector(alloc: Global) -> Result<Detector<Hasher>, NoMemory> {
    Detector::new(
        alloc,
        BuildHasherDefault::default(),
        BuildHasherDefault::default(),
    )
}

// The child and the root, which doesn't wait for it, write location 5.
#[test]
fn write_write(rt: HostRuntime) -> Result<(), Fail> {
    let kind = Kind::Write;
    let race = Race {
        location: 5,
        first: Access { kind, place: 2 },
        second: Access { kind, place: 4 },
    };
    let mut detector = new_detector(rt.alloc())?;
    for what in [
        Record::Spawn,
        Record::Write(5),
        Record::Return,
        Record::Write(5),
        Record::Return,
    ] {
        assert!(rt; detector.take(what) == Ok(()));
    }
    assert!(rt; detector.take(Record::Sync) == Err(Refusal::AfterEnd));
    assert!(rt; detector.race_count() == 1);
    let report = detector.finish()?;
    assert!(rt; report.races() == [race].as_slice());
    Ok(())
}

// Here the root waits.
#[test]
fn write_sync_write(rt: HostRuntime) -> Result<(), Fail> {
    let mut detector = new_detector(rt.alloc())?;
    for what in [
        Record::Spawn,
        Record::Write(5),
        Record::Return,
        Record::Sync,
        Record::Write(5),
        Record::Return,
    ] {
        assert!(rt; detector.take(what) == Ok(()));
    }
    assert!(rt; detector.finish()?.races().is_empty());
    Ok(())
}
