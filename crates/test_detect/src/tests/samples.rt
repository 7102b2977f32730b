//! The example of detection with shards.

use detect::{Plan, detect};
use shard::Open;
use std::hash::{BuildHasherDefault, FoldHasher};
use std::test::Fail;
use trace::{Counted, Limits};

#[test]
fn two_shards(rt: HostRuntime) -> Result<(), Fail> {
    let text: &[u8] = b"trace 1\nspawn\nwrite 5\nreturn\nwrite 5\nreturn\n";
    let (records, depth) = (1 << 48, 9);
    let plan = Plan::new(2, 1024, Limits { records, depth });
    let hasher = BuildHasherDefault::<FoldHasher>::default();
    let hashers = vec![in rt.alloc(); hasher, hasher]?;
    let mut source = Counted::new(text);
    let run = detect(&rt, rt.alloc(), plan, &mut source, &Open, hashers)?;
    assert_eq!(rt; run.report.races().len(), 1);
    let race = run.report.races()[0];
    assert!(rt; (race.location, race.first.place, race.second.place) == (5, 2, 4));
    Ok(())
}
