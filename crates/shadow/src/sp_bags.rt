//! The SP-bags algorithm over the records of a run, one record after another.
ghost use Rattle.std.specs.Prelude.{◌≡◌, ◌↔◌, ℕ, ◌+◌, ◌<◌, ◌≤◌, IsTrue, IfOk, OnOk, OnErr};
ghost use Rattle.dag.specs.Bounds.{most_records};
ghost use Rattle.shadow.specs.Found.{after_record, race_of};
ghost use Rattle.shadow.specs.Shadow.{IsSameShadow};
ghost use Rattle.shadow.specs.SpBags.{Accepts, AreReadyFor, HasApplied, ForgetsLocation, IsAtStart, IsSameRun};
ghost use Rattle.shadow.specs.SpBags.{IsBlank, MayGrow, state_of, state_with};

use crate::shadow::Shadow;
use bags::Bags;
use dag::{Kind, MOST_RECORDS, NoMemory, Placed, Race, Record};
use std::alloc::Global;
use std::hash::BuildHasher;
use std::marker::Model;

/// The SP-bags algorithm in a serial run, after some records: the bags, and the shadow memory.
#[derive(Drop)]
pub struct SpBags<S: BuildHasher + Drop> {
    bags: Bags,
    shadow: Shadow<S>,
    last_place: u64,
    /// The greatest place that a record may have: 2^48, and 0 once the root has returned.
    greatest_place: u64,
}

impl<S: BuildHasher + Drop> Model for SpBags<S> {
    ghost use Rattle.std.specs.Prelude.{◌≡◌, ◌+◌, ◌==◌, false};
    ghost use Rattle.std.specs.Coded.{codes};
    ghost use Rattle.dag.specs.Bounds.{most_records};
    ghost use Rattle.bags.specs.Procedures.{coded_procedures};
    ghost use Rattle.shadow.specs.SpBags.{SpBags, AreReadyFor};

    ghost Value = { SpBags };

    ghost coded = { Prim.hlevel (codes, coded_procedures) };

    ghost view = { λ s. record {
      bags = s.bags;
      shadow = s.shadow;
      last_place = s.last_place;
      ended = s.greatest_place == 0;
    } };

    ghost invariant = { λ s. AreReadyFor s.bags s.shadow (s.last_place + 1)
        × (s.greatest_place == 0 ≡ false → s.greatest_place ≡ most_records) };
}

impl<S: BuildHasher + Drop> SpBags<S> {
    /// Before the first record, with a shadow memory of which nothing was touched.
    pub fn new(alloc: Global, shadow: Shadow<S>) -> Result<SpBags<S>, NoMemory>
        requires { IsBlank shadow }
        ensures { IfOk result IsAtStart }
    {
        Ok(SpBags {
            bags: Bags::new(alloc)?,
            shadow,
            last_place: 0,
            greatest_place: MOST_RECORDS,
        })
    }

    /// The bags.
    #[inline(always)]
    pub fn bags(&self) -> &Bags
        ensures { result.now ≡ self.now.bags }
    {
        &self.bags
    }

    /// The place of the last record, or 0 before the first.
    #[inline(always)]
    pub fn last_place(&self) -> u64
        ensures { result ≡ self.now.last_place }
    {
        self.last_place
    }

    /// Whether the root has returned.
    #[inline(always)]
    pub fn has_ended(&self) -> bool
        ensures { result ≡ self.now.ended }
    {
        self.greatest_place == 0
    }

    /// Whether a record may come at this place: the place is above the last record's and at most 2^48, and the root
    /// hasn't returned.
    #[inline(always)]
    pub fn accepts(&self, place: u64) -> bool
        ensures { IsTrue result ↔ Accepts self.now place }
    {
        self.last_place < place && place <= self.greatest_place
    }

    /// Takes a record, and reports its race, if any. An access touches its location by the bags as they are; every
    /// other record moves the bags. The root's return changes nothing.
    ///
    /// After an error the same call may be made again.
    #[inline(always)]
    pub fn apply(&mut self, placed: Placed) -> Result<Option<Race>, NoMemory>
        requires later { self.old.last_place < placed.place }
        requires to_limit { placed.place ≤ most_records }

        ensures applied { OnOk result (HasApplied placed self.old self.new) }
        ensures race { IfOk result (λ race. race ≡ race_of (state_of self.old) placed.place placed.what) }

        // A refusal changes nothing, and comes only at a spawn, at a call or at the first access of a
        // location.
        ensures refused { OnErr result (IsSameRun self.old self.new) }
        ensures may_grow { OnErr result (MayGrow self.old.shadow placed.what) }
    {
        let ended = matches!(placed.what, Record::Return) && self.bags.active() == 1;
        let race = apply_rule(&mut self.bags, &mut self.shadow, placed)?;
        self.last_place = placed.place;
        if ended {
            self.greatest_place = 0;
        }
        Ok(race)
    }

    /// So many places pass, whose records are taken elsewhere. Gives the first of them.
    #[inline(always)]
    pub fn pass(&mut self, count: u64) -> u64
        requires { self.old.last_place + count ≤ most_records }
        ensures first { result ≡ self.old.last_place + 1 }
        ensures passed { self.new ≡ record self.old { last_place = self.old.last_place + count } }
    {
        let first = self.last_place + 1;
        self.last_place += count;
        first
    }

    /// The location is as it was before its first access.
    #[inline(always)]
    pub fn forget(&mut self, location: u64)
        ensures { ForgetsLocation location self.old self.new }
    {
        self.shadow.forget(location);
    }
}

// The rule of the record's kind.
#[inline(always)]
fn apply_rule<S: BuildHasher>(
    bags: &mut Bags,
    shadow: &mut Shadow<S>,
    placed: Placed,
) -> Result<Option<Race>, NoMemory>
    requires ready { AreReadyFor bags.old shadow.old placed.place }
    requires to_limit { placed.place ≤ most_records }
    ensures state { OnOk result (state_with bags.new shadow.new
        ≡ after_record (state_with bags.old shadow.old) placed.place placed.what) }
    ensures race { IfOk result (λ race. race ≡ race_of (state_with bags.old shadow.old) placed.place placed.what) }
    ensures ready { (next : ℕ) → placed.place < next → AreReadyFor bags.new shadow.new next }
    ensures same_bags { OnErr result (bags.new ≡ bags.old) }
    ensures same_shadow { OnErr result (IsSameShadow shadow.old shadow.new) }
    ensures refused { OnErr result (MayGrow shadow.old placed.what) }
{
    match placed.what {
        Record::Spawn => bags.spawn()?,
        Record::Call => bags.call()?,
        Record::Sync => bags.sync(),
        Record::Return => {
            if bags.active() > 1 {
                bags.ret();
            }
        }
        Record::Read(location) => return shadow.touch(bags, location, Kind::Read, placed.place),
        Record::Write(location) => return shadow.touch(bags, location, Kind::Write, placed.place),
    }
    Ok(None)
}

#[cfg(test)]
mod tests {
    use super::*;
    use dag::Kind::{Read, Write};
    use std::alloc::Global;
    use std::hash::{BuildHasherDefault, FoldHasher};
    use std::test::Fail;

    /// A race: its location, and the kind and the place of each of its accesses.
    type Reported = (u64, (Kind, u64), (Kind, u64));

    /// The races that the records add, one record after another.
    fn races(alloc: Global, records: &[Record]) -> Result<Vec<Reported>, Fail> {
        let hasher = BuildHasherDefault::<FoldHasher>::default();
        let mut sp_bags = SpBags::new(alloc, Shadow::with_hasher(alloc, hasher))?;
        let mut reported = Vec::new(alloc);
        for (index, what) in records.iter().enumerate() {
            let place = index as u64 + 1;
            if !sp_bags.accepts(place) {
                return Err("not accepted".into());
            }
            let what = *what;
            if let Some(race) = sp_bags.apply(Placed { place, what })? {
                let (first, second) = (race.first, race.second);
                reported.push((
                    race.location,
                    (first.kind, first.place),
                    (second.kind, second.place),
                ))?;
            }
        }
        Ok(reported)
    }

    const SPAWN: Record = Record::Spawn;

    const SYNC: Record = Record::Sync;

    const RETURN: Record = Record::Return;

    /// A write of location 9.
    const WRITE: Record = Record::Write(9);
    /// A read of location 9.
    const READ: Record = Record::Read(9);

    #[test]
    fn rows(rt: HostRuntime) -> Result<(), Fail> {
        let rows: [(&str, &[Record], &[Reported]); 13] = [
            (
                "write-write",
                &[SPAWN, WRITE, RETURN, WRITE, RETURN],
                &[(9, (Write, 2), (Write, 4))],
            ),
            (
                "sync-orders",
                &[SPAWN, WRITE, RETURN, SYNC, WRITE, RETURN],
                &[],
            ),
            ("read-read", &[SPAWN, READ, RETURN, READ, RETURN], &[]),
            (
                "touches of one location",
                &[SPAWN, READ, RETURN, SPAWN, READ, RETURN, WRITE, WRITE],
                &[(9, (Read, 2), (Write, 7))],
            ),
            (
                "reader-moves-to-child",
                &[READ, SPAWN, READ, RETURN, WRITE, RETURN],
                &[(9, (Read, 3), (Write, 5))],
            ),
            (
                "grandchild-synced",
                &[SPAWN, SPAWN, WRITE, RETURN, RETURN, SYNC, READ, RETURN],
                &[],
            ),
            (
                "grandchild-unsynced",
                &[SPAWN, SPAWN, WRITE, RETURN, RETURN, READ, RETURN],
                &[(9, (Write, 3), (Read, 6))],
            ),
            (
                "sync-in-sibling",
                &[SPAWN, WRITE, RETURN, SPAWN, SYNC, WRITE, RETURN, RETURN],
                &[(9, (Write, 2), (Write, 6))],
            ),
            (
                "first-reader-stays",
                &[SPAWN, READ, RETURN, READ, WRITE, RETURN],
                &[(9, (Read, 2), (Write, 5))],
            ),
            (
                "read-then-write-in-child",
                &[SPAWN, READ, WRITE, RETURN, WRITE, RETURN],
                &[(9, (Write, 3), (Write, 5))],
            ),
            (
                "read-in-child-of-writer",
                &[WRITE, SPAWN, READ, RETURN, WRITE, RETURN],
                &[(9, (Read, 3), (Write, 5))],
            ),
            (
                "three-writes",
                &[SPAWN, WRITE, RETURN, SPAWN, WRITE, RETURN, WRITE, RETURN],
                &[(9, (Write, 2), (Write, 5))],
            ),
            (
                "two locations",
                &[
                    SPAWN,
                    Record::Write(8),
                    Record::Write(2),
                    RETURN,
                    Record::Read(8),
                    Record::Read(2),
                    RETURN,
                ],
                &[(8, (Write, 2), (Read, 5)), (2, (Write, 3), (Read, 6))],
            ),
        ];
        for (name, records, expected) in rows {
            assert_eq!(rt; races(rt.alloc(), records)?.as_slice(), expected, "{name}");
        }
        Ok(())
    }

    #[test]
    fn before_and_after_a_touch(rt: HostRuntime) -> Result<(), Fail> {
        let mut bags = Bags::new(rt.alloc())?;
        let hasher = BuildHasherDefault::<FoldHasher>::default();
        let mut shadow = Shadow::with_hasher(rt.alloc(), hasher);
        assert_eq!(rt; (shadow.last_place(), shadow.least_count()), (0, 1));
        bags.spawn()?;
        assert_eq!(rt; shadow.touch(&bags, 9, Kind::Read, 5)?, None);
        assert_eq!(rt; (shadow.last_place(), shadow.least_count()), (5, 2));
        bags.ret();
        let race = shadow.touch(&bags, 9, Kind::Write, 7)?.ok_or("no race")?;
        assert_eq!(rt; (race.first.place, race.second.place), (5, 7));
        Ok(())
    }
}
