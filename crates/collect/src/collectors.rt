//! The races of all shards, by location.
ghost use Rattle.std.specs.Prelude.{◌≡◌, List, [], ◌∷◌, length, map, true, IsTrue, OnOk, OnErr, IfOk, IsErr};
ghost use Rattle.dag.specs.declared.back.Back.{Back};
ghost use Rattle.collect.specs.Collected.{AreFirstLeast, KeepsBest, KeepsMore, IsCollected, IsFirstOnLocation};
ghost use Rattle.collect.specs.Collected.{IsTakenInPart, fails};
ghost use Rattle.collect.specs.Keyed.{has_better};
ghost use Rattle.collect.specs.Reports.{IsReportList};

use crate::reports::Report;
use std::alloc::Global;
use std::collections::BTreeMap;
use std::marker::Model;
use trace::{Back, NoMemory, Race};

/// Keeps for each location the race with the least second place; if two have the same places, the one that came
/// first.
#[derive(Drop)]
pub struct Collector {
    alloc: Global,
    kept: BTreeMap<u64, Race>,
    refused: bool,
}

impl Model for Collector {
    ghost use Rattle.std.specs.BTreeMap.{values};
    ghost use Rattle.collect.specs.Collected.{Collection};
    ghost use Rattle.collect.specs.Keyed.{IsKeyed};

    ghost Value = { Collection };

    ghost view = { λ c. record { races = values c.kept; refused = c.refused } };

    ghost invariant = { λ c. IsKeyed c.kept.entries };
}

impl Collector {
    /// A collector without races. It takes no memory yet.
    pub fn new(alloc: Global) -> Collector
        ensures { KeepsBest [] result }
    {
        Collector {
            alloc,
            kept: BTreeMap::new(alloc),
            refused: false,
        }
    }

    /// Takes what a shard handed back. Only a race on a new location needs memory. A refused growth changes nothing.
    pub fn take(&mut self, back: Back) -> Result<(), NoMemory>
        ensures ok { OnOk result (KeepsMore (back ∷ []) self.old self.new) }
        ensures err { OnErr result (self.new ≡ self.old) }
        ensures cause { OnErr result (IsFirstOnLocation self.old back) }
    {
        match back {
            Back::Race(race) => self.keep(race),
            Back::NoMemory => {
                self.note_refused();
                Ok(())
            }
        }
    }

    /// Notes that a growth was refused, to a shard or to the collector: there will be no report.
    pub fn note_refused(&mut self)
        ensures races { self.new.races ≡ self.old.races }
        ensures refused { IsTrue self.new.refused }
    {
        self.refused = true;
    }

    /// Whether a refused growth was noted.
    pub fn is_refused(&self) -> bool
        ensures { result ≡ self.now.refused }
    {
        self.refused
    }

    /// How many locations have a race among those taken.
    pub fn count(&self) -> usize
        ensures count { result ≡ length self.now.races }
        ensures report { IsReportList self.now.races }
    {
        self.kept.len()
    }

    /// Takes the races of a report, one after another. If the allocator refuses a growth, the collector has the races
    /// before it and lacks the others, so it is no longer the whole.
    pub fn take_report(&mut self, report: &Report) -> Result<(), NoMemory>
        ensures ok { OnOk result (KeepsMore (map Back.Race report.now) self.old self.new) }
        ensures err { OnErr result (IsTakenInPart report.now self.old self.new) }
    {
        for race in report.races() {
            self.keep(*race)?;
        }
        Ok(())
    }

    /// The report of the races taken. It refuses if a shard has run out of memory.
    pub fn finish(self) -> Result<Report, NoMemory>
        ensures ok { IfOk result (λ r. (g : List Back) → KeepsBest g self → IsCollected g r) }
        ensures first_least { IfOk result (λ r. (g : List Back) → KeepsBest g self → AreFirstLeast g r) }
        ensures refuses { (g : List Back) → KeepsBest g self → fails g ≡ true → IsErr result }
    {
        if self.refused {
            return Err(NoMemory);
        }
        let races = self.kept.into_values().collect(self.alloc)?;
        Ok(Report { races })
    }

    fn keep(&mut self, race: Race) -> Result<(), NoMemory>
        ensures ok { OnOk result (KeepsMore (Back.Race race ∷ []) self.old self.new) }
        ensures err { OnErr result (self.new ≡ self.old) }
        ensures cause { OnErr result (IsFirstOnLocation self.old (Back.Race race)) }
    {
        if self.has_better(&race) {
            return Ok(());
        }
        self.kept.insert(race.location, race)?;
        Ok(())
    }

    // Whether the race that is kept of this location has a second place that is no later.
    fn has_better(&self, race: &Race) -> bool
        ensures { result ≡ has_better self.now.races race.now }
    {
        match self.kept.get(&race.location) {
            Some(kept) => kept.second.place <= race.second.place,
            None => false,
        }
    }
}
