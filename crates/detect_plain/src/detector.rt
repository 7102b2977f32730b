//! The detector of a trace that is read.
ghost use Rattle.std.specs.Prelude.{◌≡◌, ℕ, ◌+◌, ◌<◌, ◌≤◌, List, [], IfOk, OnOk};
ghost use Rattle.dag.specs.Bounds.{most_records};
ghost use Rattle.dag.specs.declared.records.Record.{Record};
ghost use Rattle.dag.specs.declared.records.Placed.{Placed};
ghost use Rattle.dag.specs.Traces.{IsWellNested};
ghost use Rattle.shadow.specs.Found.{by_location, found};
ghost use Rattle.detect_plain.specs.Detected.{HasFollowed, HasSeenTrace};
ghost use Rattle.detect_plain.specs.Taking.{TakesRecord};
ghost use Rattle.verdict.specs.Reported.{IsReportOf};

use collect::{Collector, Report};
use shadow::{Shadow, SpBags};
use std::alloc::Global;
use std::hash::BuildHasher;
use trace::{Back, NoMemory, Part, Placed, Watch};

/// The records come one by one, at ascending places.
#[derive(Drop)]
pub(crate) struct PlainDetector<S: BuildHasher + Drop> {
    sp_bags: SpBags<S>,
    collector: Collector,
}

impl<S: BuildHasher + Drop> PlainDetector<S> {
    /// A detector that has taken no record.
    pub(crate) fn new(alloc: Global, hasher: S) -> Result<PlainDetector<S>, NoMemory>
        ensures { IfOk result (HasSeenTrace []) }
    {
        Ok(PlainDetector {
            sp_bags: SpBags::new(alloc, Shadow::with_hasher(alloc, hasher))?,
            collector: Collector::new(alloc),
        })
    }

    /// Takes a record at a place behind the last record's.
    #[inline(always)]
    fn follow(&mut self, placed: Placed) -> Result<(), NoMemory>
        requires later { self.old.sp_bags.last_place < placed.place }
        requires to_limit { placed.place ≤ most_records }
        ensures { OnOk result (TakesRecord placed self.old self.new) }
    {
        if let Some(race) = self.sp_bags.apply(placed)? {
            self.collector.take(Back::Race(race))?;
        }
        Ok(())
    }

    /// The report of the records taken.
    pub(crate) fn finish(self) -> Result<Report, NoMemory>
        ensures races { IfOk result (λ report. (u : List Placed) → HasFollowed u self
            → report ≡ by_location (found u)) }
        // Of a well nested trace it is the report by the dag.
        ensures report { IfOk result (λ report. (u : List Record) (records depths : ℕ) → HasSeenTrace u self
            → IsWellNested u records depths → IsReportOf u report) }
    {
        self.collector.finish()
    }
}

impl<S: BuildHasher + Drop> Watch for PlainDetector<S> {
    ghost use Rattle.detect_plain.specs.Detected.{HasSeenTrace};

    ghost has_seen = { λ _ u now. HasSeenTrace u now };

    #[inline(always)]
    fn see(&mut self, placed: Placed) -> Result<(), NoMemory> {
        self.follow(placed)
    }
}

/// A detector of a part of a trace's locations, by their numbers.
#[derive(Drop)]
pub(crate) struct PartDetector<S: BuildHasher + Drop> {
    pub(crate) part: Part,
    pub(crate) detector: PlainDetector<S>,
}

impl<S: BuildHasher + Drop> Watch for PartDetector<S> {
    ghost use Rattle.detect_plain.specs.Detected.{HasSeenPart};

    ghost has_seen = { λ first u now. (now.part ≡ first.part) × HasSeenPart first.part u now.detector };

    #[inline(always)]
    fn see(&mut self, placed: Placed) -> Result<(), NoMemory> {
        match self.part.of_record(placed) {
            None => Ok(()),
            Some(own) => self.detector.follow(own),
        }
    }
}
