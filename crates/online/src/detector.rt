//! The detector and its answers.
ghost use Rattle.std.specs.Prelude.{◌≡◌, ◌≢◌, ◌↔◌, ◌⊎◌, ℕ, ◌+◌, ◌<◌, ◌≤◌, true, List, [], ◌∷◌, ◌++◌};
ghost use Rattle.std.specs.Prelude.{IfOk, IfErr, IsErr, OnOk, OnErr, map, ◌%◌};
ghost use Rattle.std.specs.Int.RustNames.{count_ones};
ghost use Rattle.dag.specs.Bounds.{most_records};
ghost use Rattle.dag.specs.declared.back.Back.{Back};
ghost use Rattle.dag.specs.declared.records.Kind.{Kind};
ghost use Rattle.dag.specs.Races.{access};
ghost use Rattle.dag.specs.declared.records.Record.{Record};
ghost use Rattle.dag.specs.declared.records.Placed.{Placed};
ghost use Rattle.dag.specs.Traces.{IsWellNested};
ghost use Rattle.shadow.specs.Found.{by_location, found, verdict};
ghost use Rattle.collect.specs.Collected.{KeepsBest};
ghost use Rattle.verdict.specs.Reported.{IsReportOf};
ghost use Rattle.online.specs.Accesses.{accesses, block_records};
ghost use Rattle.verdict.specs.Racy.{HasLocation};
ghost use Rattle.online.specs.Lives.{in_life, first_lives, lives_after, AreOfFirstLives};
ghost use Rattle.online.specs.Lives.{IsReportOfLives, HasRacyLife, IsRaceCount};
ghost use Rattle.online.specs.Online.{HasTakenPlaced, IsAfter, IsStopped, MayWant};
ghost use Rattle.online.specs.Steps.{HasTakenMore, RefusesRecords};
ghost use Rattle.online.specs.Following.{block_accesses, IsAdmission, HasFollowedNext, Wants, IsApart, TakesPlaced};
ghost use Rattle.online.specs.Following.{HasOnlyAccessed, HasForgottenUnits};

use blocks::BlockShadow;
use collect::{Collector, Report};
use dag::{Kind, MOST_RECORDS, Placed};
use shadow::{Shadow, SpBags};
use std::alloc::Global;
use std::hash::BuildHasher;
use std::marker::Model;
use trace::{Back, NoMemory, Race, Record};

/// Why the detector didn't take a record.
#[derive(Clone, Copy, Debug, PartialEq, Eq)]
pub enum Refusal {
    /// The root has returned, so no record may come.
    AfterEnd,
    /// With these records the detector would have taken more than 2^48.
    TooMany,
    /// The allocator refused a growth, at this record or an earlier one.
    NoMemory,
}

/// A detector of a run that is under way. The records have the places 1, 2, 3 and so on.
///
/// Odd locations have cells of their own, which is quicker where a strand accesses single ones. Even locations are in
/// blocks, which is quicker where it accesses many.
#[derive(Drop)]
pub struct Detector<S: BuildHasher + Drop> {
    alloc: Global,
    /// The bags, and the shadow memory of odd locations.
    sp_bags: SpBags<S>,
    /// The shadow memory of even locations.
    blocks: BlockShadow<S>,
    collector: Collector,
    /// Whether the allocator has refused a growth.
    stopped: bool,
}

impl<S: BuildHasher + Drop> Model for Detector<S> {
    ghost use Rattle.std.specs.Coded.{codes};
    ghost use Rattle.bags.specs.Procedures.{coded_procedures};
    ghost use Rattle.online.specs.Online.{Online};
    ghost use Rattle.online.specs.Following.{AreBehind};

    ghost Value = { Online };

    ghost coded = { Prim.hlevel (codes, coded_procedures) };

    ghost view = { λ d. record {
      sp_bags = d.sp_bags;
      blocks = d.blocks;
      kept = d.collector;
      stopped = d.stopped;
    } };

    ghost invariant = { λ d. AreBehind d.blocks d.sp_bags };
}

impl<S: BuildHasher + Drop> Detector<S> {
    /// A detector that has taken no record, with a hasher for each of its shadow memories. It needs the least memory if
    /// the locations that a strand accesses are two apart, as those of the tracer's arrays.
    pub fn new(alloc: Global, of_cells: S, of_blocks: S) -> Result<Detector<S>, NoMemory>
        ensures { IfOk result (IsAfter [] first_lives) }
    {
        Ok(Detector {
            alloc,
            sp_bags: SpBags::new(alloc, Shadow::for_program(alloc, of_cells))?,
            blocks: BlockShadow::with_hasher(alloc, of_blocks),
            collector: Collector::new(alloc),
            stopped: false,
        })
    }

    /// Takes the next record.
    ///
    /// After a refused growth the detector stays stopped: it takes no record, and gives no report.
    #[inline(always)]
    pub fn take(&mut self, what: Record) -> Result<(), Refusal>
        ensures taken { OnOk result (HasTakenMore (what ∷ []) self.old self.new) }
        // A record that may not come changes nothing. The allocator can refuse a growth only if the record may need
        // memory. Then the detector is stopped for good.
        ensures refused { RefusesRecords 1 self.old self.new result }
        ensures want { (u : List Record) (lives : ℕ → ℕ) → IsAfter u lives self.old
            → result ≡ Err Refusal.NoMemory → MayWant u (in_life lives what) }
    {
        self.admit(1)?;
        let followed = self.follow(what);
        self.settle(followed)
    }

    /// Takes accesses to units of the location's block: the reads of these, and then the writes, each by ascending
    /// locations. The location is even; an odd one stands for the one before it. A block that may not come is refused
    /// whole.
    #[inline(always)]
    pub fn take_block(&mut self, location: u64, reads: u64, writes: u64) -> Result<(), Refusal>
        ensures taken { OnOk result (HasTakenMore (block_records location reads writes) self.old self.new) }
        ensures refused { RefusesRecords (count_ones reads + count_ones writes) self.old self.new result }
        ensures want { (u : List Record) (lives : ℕ → ℕ) → IsAfter u lives self.old
            → result ≡ Err Refusal.NoMemory → (reads ≢ 0) ⊎ (writes ≢ 0) }
    {
        self.admit(u64::from(reads.count_ones() + writes.count_ones()))?;
        let followed = self.touch_both(location / 2 * 2, reads, writes);
        self.settle(followed)
    }

    /// Begins a new life for these units of the location's block: what comes of them later races with nothing that came
    /// before. A race that was found stays. Memory that nothing else needs is used again.
    pub fn forget(&mut self, location: u64, units: u64)
        ensures forgotten { (u : List Record) (lives : ℕ → ℕ) → IsAfter u lives self.old
            → IsAfter u (lives_after location units lives) self.new }
        ensures stopped { IsStopped self.old → IsStopped self.new }
    {
        if location % 2 == 1 {
            forget_cells(&mut self.sp_bags, location / 128 * 128 + 1, units);
        } else {
            self.blocks.forget(location, units);
        }
    }

    /// How many locations have raced in any of their lives.
    pub fn race_count(&self) -> usize
        ensures { (u : List Record) (lives : ℕ → ℕ) → IsAfter u lives self.now → IsRaceCount u result }
    {
        self.collector.count()
    }

    // Whether so many more records may come.
    #[inline(always)]
    fn admit(&self, count: u64) -> Result<(), Refusal>
        requires { count ≤ 128 }
        ensures { IsAdmission count self.now result }
    {
        if self.stopped {
            return Err(Refusal::NoMemory);
        }
        if self.sp_bags.last_place() > MOST_RECORDS - count {
            return Err(Refusal::TooMany);
        }
        if self.sp_bags.has_ended() {
            return Err(Refusal::AfterEnd);
        }
        Ok(())
    }

    // After a refused growth the detector is stopped.
    #[inline(always)]
    fn settle(&mut self, followed: Result<(), NoMemory>) -> Result<(), Refusal>
        ensures ok { OnOk result ((self.new ≡ self.old) × (followed ≡ Ok tt)) }
        ensures err { IfErr result (λ refusal. (refusal ≡ Refusal.NoMemory) × (self.new.stopped ≡ true)) }
        ensures refused { OnErr result (IsErr followed) }
    {
        if followed.is_err() {
            self.stopped = true;
            return Err(Refusal::NoMemory);
        }
        Ok(())
    }

    // Takes a record at the next place.
    #[inline(always)]
    fn follow(&mut self, what: Record) -> Result<(), NoMemory>
        requires { self.old.sp_bags.last_place < most_records }
        ensures followed { OnOk result (HasFollowedNext what self.old self.new) }
        ensures want { OnErr result (Wants what self.old) }
    {
        match what {
            Record::Read(location) if location % 2 == 0 => {
                self.touch(location, Kind::Read, unit_of(location))
            }
            Record::Write(location) if location % 2 == 0 => {
                self.touch(location, Kind::Write, unit_of(location))
            }
            // Apart from the others: an access of a cell takes a tenth less with a copy of the code for itself.
            Record::Read(_) | Record::Write(_) => self.apply(what),
            Record::Spawn | Record::Call | Record::Return | Record::Sync => self.apply(what),
        }
    }

    // Takes a record at the next place that is no access to an even location.
    #[inline(always)]
    fn apply(&mut self, what: Record) -> Result<(), NoMemory>
        requires room { self.old.sp_bags.last_place < most_records }
        requires apart { IsApart what }
        ensures followed { OnOk result (HasFollowedNext what self.old self.new) }
        ensures want { OnErr result (Wants what self.old) }
    {
        let place = self.sp_bags.last_place() + 1;
        match self.sp_bags.apply(Placed { place, what })? {
            None => Ok(()),
            Some(race) => self.collector.take(Back::Race(race)),
        }
    }

    #[inline(always)]
    fn touch_both(&mut self, location: u64, reads: u64, writes: u64) -> Result<(), NoMemory>
        requires even { location % 2 ≡ 0 }
        requires room { self.old.sp_bags.last_place + (count_ones reads + count_ones writes) ≤ most_records }
        ensures met { OnOk result (TakesPlaced (block_accesses location (self.old.sp_bags.last_place + 1) reads writes)
            self.old self.new) }
        ensures want { OnErr result ((reads ≢ 0) ⊎ (writes ≢ 0)) }
        ensures last { OnOk result (self.new.sp_bags.last_place
            ≡ self.old.sp_bags.last_place + (count_ones reads + count_ones writes)) }
        ensures only { HasOnlyAccessed self.old self.new }
    {
        self.touch(location, Kind::Read, reads)?;
        self.touch(location, Kind::Write, writes)
    }

    // Takes accesses to units of the even location's block, at the next places.
    #[inline(always)]
    fn touch(&mut self, location: u64, kind: Kind, units: u64) -> Result<(), NoMemory>
        requires even { location % 2 ≡ 0 }
        requires room { self.old.sp_bags.last_place + count_ones units ≤ most_records }
        ensures met { OnOk result (TakesPlaced (accesses location kind (self.old.sp_bags.last_place + 1) units)
            self.old self.new) }
        ensures want { OnErr result (units ≢ 0) }
        ensures last { self.new.sp_bags.last_place ≡ self.old.sp_bags.last_place + count_ones units }
        ensures only { HasOnlyAccessed self.old self.new }
    {
        if units == 0 {
            return Ok(());
        }
        let place = self.sp_bags.pass(u64::from(units.count_ones()));
        let mut races = Vec::new(self.alloc);
        self.blocks.touch(
            self.sp_bags.bags(),
            location,
            kind,
            place,
            units,
            &mut races,
        )?;
        if races.is_empty() {
            return Ok(());
        }
        take_all(&mut self.collector, races.as_slice())
    }

    /// The report of the records taken. It refuses if the allocator has refused a growth.
    pub fn finish(self) -> Result<Report, NoMemory>
        ensures races { IfOk result (λ report. (u : List Placed) (lives : ℕ → ℕ) → HasTakenPlaced u lives self
            → IsReportOfLives u report) }
        // Of a well nested trace it has exactly the locations one of whose lives has a race.
        ensures racy { IfOk result (λ report. (u : List Record) (lives : ℕ → ℕ) (records depths : ℕ)
            → IsAfter u lives self → IsWellNested u records depths → (l : ℕ) → HasLocation report l ↔ HasRacyLife u l) }
        // Where nothing was forgotten, it is the verdict, and so of a well nested trace the report by the dag.
        ensures first { IfOk result (λ report. (u : List Placed) → HasTakenPlaced u first_lives self
            → report ≡ by_location (found u)) }
        ensures report { IfOk result (λ report. (u : List Record) (records depths : ℕ) → IsAfter u first_lives self
            → IsWellNested u records depths → IsReportOf u report) }
        // The same where no location was accessed again after it was forgotten.
        ensures once { IfOk result (λ report. (u : List Record) (lives : ℕ → ℕ) → IsAfter u lives self
            → AreOfFirstLives u → report ≡ verdict u) }
        ensures once_report { IfOk result (λ report. (u : List Record) (lives : ℕ → ℕ) (records depths : ℕ)
            → IsAfter u lives self → AreOfFirstLives u → IsWellNested u records depths → IsReportOf u report) }
        ensures stopped { IsStopped self → IsErr result }
    {
        if self.stopped {
            return Err(NoMemory);
        }
        self.collector.finish()
    }
}

// Forgets units of a block of odd locations: `first` is that of unit 0.
fn forget_cells<S: BuildHasher + Drop>(sp_bags: &mut SpBags<S>, first: u64, units: u64)
    requires odd { first % 128 ≡ 1 }
    ensures { HasForgottenUnits first units sp_bags.old sp_bags.new }
{
    for unit in 0..64 {
        if units >> unit & 1 == 1 {
            sp_bags.forget(first + 2 * unit);
        }
    }
}

// The mask of the location's unit in its block.
#[inline(always)]
fn unit_of(location: u64) -> u64
    ensures one { count_ones result ≡ 1 }
    ensures alone { (kind : Kind) (place : ℕ)
        → accesses location kind place result ≡ record { place = place; what = access kind location } ∷ [] }
{
    1 << (location / 2 % 64) as u32
}

#[cold]
#[inline(never)]
fn take_all(collector: &mut Collector, races: &[Race]) -> Result<(), NoMemory>
    ensures { OnOk result ((g : List Back) → KeepsBest g collector.old
        → KeepsBest (g ++ map Back.Race races.now) collector.new) }
{
    for race in races {
        collector.take(Back::Race(*race))?;
    }
    Ok(())
}
