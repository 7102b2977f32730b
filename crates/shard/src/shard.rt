//! The state of a shard: the records that it has taken, as bags and shadow memory.
ghost use Rattle.std.specs.Prelude.{◌≡◌, ◌↔◌, ◌+◌, ◌≤◌, IsTrue, IfOk, OnOk, OnErr};
ghost use Rattle.shadow.specs.Found.{race_of};
ghost use Rattle.shadow.specs.SpBags.{Accepts, HasApplied, IsBlank, MayGrow, state_of};
ghost use Rattle.shard.specs.Shards.{IsFresh, IsSameShard, capped_count};

use dag::{NoMemory, Placed, Race};
use shadow::{Shadow, SpBags};
use std::alloc::Global;
use std::hash::BuildHasher;
use std::marker::Model;

/// A shard: the bags of the run, and the shadow memory of the shard's locations.
#[derive(Drop)]
pub struct Shard<S: BuildHasher + Drop> {
    index: u32,
    /// The number of shards.
    shards: u64,
    sp_bags: SpBags<S>,
    taken: u64,
}

impl<S: BuildHasher + Drop> Model for Shard<S> {
    ghost use Rattle.std.specs.Coded.{codes};
    ghost use Rattle.bags.specs.Procedures.{coded_procedures};
    ghost use Rattle.shard.specs.Shards.{ShardState};

    ghost Value = { ShardState };

    ghost coded = { Prim.hlevel (codes, coded_procedures) };

    ghost view = { λ s. record { index = s.index; sp_bags = s.sp_bags; taken = s.taken } };
}

impl<S: BuildHasher + Drop> Shard<S> {
    /// The shard of this number, before its first record. It takes any location. It needs the least memory if the
    /// locations are even numbers, as those of the tracer's arrays.
    pub fn new(alloc: Global, index: u32, hasher: S) -> Result<Shard<S>, NoMemory>
        ensures new { IfOk result IsFresh }
        ensures index { IfOk result (λ shard. shard.index ≡ index) }
    {
        Shard::with_shadow(alloc, index, 1, Shadow::for_program(alloc, hasher))
    }

    /// The shard of this number among `shards` shards, before its first record. It takes any location. It needs the
    /// least memory if it takes only the locations of this shard.
    pub fn of_shards(
        alloc: Global,
        index: u32,
        shards: u64,
        hasher: S,
    ) -> Result<Shard<S>, NoMemory>
        requires { 1 ≤ shards }
        ensures new { IfOk result IsFresh }
        ensures index { IfOk result (λ shard. shard.index ≡ index) }
    {
        let shadow = Shadow::for_shards(alloc, hasher, shards);
        Shard::with_shadow(alloc, index, shards, shadow)
    }

    fn with_shadow(
        alloc: Global,
        index: u32,
        shards: u64,
        shadow: Shadow<S>,
    ) -> Result<Shard<S>, NoMemory>
        requires { IsBlank shadow }
        ensures new { IfOk result IsFresh }
        ensures index { IfOk result (λ shard. shard.index ≡ index) }
    {
        Ok(Shard {
            index,
            shards,
            sp_bags: SpBags::new(alloc, shadow)?,
            taken: 0,
        })
    }

    /// Whether a record may come at this place: the place is above the last record's and at most 2^48, and the root
    /// hasn't returned.
    pub fn accepts(&self, place: u64) -> bool
        ensures { IsTrue result ↔ Accepts self.now.sp_bags place }
    {
        self.sp_bags.accepts(place)
    }

    /// Takes a record of the shard's share, and reports its race, if any. The root's return changes no bags.
    ///
    /// After an error the same call may be made again.
    pub fn apply(&mut self, placed: Placed) -> Result<Option<Race>, NoMemory>
        requires { Accepts self.old.sp_bags placed.place }

        // After the records of a run, the race is the one that this record adds to those found.
        ensures race { IfOk result (λ race. race ≡ race_of (state_of self.old.sp_bags) placed.place placed.what) }
        ensures applied { OnOk result (HasApplied placed self.old.sp_bags self.new.sp_bags) }
        ensures index { OnOk result (self.new.index ≡ self.old.index) }
        ensures taken { OnOk result (self.new.taken ≡ capped_count (self.old.taken + 1)) }

        // A refusal changes nothing, and comes only at a spawn or at the first access to a location.
        ensures refused { OnErr result (IsSameShard self.old self.new) }
        ensures may_grow { OnErr result (MayGrow self.old.sp_bags.shadow placed.what) }
    {
        // The rare race has an arm of its own, so that the other records carry none along.
        match self.sp_bags.apply(placed)? {
            None => {
                self.count_one();
                Ok(None)
            }
            Some(race) => {
                self.count_one();
                Ok(Some(race))
            }
        }
    }

    /// Counts a record.
    pub(crate) fn count_one(&mut self)
        ensures { self.new ≡ record self.old { taken = capped_count (self.old.taken + 1) } }
    {
        self.taken = self.taken.saturating_add(1);
    }

    /// The number of the shard.
    pub(crate) fn index(&self) -> u32
        ensures { result ≡ self.now.index }
    {
        self.index
    }

    /// The number of shards.
    pub(crate) fn shards(&self) -> u64 {
        self.shards
    }

    /// The number of records that the shard has taken: those applied, and those that `work` took and didn't apply. At
    /// 2^64 - 1 the count stays.
    pub fn taken(&self) -> u64
        ensures { result ≡ self.now.taken }
    {
        self.taken
    }
}
