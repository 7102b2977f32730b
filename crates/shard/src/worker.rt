//! A worker: a shard, and its lane back.
ghost use Rattle.std.specs.Prelude.{◌≡◌, List, [], ◌∷◌, ◌++◌, map};
ghost use Rattle.std.specs.Option.{option_to_list};
ghost use Rattle.dag.specs.declared.records.Placed.{Placed};
ghost use Rattle.lane.specs.declared.item.Item.TheVariants.{One};
ghost use Rattle.lane.specs.Items.{records};
ghost use Rattle.lane.specs.Lanes.{put_of, IsUnmarked};
ghost use Rattle.shard.specs.Going.{HasWorked};

use crate::Back;
use crate::backs::put_back;
use crate::gate::Gate;
use crate::shard::Shard;
use dag::Placed;
use lane::{Item, Sender};
use std::hash::BuildHasher;
use std::sync::Wait;
use std::time::Clock;

/// A shard, its lane back, and whether it has stopped applying records: after a refused growth or a record out of
/// order.
#[derive(Drop)]
pub struct Worker<S: BuildHasher + Drop> {
    /// The bags and the shadow memory of its locations.
    pub shard: Shard<S>,
    /// The lane back, without its mark.
    pub back: Sender<Back>,
    /// Whether it only counts the records from here on.
    pub stopped: bool,
    ghost unmarked: { IsUnmarked back },
}

impl<S: BuildHasher + Drop> Worker<S> {
    /// Applies each record of a block after it has passed the gate. At the end it shows the races of these records to
    /// the taker of the lane back.
    pub fn apply_block<R: Wait + Clock, G: Gate>(
        &mut self,
        rt: &R,
        gate: &G,
        block: &[Item<Placed>],
    )
        ensures worked { (u : List Placed) → HasWorked u self.old.shard (put_of self.old.back) self.old.stopped →
            HasWorked (u ++ records block.now) self.new.shard (put_of self.new.back) self.new.stopped }
        ensures lane { self.new.back.lane ≡ self.old.back.lane }
        ensures shown { self.new.back.shown ≡ put_of self.new.back }
    {
        for item in block {
            // Only a race and a refused growth, which are rare, need the runtime.
            if let Some(back) = self.take_item(gate, *item) {
                put_back(rt, &mut self.back, back);
            }
        }
        self.back.flush();
    }

    // Takes an item, and gives what is to be put on the lane back. A record that has passed the gate is applied, and
    // gives its race. After a refused growth, which it gives once, and after a record out of order it only counts.
    #[inline(always)]
    fn take_item<G: Gate>(&mut self, gate: &G, item: Item<Placed>) -> Option<Back>
        ensures worked { (u : List Placed) → HasWorked u self.old.shard (put_of self.old.back) self.old.stopped →
            HasWorked (u ++ records (item ∷ [])) self.new.shard
            (put_of self.old.back ++ map One (option_to_list result)) self.new.stopped }
        ensures back { self.new.back ≡ self.old.back }
    {
        let Item::One(placed) = item else {
            return None;
        };
        gate.pass(self.shard.index(), placed.place);
        if self.stopped || !self.shard.accepts(placed.place) {
            self.stopped = true;
            self.shard.count_one();
            return None;
        }
        match self.shard.apply(placed) {
            Ok(race) => Some(Back::Race(race?)),
            Err(_) => {
                self.stopped = true;
                self.shard.count_one();
                Some(Back::NoMemory)
            }
        }
    }
}
