//! The lanes back from the shards, and the races that came over them.
ghost use Rattle.std.specs.Prelude.{◌≡◌, ◌<◌, ◌≤◌, ℕ, ◌∷◌, Err, IfErr, OnOk};
ghost use Rattle.std.specs.Prelude.{vec_len, [], IsTrue, IsFalse};
ghost use Rattle.lane.specs.declared.item.Item.{Item};
ghost use Rattle.dag.specs.declared.back.Back.{Back};
ghost use Rattle.dag.specs.declared.back.Back.TheVariants as backs;
ghost use Rattle.trace.specs.declared.faults.Fault.TheVariants as faults;
ghost use Rattle.collect.specs.Collected.{KeepsMore};
ghost use Rattle.detect.specs.Gathered.{GathersMore};
ghost use Rattle.detect.specs.LanesBack.{IsFurther, HasBackMark};

use collect::Collector;
use lane::{BLOCK, Item, Taker};
use shard::Back;
use std::sync::Wait;
use std::time::Clock;
use trace::{Fault, NoMemory};
use waiting::Waiting;

/// The lanes back from the shards, and the races that came over them.
#[derive(Drop)]
pub(crate) struct Gathering {
    pub(crate) backs: Vec<Taker<Back>>,
    pub(crate) collector: Collector,
}

impl Gathering {
    /// Takes from each lane in turn what is there.
    pub(crate) fn take_from_all(&mut self)
        ensures { IsFurther self.old self.new }
    {
        for shard in 0..self.backs.len() {
            self.take_from(shard);
        }
    }

    /// Takes from each lane in turn what is there; want of memory if a growth was refused.
    pub(crate) fn take_backs(&mut self) -> Result<(), NoMemory>
        ensures further { IsFurther self.old self.new }
        ensures none_refused { OnOk result (IsFalse self.new.collector.refused) }
    {
        self.take_from_all();
        self.refusal()
    }

    /// Want of memory, if a growth was refused here or in a shard.
    pub(crate) fn refusal(&self) -> Result<(), NoMemory>
        ensures none_refused { OnOk result (IsFalse self.now.collector.refused) }
        ensures refused { IfErr result (λ _. IsTrue self.now.collector.refused) }
    {
        if self.collector.is_refused() {
            Err(NoMemory)
        } else {
            Ok(())
        }
    }

    /// Takes from the first `count` lanes until each has given its mark.
    pub(crate) fn finish_lanes<R: Wait + Clock>(&mut self, rt: &R, count: usize)
        requires { count ≤ vec_len self.old.backs }
        ensures further { IsFurther self.old self.new }
        ensures ended { (k : ℕ) → k < count → HasBackMark self.new k }
    {
        for shard in 0..count {
            self.finish_lane(rt, shard);
        }
    }

    fn finish_lane<R: Wait + Clock>(&mut self, rt: &R, shard: usize)
        requires { shard < vec_len self.old.backs }
        ensures further { IsFurther self.old self.new }
        ensures ended { HasBackMark self.new shard }
    {
        let mut waiting = Waiting::new();
        let mut finds: u64 = 0;
        for _ in rt.forever() {
            if self.backs[shard].ended() {
                return;
            }
            if self.take_from(shard) {
                finds = finds.saturating_add(1);
            } else {
                waiting.wait(rt, finds);
            }
        }
        unreachable!()
    }

    // Takes items on the lane; false if there was none. Mostly there is none, and then no room for a block is made.
    fn take_from(&mut self, shard: usize) -> bool
        requires { shard < vec_len self.old.backs }
        ensures { IsFurther self.old self.new }
    {
        match self.backs[shard].take() {
            None => false,
            Some(item) => {
                self.keep_item(item);
                self.take_block_from(shard);
                true
            }
        }
    }

    // Takes a block of the items on the lane.
    #[cold]
    #[inline(never)]
    fn take_block_from(&mut self, shard: usize)
        requires { shard < vec_len self.old.backs }
        ensures { IsFurther self.old self.new }
    {
        let mut block = [Item::Finish; BLOCK];
        let count = self.backs[shard].take_block(&mut block);
        self.keep_all(&block[..count]);
    }

    // Gives what a lane gave to the collector.
    fn keep_all(&mut self, items: &[Item<Back>])
        ensures backs { self.new.backs ≡ self.old.backs }
        ensures gathers { GathersMore items.now self.old.collector self.new.collector }
    {
        for item in items {
            self.keep_item(*item);
        }
    }

    fn keep_item(&mut self, item: Item<Back>)
        ensures backs { self.new.backs ≡ self.old.backs }
        ensures gathers { GathersMore (item ∷ []) self.old.collector self.new.collector }
    {
        match item {
            Item::One(back) => self.keep(back),
            Item::Finish => {}
        }
    }

    // Gives a race to the collector. After a refused growth, here or in a shard, it is dropped.
    fn keep(&mut self, back: Back)
        ensures backs { self.new.backs ≡ self.old.backs }
        ensures given { IsFalse self.new.collector.refused → IsFalse self.old.collector.refused
            × KeepsMore (back ∷ []) self.old.collector self.new.collector }
        ensures refused { back ≡ backs.NoMemory → IsTrue self.new.collector.refused }
    {
        match back {
            Back::NoMemory => self.collector.note_refused(),
            Back::Race(_) if self.collector.is_refused() => {}
            Back::Race(_) => {
                if self.collector.take(back).is_err() {
                    self.collector.note_refused();
                }
            }
        }
    }

    /// Want of memory, if a growth was refused here or in a shard. It comes before a refused start and before a
    /// fault of the trace.
    pub(crate) fn first_trouble(&self, outcome: Result<(), Fault>) -> Result<(), Fault>
        ensures refused { IsTrue self.now.collector.refused → result ≡ Err faults.NoMemory }
        ensures none_refused { IsFalse self.now.collector.refused → result ≡ outcome }
    {
        self.refusal()?;
        outcome
    }
}
