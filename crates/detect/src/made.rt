//! What a run needs. All of it is made before the first worker starts and before the first byte is read.
ghost use Rattle.std.specs.Prelude.{◌≡◌, ℕ, ◌+◌, ◌≤◌, length, vec_len, vec_capacity, IfOk, OnOk};
ghost use Rattle.dag.specs.Bounds.{IsShardCount, IsCapacity};
ghost use Rattle.detect.specs.Readiness.{AreJobsFrom, IsBetween, IsJobOf, IsReady, IsTied};
ghost use Rattle.detect.specs.Rooms.{HasRoom};

use crate::gathering::Gathering;
use crate::reading_thread::ReadingThread;
use crate::workers::{Job, WorkOf};
use collect::Collector;
use lane::{Sender, Taker, lane};
use route::Router;
use shard::{Back, Shard, Worked};
use std::alloc::Global;
use std::hash::BuildHasher;
use std::thread::PromisedHandle;
use trace::{NoMemory, Part, Placed};
use waiting::Waiting;

/// The ends of the lanes to the shards and back, while they are made.
#[derive(Drop)]
pub(crate) struct LaneEnds<S: BuildHasher + Drop> {
    pub(crate) senders: Vec<Sender<Placed>>,
    pub(crate) jobs: Vec<Job<S>>,
    pub(crate) backs: Vec<Taker<Back>>,
}

/// The state of a run at its start. There is room for a handle and for an answer of each worker.
#[derive(Drop)]
pub(crate) struct Made<S: BuildHasher + Drop> {
    pub(crate) reading: ReadingThread,
    pub(crate) jobs: Vec<Job<S>>,
    pub(crate) handles: Vec<PromisedHandle<Worked<S>, WorkOf>>,
    pub(crate) workers: Vec<Worked<S>>,
}

/// Room for the results of each shard.
#[derive(Drop)]
pub(crate) struct Lists {
    pub(crate) taken: Vec<u64>,
    pub(crate) lanes: Vec<Taker<Placed>>,
}

/// Makes the lanes, the router of the part's records, the shards, and room for the results of the workers.
pub(crate) fn make<S: BuildHasher + Drop>(
    alloc: Global,
    capacity: u32,
    part: Part,
    hashers: Vec<S>,
) -> Result<Made<S>, NoMemory>
    requires capacity { IsCapacity capacity }
    requires shards { IsShardCount (vec_len hashers) }
    ensures ready { IfOk result (IsReady (vec_len hashers)) }
    ensures part { IfOk result (λ made. made.reading.part ≡ part) }
    ensures jobs { IfOk result (λ made. AreJobsFrom capacity 0 made.jobs.items) }
{
    let count = hashers.len();
    let ends = make_ends(alloc, capacity as usize, hashers)?;
    let LaneEnds {
        senders,
        jobs,
        backs,
    } = ends;
    Ok(Made {
        reading: ReadingThread {
            part,
            router: Router::new(alloc, senders)?,
            gathering: Gathering {
                backs,
                collector: Collector::new(alloc),
            },
            waiting: Waiting::beside(1, capacity as usize),
        },
        jobs,
        handles: with_room(alloc, count)?,
        workers: with_room(alloc, count)?,
    })
}

// A shard for each hasher, with a lane to it and a lane back.
fn make_ends<S: BuildHasher + Drop>(
    alloc: Global,
    capacity: usize,
    hashers: Vec<S>,
) -> Result<LaneEnds<S>, NoMemory>
    requires capacity { IsCapacity capacity }
    requires shards { IsShardCount (vec_len hashers) }
    ensures tied { IfOk result (IsTied (vec_len hashers)) }
    ensures jobs { IfOk result (λ ends. AreJobsFrom capacity 0 ends.jobs.items) }
{
    let mut ends = LaneEnds {
        senders: Vec::new(alloc),
        jobs: Vec::new(alloc),
        backs: Vec::new(alloc),
    };
    let shards = hashers.len() as u64;
    let mut index = 0;
    for hasher in hashers {
        add_shard(alloc, capacity, index, shards, hasher, &mut ends)?;
        index += 1;
    }
    Ok(ends)
}

fn add_shard<S: BuildHasher + Drop>(
    alloc: Global,
    capacity: usize,
    index: u32,
    shards: u64,
    hasher: S,
    ends: &mut LaneEnds<S>,
) -> Result<(), NoMemory>
    requires capacity { IsCapacity capacity }
    requires shards { 1 ≤ shards }
    ensures tied { OnOk result ((n : ℕ) → IsTied n ends.old → IsTied (n + 1) ends.new) }
    ensures jobs { OnOk result (AreJobsFrom capacity 0 ends.old.jobs.items → length ends.old.jobs.items ≡ index
        → AreJobsFrom capacity 0 ends.new.jobs.items) }
{
    let (sender, job, gatherer) = make_job(alloc, capacity, index, shards, hasher)?;
    ends.senders.push(sender)?;
    ends.backs.push(gatherer)?;
    ends.jobs.push(job)?;
    Ok(())
}

// A new shard with its lanes, between the sender of the lane to it and the taker of the lane back.
fn make_job<S: BuildHasher + Drop>(
    alloc: Global,
    capacity: usize,
    index: u32,
    shards: u64,
    hasher: S,
) -> Result<(Sender<Placed>, Job<S>, Taker<Back>), NoMemory>
    requires capacity { IsCapacity capacity }
    requires shards { 1 ≤ shards }
    ensures between { IfOk result (λ made. IsBetween made.0 made.2 made.1) }
    ensures job { IfOk result (λ made. IsJobOf capacity index made.1) }
{
    let (sender, taker) = lane(alloc, capacity)?;
    let (back, gatherer) = lane(alloc, capacity)?;
    let shard = Shard::of_shards(alloc, index, shards, hasher)?;
    Ok((sender, Job { shard, taker, back }, gatherer))
}

/// Room for the results of `count` shards.
pub(crate) fn make_lists(alloc: Global, count: usize) -> Result<Lists, NoMemory>
    ensures { IfOk result (HasRoom count) }
{
    Ok(Lists {
        taken: with_room(alloc, count)?,
        lanes: with_room(alloc, count)?,
    })
}

fn with_room<X: Drop>(alloc: Global, count: usize) -> Result<Vec<X>, NoMemory>
    ensures { IfOk result (λ v. (vec_len v ≡ 0) × (count ≤ vec_capacity v)) }
{
    Ok(Vec::with_capacity(alloc, count)?)
}
