//! The end of a run: its receipts are compared, and it is answered.
ghost use Rattle.std.specs.Prelude.{◌≡◌, ◌<◌, ℕ, IfOk, OnOk, map, vec_len};
ghost use Rattle.lane.specs.Items.{IsBeginning};
ghost use Rattle.lane.specs.Lanes.{put_of};
ghost use Rattle.detect.specs.Gathered.{given_by};
ghost use Rattle.detect.specs.Closing.{taken_by, given_back, counts_of, takers_of, taker_lanes};
ghost use Rattle.detect.specs.Closing.{given_lanes, IsSameWork, AreSettled, IsEmptied};
ghost use Rattle.detect.specs.Finished.{IsClosed, IsCompared};
ghost use Rattle.detect.specs.RunFinds.{AnswersRun};
ghost use Rattle.detect.specs.Rooms.{HasRoom};

use crate::gathering::Gathering;
use crate::made::Lists;
use crate::reading_thread::ReadingThread;
use crate::sharded::Run;
use collect::Report;
use lane::{End, Taker};
use route::laws::{routers, runs};
use shard::{Back, Worked};
use std::hash::BuildHasher;
use trace::{Fault, Placed};

/// The results of a run: how reading ended, and what the workers handed back.
#[derive(Drop)]
pub(crate) struct Done<S: BuildHasher + Drop> {
    pub(crate) outcome: Result<(), Fault>,
    pub(crate) reading: ReadingThread,
    pub(crate) workers: Vec<Worked<S>>,
}

/// What is left of a run once its receipts are compared.
#[derive(Drop)]
struct Settled<S: BuildHasher + Drop> {
    outcome: Result<(), Fault>,
    gathering: Gathering,
    workers: Vec<Worked<S>>,
}

/// Compares the receipts of a run, whatever its result, and reports the races of the records that were sent.
pub(crate) fn close<S: BuildHasher + Drop>(done: Done<S>, lists: Lists) -> Result<Run, Fault>
    requires room { OnOk done.outcome (HasRoom (vec_len done.workers) lists) }
    requires closed { IsClosed done }
    // where a fault is the answer too
    ensures compared { IsCompared (vec_len done.workers) done }
    ensures lanes { IfOk result (λ run. map (λ t. t.lane) run.lanes.items ≡ taker_lanes done.workers.items) }
    ensures answers { AnswersRun done result }
{
    // What the takers took is of a run of the lanes, by which it is each shard's share.
    routers();
    runs();
    let Settled {
        outcome,
        gathering,
        workers,
    } = settle(done);
    gathering.first_trouble(outcome)?;
    let report = gathering.collector.finish()?;
    Ok(into_run(report, workers, lists))
}

// Compares what each worker took with what the router put on its lane, and what came back with what the worker put,
// however reading ended.
fn settle<S: BuildHasher + Drop>(done: Done<S>) -> Settled<S>
    requires closed { IsClosed done }
    ensures compared { IsCompared (vec_len done.workers) done }
    ensures emptied { (k : ℕ) → k < vec_len done.workers → IsEmptied (takers_of result.workers.items) k }
    ensures same { IsSameWork done.workers.items result.workers.items }
    ensures outcome { result.outcome ≡ done.outcome }
    ensures collector { result.gathering.collector ≡ done.reading.gathering.collector }
{
    let Done {
        outcome,
        reading,
        mut workers,
    } = done;
    let ReadingThread {
        part: _,
        router,
        mut gathering,
        waiting: _,
    } = reading;
    let mut ends = router.into_ends();
    settle_shards(&mut workers, &mut ends);
    settle_backs(&mut workers, &mut gathering.backs);
    Settled {
        outcome,
        gathering,
        workers,
    }
}

// Compares the items that each worker took with the router's receipt of its lane. Each of the first lanes has a
// worker.
fn settle_shards<S: BuildHasher + Drop>(workers: &mut Vec<Worked<S>>, ends: &mut Vec<End<Placed>>)
    requires { IsBeginning (taker_lanes workers.old.items) (map (λ e. e.lane) ends.old.items) }
    ensures same { IsSameWork workers.old.items workers.new.items }
    ensures settled { AreSettled (vec_len workers.old) (taken_by workers.old.items) (map put_of ends.old.items) }
    ensures emptied { (k : ℕ) → k < vec_len workers.old → IsEmptied (takers_of workers.new.items) k }
{
    for shard in 0..workers.len() {
        workers[shard].taker.settle(&mut ends[shard]);
    }
}

// Compares the items taken from each lane back with the worker's receipt of it.
fn settle_backs<S: BuildHasher + Drop>(workers: &mut Vec<Worked<S>>, backs: &mut Vec<Taker<Back>>)
    requires { IsBeginning (given_lanes workers.old.items) (map (λ t. t.lane) backs.old.items) }
    ensures same { IsSameWork workers.old.items workers.new.items }
    ensures takers { takers_of workers.new.items ≡ takers_of workers.old.items }
    ensures settled { AreSettled (vec_len workers.old) (given_by backs.old.items) (given_back workers.old.items) }
{
    for shard in 0..workers.len() {
        backs[shard].settle(&mut workers[shard].back);
    }
}

// The report, and what the workers have of each shard.
fn into_run<S: BuildHasher + Drop>(report: Report, workers: Vec<Worked<S>>, lists: Lists) -> Run
    requires room { HasRoom (vec_len workers) lists }
    ensures report { result.report ≡ report }
    ensures taken { result.taken.items ≡ counts_of workers.items }
    ensures lanes { result.lanes.items ≡ takers_of workers.items }
    ensures lane_count { vec_len result.lanes ≡ vec_len workers }
{
    let Lists {
        mut taken,
        mut lanes,
    } = lists;
    for worked in workers {
        let (count, lane) = count_and_lane(worked);
        taken.push_reserved(count);
        lanes.push_reserved(lane);
    }
    Run {
        report,
        taken,
        lanes,
    }
}

// How many records the worker's shard took, and the lane that they came over.
fn count_and_lane<S: BuildHasher + Drop>(worked: Worked<S>) -> (u64, Taker<Placed>)
    ensures count { result.0 ≡ worked.shard.taken }
    ensures lane { result.1 ≡ worked.taker }
{
    (worked.shard.taken(), worked.taker)
}
