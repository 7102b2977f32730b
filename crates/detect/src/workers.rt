//! The workers: their jobs and their promise. Each starts in the scope of the run, and is joined at its end.
ghost use Rattle.std.specs.Prelude.{◌≡◌, ◌≤◌, map, vec_len, vec_capacity, IfErr, OnOk, MatchResult};
ghost use Rattle.trace.specs.declared.faults.Fault.TheVariants.{NoThread};
ghost use Rattle.lane.specs.Items.{IsBeginning};
ghost use Rattle.shard.specs.Worked.{DidWork};
ghost use Rattle.detect.specs.Workers.{IsFreshJob, AllFresh, job_lanes, handle_lanes, AllDid};

use lane::{Sender, Taker};
use shard::{Back, Gate, Shard, Worked, work};
use std::hash::BuildHasher;
use std::snapshot::Snapshot;
use std::sync::Wait;
use std::thread::{Promise, PromisedHandle, Scope, Threads};
use std::time::Clock;
use trace::{Fault, Placed};

/// A shard, the lane to it, and the lane back.
#[derive(Drop)]
pub(crate) struct Job<S: BuildHasher + Drop> {
    pub(crate) shard: Shard<S>,
    pub(crate) taker: Taker<Placed>,
    pub(crate) back: Sender<Back>,
}

/// The promise of a worker: it has done its work on its lanes.
#[derive(Drop)]
pub(crate) struct WorkOf {
    pub(crate) taker: Snapshot<Taker<Placed>>,
    pub(crate) back: Snapshot<Sender<Back>>,
}

impl<S: BuildHasher + Drop> Promise<Worked<S>> for WorkOf {
    ghost kept_by = { λ p r. DidWork p.taker.value p.back.value r };
}

/// Starts a worker on each job. The handles are in the order of the jobs. After a refused start it drops the jobs
/// that are left.
pub(crate) fn start_all<
    's,
    E,
    T: Wait + Clock + Sync,
    G: Gate + Sync,
    S: BuildHasher + Send + Drop + 's,
>(
    rt: &'s T,
    scope: &Scope<'s, E>,
    gate: &'s G,
    jobs: Vec<Job<S>>,
    handles: &mut Vec<PromisedHandle<Worked<S>, WorkOf>>,
) -> Result<(), Fault>
where
    S::Hasher: Send,
    requires new { AllFresh jobs.items }
    requires none { vec_len handles.old ≡ 0 }
    requires room { vec_len jobs ≤ vec_capacity handles.old }
    ensures started { OnOk result (map handle_lanes handles.new.items ≡ map job_lanes jobs.items) }
    ensures first_ones { IsBeginning (map handle_lanes handles.new.items) (map job_lanes jobs.items) }
    ensures refused { IfErr result (λ fault. fault ≡ NoThread) }
    ensures most { vec_len handles.new ≤ vec_len jobs }
{
    for job in jobs {
        let handle = start(rt, scope, gate, job)?;
        handles.push_reserved(handle);
    }
    Ok(())
}

fn start<'s, E, T: Wait + Clock + Sync, G: Gate + Sync, S: BuildHasher + Send + Drop + 's>(
    rt: &'s T,
    scope: &Scope<'s, E>,
    gate: &'s G,
    job: Job<S>,
) -> Result<PromisedHandle<Worked<S>, WorkOf>, Fault>
where
    S::Hasher: Send,
    requires { IsFreshJob job }
    ensures { MatchResult result (λ handle. handle_lanes handle ≡ job_lanes job) (λ fault. fault ≡ NoThread) }
{
    let Job { shard, taker, back } = job;
    let promise = WorkOf {
        taker: Snapshot::of(&taker),
        back: Snapshot::of(&back),
    };
    match scope.spawn_with(promise, move || work(rt, shard, taker, back, gate)) {
        Ok(handle) => Ok(handle),
        Err(_) => Err(Fault::NoThread),
    }
}

/// Joins the workers. Their results are in the order of the handles.
pub(crate) fn join_all<T: Threads, S: BuildHasher + Drop>(
    rt: &T,
    handles: Vec<PromisedHandle<Worked<S>, WorkOf>>,
    workers: &mut Vec<Worked<S>>,
)
    requires none { vec_len workers.old ≡ 0 }
    requires room { vec_len handles ≤ vec_capacity workers.old }
    ensures { AllDid (map handle_lanes handles.items) workers.new.items }
{
    for handle in handles {
        workers.push_reserved(handle.join(rt));
    }
}
