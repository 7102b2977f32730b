//! Detection with a thread for each shard.
ghost use Rattle.std.specs.Prelude.{◌≡◌, All, Err, IfOk, vec_len};
ghost use Rattle.trace.specs.declared.faults.Fault.TheVariants.{NoThread};
ghost use Rattle.trace.specs.Devices.{◌⇝◌};
ghost use Rattle.trace.specs.Endings.{EndsReading, IsWantOfMemoryOrThread};
ghost use Rattle.lane.specs.Items.{IsBeginning};
ghost use Rattle.detect.specs.Closing.{taker_lanes};
ghost use Rattle.detect.specs.Workers.{to_shards};
ghost use Rattle.detect.specs.Readiness.{IsReady};
ghost use Rattle.detect.specs.Finished.{IsClosed, HasRun};
ghost use Rattle.detect.specs.RunReports.{RunAnswers, RunAnswersPart};

use crate::closing::{Done, close};
use crate::made::{Made, make, make_lists};
use crate::plan::Plan;
use crate::workers::{join_all, start_all};
use collect::Report;
use lane::Taker;
use shard::Gate;
use std::alloc::Global;
use std::hash::BuildHasher;
use std::sync::Wait;
use std::thread;
use std::thread::{Scope, Threads};
use std::time::Clock;
use trace::{Fault, Limits, Part, Placed, Source};

/// The result of a run with shards.
#[derive(Drop)]
pub struct Run {
    /// The races, one for each racy location.
    pub report: Report,
    /// The number of records that each shard took, without the mark.
    pub taken: Vec<u64>,
    /// The lane to each shard, taken up to its mark.
    pub lanes: Vec<Taker<Placed>>,
}

/// Reads a trace to its end and reports its races, with a thread for each shard of the locations. It is the SP-bags
/// algorithm of Feng and Leiserson, "Efficient Detection of Determinacy Races in Cilk Programs" (SPAA 1997), with the
/// shadow memory divided among the threads. Each shard has its own hasher.
///
/// It first makes everything but what the shards and the collector add later, then starts the workers, then reads the
/// trace. A fault is the whole answer: no race comes with it. Every started worker is joined.
///
/// ```rust
/// let text: &[u8] = b"trace 1\nspawn\nwrite 5\nreturn\nwrite 5\nreturn\n";
/// let (records, depth) = (1 << 48, 9);
/// let plan = Plan::new(2, 1024, Limits { records, depth });
/// let hasher = BuildHasherDefault::<FoldHasher>::default();
/// let hashers = vec![in rt.alloc(); hasher, hasher]?;
/// let mut source = Counted::new(text);
/// let run = detect(&rt, rt.alloc(), plan, &mut source, &Open, hashers)?;
/// assert_eq!(rt; run.report.races().len(), 1);
/// let race = run.report.races()[0];
/// assert!(rt; (race.location, race.first.place, race.second.place) == (5, 2, 4));
/// ```
pub fn detect<
    T: Threads + Wait + Clock + Sync,
    R: Source,
    G: Gate + Sync,
    S: BuildHasher + Send + Drop,
>(
    rt: &T,
    alloc: Global,
    plan: Plan,
    source: &mut R,
    gate: &G,
    hashers: Vec<S>,
) -> Result<Run, Fault>
where
    S::Hasher: Send,
    requires { vec_len hashers ≡ plan.shards }
    // All bytes of the source are the text of a trace that is well nested within the limits. The report is the
    // verdict on it and its report by the dag, and each shard took its share of it.
    // Otherwise no memory was left, no thread could start, or the fault is the first. If the source holds such a
    // trace and doesn't fail, it is one of the former two.
    ensures ends { EndsReading IsWantOfMemoryOrThread plan.limits.records plan.limits.depth
        (R.state source.old ⇝ R.state source.new) (RunAnswers plan.shards) result }
    ensures capacity { IfOk result (λ run. All (λ lane. lane.capacity ≡ plan.capacity) run.lanes.items) }
{
    detect_part(rt, alloc, plan, Part::whole(), source, gate, hashers)
}

/// Reads a trace to its end and reports the races of a part of its locations. It drops an access to any other
/// location as soon as it has read it, and no shard gets it. The shards divide the numbers of the part's locations:
/// shard j of n has the numbers with remainder j modulo n.
pub fn detect_part<
    T: Threads + Wait + Clock + Sync,
    R: Source,
    G: Gate + Sync,
    S: BuildHasher + Send + Drop,
>(
    rt: &T,
    alloc: Global,
    plan: Plan,
    part: Part,
    source: &mut R,
    gate: &G,
    hashers: Vec<S>,
) -> Result<Run, Fault>
where
    S::Hasher: Send,
    requires { vec_len hashers ≡ plan.shards }
    // As `detect`, but that the report is what the part has of the verdict, and that each shard took its share of what
    // the part has of the trace.
    ensures ends { EndsReading IsWantOfMemoryOrThread plan.limits.records plan.limits.depth
        (R.state source.old ⇝ R.state source.new) (RunAnswersPart part plan.shards) result }
    ensures capacity { IfOk result (λ run. All (λ lane. lane.capacity ≡ plan.capacity) run.lanes.items) }
{
    let lists = make_lists(alloc, hashers.len())?;
    let made = make(alloc, plan.capacity, part, hashers)?;
    let (done, _read) = thread::scope(
        thread::scope_env(),
        rt,
        move |scope| -> (Done<S>, &mut R)
            requires { IsReady (vec_len made.jobs) made }
            ensures done { HasRun made plan.limits (R.state source.entry.now ⇝ R.state result.1.now) result.0 }
            ensures closed { IsClosed result.0 }
            ensures lanes { IsBeginning (taker_lanes result.0.workers.items) (to_shards made.jobs.items) }
            ensures source { result.1.ghost_name ≡ source.entry.ghost_name }
        {
            let done = run_workers(rt, scope, plan.limits, &mut *source, gate, made);
            (done, source)
        },
    );
    let found = close(done, lists)?;
    Ok(Run {
        report: found.report.at_locations_of(part),
        taken: found.taken,
        lanes: found.lanes,
    })
}

// Starts the workers, reads the trace, sends what the part has of it, and joins all started workers. If the start of
// a worker is refused, it reads nothing. Only the collector takes memory here.
fn run_workers<
    's,
    E,
    T: Threads + Wait + Clock + Sync,
    R: Source,
    G: Gate + Sync,
    S: BuildHasher + Send + Drop + 's,
>(
    rt: &'s T,
    scope: &Scope<'s, E>,
    limits: Limits,
    source: &mut R,
    gate: &'s G,
    made: Made<S>,
) -> Done<S>
where
    S::Hasher: Send,
    requires { IsReady (vec_len made.jobs) made }
    ensures done { HasRun made limits (R.state source.old ⇝ R.state source.new) result }
    ensures closed { IsClosed result }
    ensures lanes { IsBeginning (taker_lanes result.workers.items) (to_shards made.jobs.items) }
    ensures unread { result.outcome ≡ Err NoThread → source.new ≡ source.old }
{
    let Made {
        mut reading,
        jobs,
        mut handles,
        mut workers,
    } = made;
    let outcome = match start_all(rt, scope, gate, jobs, &mut handles) {
        Ok(()) => reading.send_all(rt, limits, source),
        Err(refused) => Err(refused),
    };
    reading.mark_all(rt);
    reading.gathering.finish_lanes(rt, handles.len());
    join_all(rt, handles, &mut workers);
    Done {
        outcome,
        reading,
        workers,
    }
}
