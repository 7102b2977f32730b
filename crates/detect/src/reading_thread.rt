//! The reading thread: it sends the records of the source to the shards, and at last the marks.
ghost use Rattle.std.specs.Prelude.{◌≡◌, ◌++◌, ◌∷◌, [], List, OnOk, IsFalse};
ghost use Rattle.std.specs.Option.{option_to_list};
ghost use Rattle.dag.specs.declared.records.Placed.{Placed};
ghost use Rattle.dag.specs.Traces.{placed};
ghost use Rattle.dag.specs.Parts.{records_of};
ghost use Rattle.trace.specs.Devices.{◌⇝◌};
ghost use Rattle.trace.specs.Feeding.{IsNext};
ghost use Rattle.trace.specs.Endings.{EndsReading, IsWantOfMemory};
ghost use Rattle.route.specs.Routers.{lane_count};
ghost use Rattle.route.specs.Routers.{HasSent, IsUnchanged, IsStuck, ShowsAll};
ghost use Rattle.detect.specs.Sent.{MaySend, LacksLast, GoesOn};

use crate::gathering::Gathering;
use route::{Full, Progress, Router};
use std::sync::Wait;
use std::time::Clock;
use trace::{Fault, Intake, Limits, NoMemory, Part, Placed, Source};
use waiting::Waiting;

/// The reading thread: it sends a part's records to the shards, and takes the races that come back.
#[derive(Drop)]
pub(crate) struct ReadingThread {
    pub(crate) part: Part,
    pub(crate) router: Router,
    pub(crate) gathering: Gathering,
    /// How it waits at a full lane.
    pub(crate) waiting: Waiting,
}

impl ReadingThread {
    /// Reads the trace to its end, to its first fault, or until a refused growth is known, and sends what the part has
    /// of its records.
    pub(crate) fn send_all<T: Wait + Clock, R: Source>(
        &mut self,
        rt: &T,
        limits: Limits,
        source: &mut R,
    ) -> Result<(), Fault>
        requires ready { MaySend self.old }
        requires none_sent { HasSent [] self.old.router }
        ensures sent { EndsReading IsWantOfMemory limits.records limits.depth (R.state source.old ⇝ R.state source.new)
            (λ _ w. HasSent (records_of self.old.part (placed w)) self.new.router) result }
        ensures idle { self.new.router.pending ≡ None }
        ensures goes_on { GoesOn self.old self.new }
    {
        let mut intake = Intake::new(limits);
        'records: loop {
            match intake.next_known() {
                Some(placed) => self.send(rt, placed)?,
                None => {
                    self.router.flush();
                    self.gathering.take_backs()?;
                    match self.read_on(&mut intake, source)? {
                        None => return Ok(()),
                        Some(placed) => self.send(rt, placed)?,
                    }
                }
            }
        }
    }

    // The next record of the source. It may have to wait for the source, and the shards aren't to wait meanwhile.
    #[inline(always)]
    fn read_on<R: Source>(
        &self,
        intake: &mut Intake,
        source: &mut R,
    ) -> Result<Option<Placed>, Fault>
        requires none_refused { IsFalse self.now.gathering.collector.refused }
        requires shown { ShowsAll self.now.router }
        ensures { IsNext intake.old intake.new (R.state source.old ⇝ R.state source.new) result }
    {
        intake.next_from(source)
    }

    // Sends what the part has of the record.
    #[inline(always)]
    fn send<T: Wait + Clock>(&mut self, rt: &T, placed: Placed) -> Result<(), NoMemory>
        requires { MaySend self.old }
        ensures sent { (w : List Placed) → HasSent (records_of self.old.part w) self.old.router
            → HasSent (records_of self.old.part (w ++ placed ∷ [])) self.new.router }
        ensures ready { OnOk result (MaySend self.new) }
        ensures idle { self.new.router.pending ≡ None }
        ensures goes_on { GoesOn self.old self.new }
    {
        if let Some(own) = record_of_part(self.part, placed) {
            if let Err(Full) = self.router.send(own) {
                return self.send_rest(rt, placed.place);
            }
        }
        Ok(())
    }

    // Puts the pending record on the lanes that lack it; the next of them was full.
    #[cold]
    #[inline(never)]
    fn send_rest<T: Wait + Clock>(&mut self, rt: &T, place: u64) -> Result<(), NoMemory>
        requires unmarked { self.old.router.marked ≡ 0 }
        requires full { IsStuck self.old.router self.old.router.next }
        ensures sent { (w : List Placed) → LacksLast w self.old.router → HasSent w self.new.router }
        ensures ready { OnOk result (MaySend self.new) }
        ensures idle { self.new.router.pending ≡ None }
        ensures goes_on { GoesOn self.old self.new }
    {
        self.wait(rt, place);
        for _ in rt.forever() {
            match self.router.step() {
                Progress::Idle => return self.gathering.refusal(),
                Progress::Moved => {}
                Progress::Blocked(_) => self.wait(rt, place),
            }
        }
        unreachable!()
    }

    /// Puts the mark on every lane.
    pub(crate) fn mark_all<T: Wait + Clock>(&mut self, rt: &T)
        requires { self.old.router.pending ≡ None }
        ensures sent { (w : List Placed) → HasSent w self.old.router → HasSent w self.new.router }
        ensures idle { self.new.router.pending ≡ None }
        ensures marked { self.new.router.marked ≡ lane_count self.new.router }
        ensures goes_on { GoesOn self.old self.new }
    {
        for _ in rt.forever() {
            match self.router.mark_all_step() {
                Progress::Idle => return,
                Progress::Moved => {}
                Progress::Blocked(_) => self.wait(rt, 0),
            }
        }
        unreachable!()
    }

    // Waits at a full lane with the record of this place. Its shard may be waiting for room on its lane back, or others
    // for what they aren't shown.
    #[cold]
    #[inline(never)]
    fn wait<T: Wait + Clock>(&mut self, rt: &T, place: u64)
        ensures shown { ShowsAll self.new.router }
        ensures unchanged { IsUnchanged self.old.router self.new.router }
        ensures goes_on { GoesOn self.old self.new }
    {
        self.router.flush();
        self.gathering.take_from_all();
        self.waiting.wait(rt, place);
    }
}

// What the part has of the record. The whole has the record itself, which takes no division.
#[inline(always)]
fn record_of_part(part: Part, placed: Placed) -> Option<Placed>
    ensures { option_to_list result ≡ records_of part (placed ∷ []) }
{
    if part.count == 1 {
        Some(placed)
    } else {
        part.of_record(placed)
    }
}
