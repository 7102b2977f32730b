//! The answer to `merge`.
ghost use Rattle.std.specs.Prelude.{[], List, MatchResult};
ghost use Rattle.std.specs.Fn.{FnReturnsAt};
ghost use Rattle.dag.specs.Accesses.{RaceAt};
ghost use Rattle.trace.specs.Devices.{◌⇝◌};
ghost use Rattle.collect.specs.Collected.{KeepsBest};
ghost use Rattle.collect.specs.Merged.{backs_of_reports};
ghost use Rattle.replies.specs.Inputs.{known_bytes};
ghost use Rattle.replies.specs.Merges.{HasMergedOf, HasWrittenMerged, IsFirstRefused, IsRefusedReport};
ghost use Rattle.replies.specs.Merging.{HasTakenReport, HaveTaken};

use crate::answers::{finish, no_answer, status_of_found};
use crate::input::Input;
use collect::{Collector, ReportRefusal, report_from, write_report};
use std::io;
use std::io::Read;
use texts::say_merge_refusal;
use trace::{Counted, Fault, NoMemory, Sink};
use words::MergeWords;

/// Why there is no merged report: one of the reports was refused.
#[derive(Clone, Copy, Debug)]
pub(crate) struct Refused {
    /// The number of the refused report; the first is report 1.
    pub(crate) number: u64,
    pub(crate) refusal: ReportRefusal,
}

/// Reads the reports one after another, opens each at its turn, and writes one report of them all.
pub(crate) fn merge_from_files<F, O, W: Sink, E: Sink>(
    rt: &HostRuntime,
    merge: &MergeWords,
    opener: &O,
    out: &mut W,
    err: &mut E,
) -> u8
where
    F: Read + Drop,
    O: Fn(&str) -> io::Result<F>,
    requires { O.IsAlwaysCallable opener.now }
    ensures { HasMergedOf (FnReturnsAt O.Fn opener.now) (known_bytes F.remaining) merge.now
        (W.state out.old ⇝ W.state out.new) (E.state err.old ⇝ E.state err.new) result }
{
    let mut collector = Collector::new(rt.alloc());
    match take_reports(rt, merge.reports.as_slice(), opener, &mut collector) {
        Ok(()) => answer_merged(collector, out, err),
        Err(refused) => {
            say_merge_refusal(refused.number, refused.refusal, err);
            2
        }
    }
}

// Gives a collector the reports that the names stand for, up to the first that is refused.
fn take_reports<F, O>(
    rt: &HostRuntime,
    names: &[String],
    opener: &O,
    collector: &mut Collector,
) -> Result<(), Refused>
where
    F: Read + Drop,
    O: Fn(&str) -> io::Result<F>,
    requires callable { O.IsAlwaysCallable opener.now }
    requires empty { KeepsBest [] collector.old }
    ensures { MatchResult result (λ _. HaveTaken (FnReturnsAt O.Fn opener.now) (known_bytes F.remaining)
        names.now collector.new) (λ refused. IsFirstRefused (FnReturnsAt O.Fn opener.now) (known_bytes F.remaining)
        names.now refused.number refused.refusal) }
{
    let mut number = 0;
    for name in names {
        number += 1;
        if let Err(refusal) = take_report(rt, name.as_str(), opener, collector) {
            return Err(Refused { number, refusal });
        }
    }
    Ok(())
}

// Reads the report that a name stands for, and gives it to a collector.
fn take_report<F, O>(
    rt: &HostRuntime,
    name: &str,
    opener: &O,
    collector: &mut Collector,
) -> Result<(), ReportRefusal>
where
    F: Read + Drop,
    O: Fn(&str) -> io::Result<F>,
    requires { O.IsAlwaysCallable opener.now }
    ensures { MatchResult result (λ _. HasTakenReport (FnReturnsAt O.Fn opener.now) (known_bytes F.remaining)
        name.now collector.old collector.new)
        (IsRefusedReport (FnReturnsAt O.Fn opener.now) (known_bytes F.remaining) name.now) }
{
    let Some(input) = Input::open(rt, name, opener) else {
        return Err(ReportRefusal::Read);
    };
    let mut source = Counted::new(input);
    let report = report_from(rt.alloc(), &mut source)?;
    match collector.take_report(&report) {
        Ok(()) => Ok(()),
        Err(NoMemory) => Err(ReportRefusal::NoMemory),
    }
}

// Writes the report of what a collector was given.
fn answer_merged<W: Sink, E: Sink>(collector: Collector, out: &mut W, err: &mut E) -> u8
    ensures { (reports : List (List RaceAt)) → KeepsBest (backs_of_reports reports) collector
        → HasWrittenMerged reports (W.state out.old ⇝ W.state out.new) (E.state err.old ⇝ E.state err.new) result }
{
    match collector.finish() {
        Ok(report) => {
            let put = write_report(&report, out);
            finish(put, status_of_found(report.races()), out, err)
        }
        Err(NoMemory) => no_answer(&Fault::NoMemory, err),
    }
}
