//! The answer to `confirm`.
ghost use Rattle.std.specs.Prelude.{◌≡◌};
ghost use Rattle.trace.specs.Devices.{◌⇝◌};
ghost use Rattle.replies.specs.Questions.{AnswersConfirm, status_of};
ghost use Rattle.dag.specs.Bounds.{most_records};
ghost use Rattle.replies.specs.Answered.{IsConfirmed};
ghost use Rattle.replies.specs.Clauses.{AnswersAlone};

use crate::answers::{finish, limits_of, no_answer};
use audit::{Confirm, confirm};
use collect::{Report, report_from};
use std::alloc::Global;
use texts::{put_confirm, say_refusal};
use trace::{Sink, Source};
use words::ConfirmWords;

/// Answers whether every entry of a report is a race of a trace, and gives the exit status: 0 for yes, 1 for no, 2
/// for a fault. It reads the report first; if the report is faulty, it doesn't read the trace.
pub fn answer_confirm<R: Source, Q: Source, W: Sink, E: Sink>(
    alloc: Global,
    asked: &ConfirmWords,
    trace: &mut R,
    report: &mut Q,
    out: &mut W,
    err: &mut E,
) -> u8
    ensures { IsConfirmed (trace.new ≡ trace.old) most_records asked.now.depth (R.state trace.old ⇝ R.state trace.new)
        (Q.state report.old ⇝ Q.state report.new) (W.state out.old ⇝ W.state out.new)
        (E.state err.old ⇝ E.state err.new) result }
{
    match report_from(alloc, report) {
        Ok(entries) => answer_entries(alloc, asked.depth, &entries, trace, out, err),
        Err(refusal) => {
            say_refusal(refusal, err);
            2
        }
    }
}

// Whether the entries of a report are races, and the exit status.
fn answer_entries<R: Source, W: Sink, E: Sink>(
    alloc: Global,
    depth: u32,
    entries: &Report,
    trace: &mut R,
    out: &mut W,
    err: &mut E,
) -> u8
    ensures { AnswersAlone depth (AnswersConfirm entries.now) (R.state trace.old ⇝ R.state trace.new)
        (W.state out.old ⇝ W.state out.new) (E.state err.old ⇝ E.state err.new) result }
{
    match confirm(alloc, limits_of(depth), trace, entries) {
        Ok(answer) => {
            let put = put_confirm(answer, out);
            finish(put, status_of(answer), out, err)
        }
        Err(fault) => no_answer(&fault, err),
    }
}

fn status_of(answer: Confirm) -> u8
    ensures { result ≡ status_of answer }
{
    match answer {
        Confirm::Yes => 0,
        Confirm::No { entry: _ } => 1,
    }
}
