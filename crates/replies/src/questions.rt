//! The answers to `pairs`, `explain` and `measure`.
ghost use Rattle.std.specs.Prelude.{◌≡◌, None};
ghost use Rattle.trace.specs.Devices.{◌⇝◌};
ghost use Rattle.replies.specs.Questions.{AnswersPairs, AnswersExplain, AnswersMeasure};
ghost use Rattle.replies.specs.Clauses.{AnswersAlone, SaysWhether};

use crate::answers::{finish, limits_of, no_answer, status_of_found};
use audit::{Explained, explain, measure, pairs};
use std::alloc::Global;
use texts::{put_explained, put_measure, put_pairs};
use trace::{Sink, Source};

// All races of a location, and the exit status: 0 if there is none.
pub(crate) fn answer_pairs<R: Source, W: Sink, E: Sink>(
    alloc: Global,
    depth: u32,
    location: u64,
    trace: &mut R,
    out: &mut W,
    err: &mut E,
) -> u8
    ensures { AnswersAlone depth (AnswersPairs location) (R.state trace.old ⇝ R.state trace.new)
        (W.state out.old ⇝ W.state out.new) (E.state err.old ⇝ E.state err.new) result }
{
    match pairs(alloc, limits_of(depth), trace, location) {
        Ok(pairs) => {
            let found = pairs.as_slice();
            let put = put_pairs(found, out);
            finish(put, status_of_found(found), out, err)
        }
        Err(fault) => no_answer(&fault, err),
    }
}

// Why a location is racy, and the exit status: 0 if it isn't.
pub(crate) fn answer_explain<R: Source, W: Sink, E: Sink>(
    alloc: Global,
    depth: u32,
    location: u64,
    trace: &mut R,
    out: &mut W,
    err: &mut E,
) -> u8
    ensures { AnswersAlone depth (AnswersExplain location) (R.state trace.old ⇝ R.state trace.new)
        (W.state out.old ⇝ W.state out.new) (E.state err.old ⇝ E.state err.new) result }
{
    match explain(alloc, limits_of(depth), trace, location) {
        Ok(answer) => {
            let put = put_explained(&answer, out);
            finish(put, status_of_explained(&answer), out, err)
        }
        Err(fault) => no_answer(&fault, err),
    }
}

// The exit status of an explanation: 0 if the location has no race.
fn status_of_explained(answer: &Option<Explained>) -> u8
    ensures { SaysWhether result (answer.now ≡ None) }
{
    match answer {
        None => 0,
        Some(_) => 1,
    }
}

// The numbers of a trace, and the exit status.
pub(crate) fn answer_measure<R: Source, W: Sink, E: Sink>(
    alloc: Global,
    depth: u32,
    trace: &mut R,
    out: &mut W,
    err: &mut E,
) -> u8
    ensures { AnswersAlone depth AnswersMeasure (R.state trace.old ⇝ R.state trace.new)
        (W.state out.old ⇝ W.state out.new) (E.state err.old ⇝ E.state err.new) result }
{
    match measure(alloc, limits_of(depth), trace) {
        Ok(numbers) => {
            let put = put_measure(&numbers, out);
            finish(put, 0, out, err)
        }
        Err(fault) => no_answer(&fault, err),
    }
}
