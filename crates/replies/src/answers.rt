//! The answers of the program: what goes to standard output and to standard error, and the exit status.
ghost use Rattle.std.specs.Prelude.{◌≡◌, ℕ, [], List, IfSome, IfNone, IfOk, MatchResult, vec_len};
ghost use Rattle.std.specs.Prelude.{OnOk};
ghost use Rattle.trace.specs.Devices.{Device, ◌⇝◌, HasPassedOn};
ghost use Rattle.trace.specs.Writers.{IsUntouched, TookFront, WasGiven, Puts};
ghost use Rattle.trace.specs.Endings.{EndsReading, IsWantOfMemoryOrThread};
ghost use Rattle.detect.specs.RunReports.{RunAnswersPart};
ghost use Rattle.texts.specs.Messages.{message};
ghost use Rattle.texts.specs.Sinks.{EndsAnswer};
ghost use Rattle.words.specs.Asked.{depth_of};
ghost use Rattle.words.specs.Refusals.{help_of, refusal};
ghost use Rattle.replies.specs.Questions.{Answers, AnswersCheckOf, IsWant};
ghost use Rattle.dag.specs.Bounds.{most_records};
ghost use Rattle.replies.specs.Answered.{IsAnswered};
ghost use Rattle.replies.specs.Clauses.{SaysWhether};

use crate::questions::{answer_explain, answer_measure, answer_pairs};
use collect::write_report;
use dag::MOST_RECORDS;
use detect::{Plan, Run, detect_part};
use shard::Open;
use std::alloc::Global;
use std::hash::{BuildHasherDefault, FoldHasher};
use std::sync::Wait;
use std::thread::Threads;
use std::time::Clock;
use texts::{say, say_fault};
use trace::{Fault, Limits, NoMemory, Sink, Source, WriteFault, put_all};
use words::{CheckWords, Question, WordsFault};

/// Answers a question about a trace alone, and gives the exit status: 0 for no race or for the numbers of a trace, 1
/// for a race, 2 for a fault. For `check` this starts threads and waits for them.
pub fn answer<T: Threads + Wait + Clock + Sync, R: Source, W: Sink, E: Sink>(
    rt: &T,
    alloc: Global,
    question: &Question,
    trace: &mut R,
    out: &mut W,
    err: &mut E,
) -> u8
    ensures { IsAnswered (IsWant question.now) most_records (depth_of question.now) (Answers question.now)
        (R.state trace.old ⇝ R.state trace.new) (W.state out.old ⇝ W.state out.new)
        (E.state err.old ⇝ E.state err.new) result }
{
    match question {
        Question::Check(check) => answer_check(rt, alloc, check, trace, out, err),
        Question::Pairs(pairs) => answer_pairs(alloc, pairs.depth, pairs.location, trace, out, err),
        Question::Explain(explain) => {
            answer_explain(alloc, explain.depth, explain.location, trace, out, err)
        }
        Question::Measure(measure) => answer_measure(alloc, measure.depth, trace, out, err),
    }
}

// The races of a part of a trace's locations, which may be the whole.
fn answer_check<T: Threads + Wait + Clock + Sync, R: Source, W: Sink, E: Sink>(
    rt: &T,
    alloc: Global,
    check: &CheckWords,
    trace: &mut R,
    out: &mut W,
    err: &mut E,
) -> u8
    ensures { IsAnswered IsWantOfMemoryOrThread most_records check.now.depth (AnswersCheckOf check.now.part)
        (R.state trace.old ⇝ R.state trace.new) (W.state out.old ⇝ W.state out.new)
        (E.state err.old ⇝ E.state err.new) result }
{
    match run_on(rt, alloc, check, trace) {
        Ok(ran) => {
            let put = write_report(&ran.report, out);
            finish(put, status_of_found(ran.report.races()), out, err)
        }
        Err(fault) => no_answer(&fault, err),
    }
}

// Detects the races of a part, with a thread for each shard.
fn run_on<T: Threads + Wait + Clock + Sync, R: Source>(
    rt: &T,
    alloc: Global,
    check: &CheckWords,
    trace: &mut R,
) -> Result<Run, Fault>
    ensures { EndsReading IsWantOfMemoryOrThread most_records check.now.depth (R.state trace.old ⇝ R.state trace.new)
        (RunAnswersPart check.now.part check.now.shards) result }
{
    let hashers = hashers_for(alloc, check.shards)?;
    let plan = Plan::new(check.shards, check.capacity, limits_of(check.depth));
    detect_part(rt, alloc, plan, check.part, trace, &Open, hashers)
}

// A hasher for each shard.
fn hashers_for(alloc: Global, shards: u32) -> Result<Vec<BuildHasherDefault<FoldHasher>>, NoMemory>
    ensures { IfOk result (λ hashers. vec_len hashers ≡ shards) }
{
    let mut hashers = Vec::new(alloc);
    for _ in 0..shards {
        hashers.push(BuildHasherDefault::default())?;
    }
    Ok(hashers)
}

/// The limits of every trace that the program reads.
pub fn limits_of(depth: u32) -> Limits
    ensures records { result.records ≡ most_records }
    ensures depth { result.depth ≡ depth }
{
    Limits {
        records: MOST_RECORDS,
        depth,
    }
}

// The exit status of the races found: 0 if there is none.
pub(crate) fn status_of_found<X>(found: &[X]) -> u8
    ensures { SaysWhether result (found.now ≡ []) }
{
    if found.is_empty() { 0 } else { 1 }
}

// Says why there is no answer, and gives the exit status.
pub(crate) fn no_answer<E: Sink>(fault: &Fault, err: &mut E) -> u8
    ensures two { result ≡ 2 }
    ensures said { WasGiven (message fault.now) (E.state err.old ⇝ E.state err.new) }
{
    say_fault(fault, err);
    2
}

// Ends an answer in `out`: passes it on, and gives its status, or 2 if writing it failed.
pub(crate) fn finish<W: Sink, E: Sink>(
    put: Result<(), WriteFault>,
    status: u8,
    out: &mut W,
    err: &mut E,
) -> u8
    ensures { (text : List ℕ) (before : Device) → Puts put text (before ⇝ W.state out.old)
        → EndsAnswer result status text (before ⇝ W.state out.new) (E.state err.old ⇝ E.state err.new) }
{
    match passed_on(put, out) {
        Ok(()) => status,
        Err(WriteFault) => {
            say(b"spbags: cannot write\n", err);
            2
        }
    }
}

fn passed_on<W: Sink>(put: Result<(), WriteFault>, out: &mut W) -> Result<(), WriteFault>
    ensures puts { (text : List ℕ) (before : Device) → Puts put text (before ⇝ W.state out.old)
        → Puts result text (before ⇝ W.state out.new) }
    ensures passed { OnOk result (HasPassedOn (W.state out.new)) }
{
    put?;
    flush(out)
}

fn flush<W: Sink>(out: &mut W) -> Result<(), WriteFault>
    ensures took { MatchResult result (λ _. IsUntouched (W.state out.old ⇝ W.state out.new))
        (λ _. TookFront [] (W.state out.old ⇝ W.state out.new)) }
    ensures passed { OnOk result (HasPassedOn (W.state out.new)) }
{
    out.flush()?;
    Ok(())
}

/// Answers words that ask for nothing that the program can answer, and gives the exit status: 0 if they ask for help
/// and get it, otherwise 2.
pub fn refuse<W: Sink, E: Sink>(fault: &WordsFault, out: &mut W, err: &mut E) -> u8
    ensures refused { IfNone (help_of fault.now) ((result ≡ 2) × IsUntouched (W.state out.old ⇝ W.state out.new)
        × WasGiven (refusal fault.now) (E.state err.old ⇝ E.state err.new)) }
    ensures helped { IfSome (help_of fault.now)
        (λ text. EndsAnswer result 0 text (W.state out.old ⇝ W.state out.new) (E.state err.old ⇝ E.state err.new)) }
{
    match fault {
        WordsFault::Bad => {
            say(b"spbags: bad command line\n", err);
            2
        }
        WordsFault::Help(text) => {
            let put = put_all(out, text.as_bytes());
            finish(put, 0, out, err)
        }
        WordsFault::NoMemory => no_answer(&Fault::NoMemory, err),
    }
}
