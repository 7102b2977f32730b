//! The program's replies to its words: what goes to standard output and to standard error, and the exit status.
#![tactic(auto)]

ghost use Rattle.std.specs.Fn.{FnReturnsAt};
ghost use Rattle.trace.specs.Devices.{◌⇝◌};
ghost use Rattle.replies.specs.Files.{HasAnsweredOf, HasConfirmedOf, IsAnsweredOf, IsAnsweredOfFiles};
ghost use Rattle.replies.specs.Inputs.{known_bytes};

mod answers;
mod confirms;
mod input;
mod merges;
mod questions;

use answers::no_answer;
pub use answers::{answer, limits_of, refuse};
pub use confirms::answer_confirm;
pub use input::Input;
use merges::merge_from_files;
use std::fs::File;
use std::io;
use std::io::Read;
use std::sync::Wait;
use std::thread::Threads;
use std::time::Clock;
use trace::{Counted, Fault, Sink};
use words::{Asked, ConfirmWords, Question};

/// Answers the words from the files of the system, and gives the exit status.
pub fn answer_asked<T: Threads + Wait + Clock + Sync, W: Sink, E: Sink>(
    threads: &T,
    rt: &HostRuntime,
    asked: &Asked,
    out: &mut W,
    err: &mut E,
) -> u8
    ensures { IsAnsweredOfFiles asked.now (W.state out.old ⇝ W.state out.new) (E.state err.old ⇝ E.state err.new)
        result }
{
    let opener = |name: &str| File::open(rt, name);
    answer_from_files(threads, rt, asked, &opener, out, err)
}

/// Answers the words from what the names stand for: standard input, or what `opener` gives for this name. It opens
/// the reports of `merge` one after another.
pub fn answer_from_files<T, F, O, W: Sink, E: Sink>(
    threads: &T,
    rt: &HostRuntime,
    asked: &Asked,
    opener: &O,
    out: &mut W,
    err: &mut E,
) -> u8
where
    T: Threads + Wait + Clock + Sync,
    F: Read + Drop,
    O: Fn(&str) -> io::Result<F>,
    requires { O.IsAlwaysCallable opener.now }
    ensures { IsAnsweredOf (FnReturnsAt O.Fn opener.now) (known_bytes F.remaining) asked.now
        (W.state out.old ⇝ W.state out.new) (E.state err.old ⇝ E.state err.new) result }
{
    match asked {
        Asked::Question(question) => question_from_files(threads, rt, question, opener, out, err),
        Asked::Confirm(confirm) => confirm_from_files(rt, confirm, opener, out, err),
        Asked::Merge(merge) => merge_from_files(rt, merge, opener, out, err),
    }
}

// Opens the trace, and answers of it.
fn question_from_files<T, F, O, W: Sink, E: Sink>(
    threads: &T,
    rt: &HostRuntime,
    question: &Question,
    opener: &O,
    out: &mut W,
    err: &mut E,
) -> u8
where
    T: Threads + Wait + Clock + Sync,
    F: Read + Drop,
    O: Fn(&str) -> io::Result<F>,
    requires { O.IsAlwaysCallable opener.now }
    ensures { HasAnsweredOf (FnReturnsAt O.Fn opener.now) (known_bytes F.remaining) question.now
        (W.state out.old ⇝ W.state out.new) (E.state err.old ⇝ E.state err.new) result }
{
    let alloc = rt.alloc();
    let Some(trace) = Input::open(rt, question.trace(), opener) else {
        return no_answer(&Fault::Read, err);
    };
    let mut trace = Counted::new(trace);
    answer(threads, alloc, question, &mut trace, out, err)
}

// Opens the trace and then the report, and answers of both.
fn confirm_from_files<F, O, W: Sink, E: Sink>(
    rt: &HostRuntime,
    confirm: &ConfirmWords,
    opener: &O,
    out: &mut W,
    err: &mut E,
) -> u8
where
    F: Read + Drop,
    O: Fn(&str) -> io::Result<F>,
    requires { O.IsAlwaysCallable opener.now }
    ensures { HasConfirmedOf (FnReturnsAt O.Fn opener.now) (known_bytes F.remaining) confirm.now
        (W.state out.old ⇝ W.state out.new) (E.state err.old ⇝ E.state err.new) result }
{
    let alloc = rt.alloc();
    let Some(trace) = Input::open(rt, confirm.trace.as_str(), opener) else {
        return no_answer(&Fault::Read, err);
    };
    let Some(report) = Input::open(rt, confirm.report.as_str(), opener) else {
        return no_answer(&Fault::Read, err);
    };
    let mut trace = Counted::new(trace);
    let mut report = Counted::new(report);
    answer_confirm(alloc, confirm, &mut trace, &mut report, out, err)
}
