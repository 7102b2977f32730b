//! The lines for standard error.
ghost use Rattle.std.specs.Prelude.{◌≡◌, ◌++◌, ◌≤◌, length, codes, decimal};
ghost use Rattle.trace.specs.Devices.{◌⇝◌};
ghost use Rattle.trace.specs.Writers.{Puts, WasGiven};
ghost use Rattle.texts.specs.Messages.{message, report_message, merge_message, text_ending, nest_ending};

use collect::ReportRefusal;
use trace::{Fault, Line, NestKind, Sink, TextKind, WriteFault, put_all};

/// Writes the line for a fault. If that fails, there is nowhere left to report it.
pub fn say_fault<E: Sink>(fault: &Fault, err: &mut E)
    ensures { WasGiven (message fault.now) (E.state err.old ⇝ E.state err.new) }
{
    match fault {
        Fault::Text(text) => say_at(b"spbags: line ", text.line, text_words(text.kind), err),
        Fault::Nest(nest) => say_at(b"spbags: place ", nest.place, nest_words(nest.kind), err),
        Fault::Read => say(b"spbags: cannot read\n", err),
        Fault::NoMemory => say(b"spbags: out of memory\n", err),
        Fault::NoThread => say(b"spbags: no thread\n", err),
    }
}

/// Writes a line. If that fails, there is nowhere left to report it.
pub fn say<E: Sink>(line: &[u8], err: &mut E)
    ensures { WasGiven line.now (E.state err.old ⇝ E.state err.new) }
{
    let _ = put_all(err, line);
}

/// Writes the line for a report that is refused. If that fails, there is nowhere left to report it.
pub fn say_refusal<E: Sink>(refusal: ReportRefusal, err: &mut E)
    ensures { WasGiven (report_message refusal) (E.state err.old ⇝ E.state err.new) }
{
    match refusal {
        ReportRefusal::Read => say(b"spbags: cannot read\n", err),
        ReportRefusal::TooLarge => say(b"spbags: report too large\n", err),
        ReportRefusal::Bad { line } => say_at(b"spbags: report line ", line, b": bad\n", err),
        ReportRefusal::NoMemory => say(b"spbags: out of memory\n", err),
    }
}

/// Writes the line for one refused report of many; the first is report 1. If that fails, there is nowhere left to
/// report it.
pub fn say_merge_refusal<E: Sink>(number: u64, refusal: ReportRefusal, err: &mut E)
    ensures { WasGiven (merge_message number refusal) (E.state err.old ⇝ E.state err.new) }
{
    match refusal {
        ReportRefusal::Bad { line } => say_bad_line(number, line, err),
        other => say_refusal(other, err),
    }
}

// Writes the line for a faulty line of one of many reports.
fn say_bad_line<E: Sink>(number: u64, line: u64, err: &mut E)
    ensures { WasGiven (codes "spbags: report " ++ decimal number ++ codes " line " ++ decimal line ++ codes ": bad\n")
        (E.state err.old ⇝ E.state err.new) }
{
    let ending = line_of(b" line ", line, b": bad\n");
    say_at(b"spbags: report ", number, ending.as_bytes(), err);
}

// Writes a line with a number in it.
fn say_at<E: Sink>(head: &[u8], number: u64, ending: &[u8], err: &mut E)
    requires head { length head.now ≤ 20 }
    requires ending { length ending.now ≤ 32 }
    ensures { WasGiven (head.now ++ decimal number ++ ending.now) (E.state err.old ⇝ E.state err.new) }
{
    let _ = put_at(head, number, ending, err);
}

/// Puts a number between two texts into a sink.
pub fn put_at<W: Sink>(
    head: &[u8],
    number: u64,
    ending: &[u8],
    sink: &mut W,
) -> Result<(), WriteFault>
    requires head { length head.now ≤ 20 }
    requires ending { length ending.now ≤ 32 }
    ensures { Puts result (head.now ++ decimal number ++ ending.now) (W.state sink.old ⇝ W.state sink.new) }
{
    let line = line_of(head, number, ending);
    put_all(sink, line.as_bytes())
}

// A number between two texts.
fn line_of(head: &[u8], number: u64, ending: &[u8]) -> Line
    requires head { length head.now ≤ 20 }
    requires ending { length ending.now ≤ 32 }
    ensures { result ≡ head.now ++ decimal number ++ ending.now }
{
    let mut line = Line::new();
    line.word(ending);
    line.number(number);
    line.word(head);
    line
}

fn text_words(kind: TextKind) -> &'static [u8]
    ensures ending { result.now ≡ text_ending kind }
    ensures short { length result.now ≤ 19 }
{
    match kind {
        TextKind::Header => b": header\n",
        TextKind::Line => b": bad line\n",
        TextKind::TooMany => b": too many records\n",
        TextKind::Truncated => b": truncated\n",
    }
}

fn nest_words(kind: NestKind) -> &'static [u8]
    ensures ending { result.now ≡ nest_ending kind }
    ensures short { length result.now ≤ 19 }
{
    match kind {
        NestKind::AfterEnd => b": after end\n",
        NestKind::TooDeep => b": too deep\n",
        NestKind::Unfinished => b": unfinished\n",
    }
}
