//! The texts of the answers, put into a sink. A report writes the text of `check` itself; `explanations` has that of
//! `explain`.
ghost use Rattle.std.specs.Prelude.{◌≤◌, ◌++◌, length};
ghost use Rattle.trace.specs.Devices.{◌⇝◌};
ghost use Rattle.trace.specs.Writers.{Puts};
ghost use Rattle.collect.specs.ReportText.{access_text};
ghost use Rattle.texts.specs.Texts.{pair_line, pairs_text, measure_text, confirm_text};

use crate::messages::put_at;
use audit::{Confirm, Measure};
use trace::{Access, Kind, Sink, WriteFault, put_all};

/// Puts the races of a location into a sink: their number, and a line for each race.
pub fn put_pairs<W: Sink>(pairs: &[(Access, Access)], sink: &mut W) -> Result<(), WriteFault>
    ensures { Puts result (pairs_text pairs.now) (W.state sink.old ⇝ W.state sink.new) }
{
    put_at(b"pairs ", pairs.len() as u64, b"\n", sink)?;
    for pair in pairs {
        put_pair(pair, sink)?;
    }
    Ok(())
}

fn put_pair<W: Sink>(pair: &(Access, Access), sink: &mut W) -> Result<(), WriteFault>
    ensures { Puts result (pair_line pair.now) (W.state sink.old ⇝ W.state sink.new) }
{
    put_all(sink, b"pair ")?;
    put_access(pair.0, b" ", sink)?;
    put_access(pair.1, b"\n", sink)
}

// An access, and what follows it in its line.
pub(crate) fn put_access<W: Sink>(
    access: Access,
    ending: &[u8],
    sink: &mut W,
) -> Result<(), WriteFault>
    requires { length ending.now ≤ 19 }
    ensures { Puts result (access_text access ++ ending.now) (W.state sink.old ⇝ W.state sink.new) }
{
    match access.kind {
        Kind::Read => put_at(b"read ", access.place, ending, sink),
        Kind::Write => put_at(b"write ", access.place, ending, sink),
    }
}

/// Puts the numbers of a trace into a sink, a line for each number.
pub fn put_measure<W: Sink>(measure: &Measure, sink: &mut W) -> Result<(), WriteFault>
    ensures { Puts result (measure_text measure.now) (W.state sink.old ⇝ W.state sink.new) }
{
    put_at(b"work ", measure.work, b"\n", sink)?;
    put_at(b"span ", measure.span, b"\n", sink)?;
    put_at(b"spawns ", measure.spawns, b"\n", sink)?;
    put_at(b"depth ", u64::from(measure.depth), b"\n", sink)
}

/// Puts the answer of `confirm` into a sink.
pub fn put_confirm<W: Sink>(answer: Confirm, sink: &mut W) -> Result<(), WriteFault>
    ensures { Puts result (confirm_text answer) (W.state sink.old ⇝ W.state sink.new) }
{
    match answer {
        Confirm::Yes => put_all(sink, b"yes\n"),
        Confirm::No { entry } => put_at(b"no ", entry, b"\n", sink),
    }
}
