//! The writer of a report's text. After a fault the sink has a prefix of the text.
ghost use Rattle.std.specs.Prelude.{◌≡◌, ◌+◌, ◌≤◌, ◌++◌, length};
ghost use Rattle.dag.specs.Bounds.{most_records};
ghost use Rattle.trace.specs.Devices.{◌⇝◌};
ghost use Rattle.trace.specs.Writers.{Puts};
ghost use Rattle.collect.specs.ReportText.{access_text, head, race_line, rtext};

use crate::reports::Report;
use trace::{Access, Kind, Line, Race, Sink, WriteFault, put_all};

/// Writes the text of a report. It takes no memory.
pub fn write_report<W: Sink>(report: &Report, sink: &mut W) -> Result<(), WriteFault>
    ensures { Puts result (rtext report.now) (W.state sink.old ⇝ W.state sink.new) }
{
    let races = report.races();
    write_head(races.len() as u64, sink)?;
    for race in races {
        write_race(race, sink)?;
    }
    Ok(())
}

fn write_head<W: Sink>(count: u64, sink: &mut W) -> Result<(), WriteFault>
    ensures { Puts result (head count) (W.state sink.old ⇝ W.state sink.new) }
{
    let mut first = Line::new();
    first.word(b"\n");
    first.number(count);
    first.word(b"races ");
    put_all(sink, first.as_bytes())
}

fn write_race<W: Sink>(race: &Race, sink: &mut W) -> Result<(), WriteFault>
    ensures { Puts result (race_line race.now) (W.state sink.old ⇝ W.state sink.new) }
{
    let line = line_of(race);
    put_all(sink, line.as_bytes())
}

fn line_of(race: &Race) -> Line
    ensures { result ≡ race_line race.now }
{
    let mut line = Line::new();
    line.word(b"\n");
    add_access(&mut line, race.second);
    line.word(b" ");
    add_access(&mut line, race.first);
    line.word(b" ");
    line.number(race.location);
    line.word(b"race ");
    line
}

// Adds an access in front of a line.
fn add_access(line: &mut Line, access: Access)
    requires place { access.place ≤ most_records }
    requires room { length line.old ≤ 49 }
    ensures text { line.new ≡ access_text access ++ line.old }
    ensures len { length line.new ≤ length line.old + 21 }
{
    line.number(access.place);
    line.word(b" ");
    match access.kind {
        Kind::Read => line.word(b"read"),
        Kind::Write => line.word(b"write"),
    }
}
