//! The text of the answer to `explain`, put into a sink.
ghost use Rattle.std.specs.Prelude.{codes};
ghost use Rattle.trace.specs.Devices.{◌⇝◌};
ghost use Rattle.trace.specs.Writers.{Puts};
ghost use Rattle.collect.specs.ReportText.{race_line};
ghost use Rattle.texts.specs.Texts.{explained_text, reason_text, side_line, opener_text, joined_text};

use crate::audits::put_access;
use crate::messages::put_at;
use audit::{Explained, Opener, Opening};
use trace::{Access, Race, Sink, WriteFault, put_all};

/// Puts into a sink why a location is racy, or that it isn't.
pub fn put_explained<W: Sink>(answer: &Option<Explained>, sink: &mut W) -> Result<(), WriteFault>
    ensures { Puts result (explained_text answer.now) (W.state sink.old ⇝ W.state sink.new) }
{
    match answer {
        Some(explained) => put_reason(explained, sink),
        None => put_all(sink, b"no race\n"),
    }
}

fn put_reason<W: Sink>(explained: &Explained, sink: &mut W) -> Result<(), WriteFault>
    ensures { Puts result (reason_text explained.now) (W.state sink.old ⇝ W.state sink.new) }
{
    put_race(&explained.race, sink)?;
    put_at(b"meet ", explained.meeting, b"\n", sink)?;
    put_first(explained.first.as_slice(), &explained.race, sink)?;
    put_second(explained.second.as_slice(), &explained.race, sink)?;
    put_joined(explained.joined, sink)
}

// A race, as its report has it.
fn put_race<W: Sink>(race: &Race, sink: &mut W) -> Result<(), WriteFault>
    ensures { Puts result (race_line race.now) (W.state sink.old ⇝ W.state sink.new) }
{
    put_at(b"race ", race.location, b" ", sink)?;
    put_access(race.first, b" ", sink)?;
    put_access(race.second, b"\n", sink)
}

// The openers of the procedures that hold a race's first access, and the access.
fn put_first<W: Sink>(openers: &[Opener], race: &Race, sink: &mut W) -> Result<(), WriteFault>
    ensures { Puts result (side_line (codes "first ") openers.now race.now.first)
        (W.state sink.old ⇝ W.state sink.new) }
{
    put_side(b"first ", openers, race.first, sink)
}

// The same of its second access.
fn put_second<W: Sink>(openers: &[Opener], race: &Race, sink: &mut W) -> Result<(), WriteFault>
    ensures { Puts result (side_line (codes "second ") openers.now race.now.second)
        (W.state sink.old ⇝ W.state sink.new) }
{
    put_side(b"second ", openers, race.second, sink)
}

// A word, the openers of the procedures that hold an access, and the access.
fn put_side<W: Sink>(
    word: &[u8],
    openers: &[Opener],
    access: Access,
    sink: &mut W,
) -> Result<(), WriteFault>
    ensures { Puts result (side_line word.now openers.now access) (W.state sink.old ⇝ W.state sink.new) }
{
    put_all(sink, word)?;
    for opener in openers {
        put_opener(*opener, sink)?;
    }
    put_access(access, b"\n", sink)
}

fn put_opener<W: Sink>(opener: Opener, sink: &mut W) -> Result<(), WriteFault>
    ensures { Puts result (opener_text opener) (W.state sink.old ⇝ W.state sink.new) }
{
    match opener.what {
        Opening::Spawn => put_at(b"spawn ", opener.place, b" ", sink),
        Opening::Call => put_at(b"call ", opener.place, b" ", sink),
    }
}

// Where the meeting procedure waits next.
fn put_joined<W: Sink>(joined: Option<u64>, sink: &mut W) -> Result<(), WriteFault>
    ensures { Puts result (joined_text joined) (W.state sink.old ⇝ W.state sink.new) }
{
    match joined {
        Some(place) => put_at(b"joined ", place, b"\n", sink),
        None => put_all(sink, b""),
    }
}
