//! The writers of a trace's text. After a fault the sink has a prefix of the text.
ghost use Rattle.std.specs.Prelude.{◌≡◌, ◌⊎◌, ◌≤◌, ◌++◌, length, decimal};
ghost use Rattle.trace.specs.Devices.{◌⇝◌};
ghost use Rattle.dag.specs.declared.records.Version.{Version};
ghost use Rattle.trace.specs.Text.{header, number, ended, line};
ghost use Rattle.trace.specs.Writers.{Puts};

use crate::devices::Sink;
use crate::faults::WriteFault;
use crate::line::Line;
use dag::Record;

/// Puts all bytes into the sink, in as many calls as the sink needs.
pub fn put_all<W: Sink>(sink: &mut W, bytes: &[u8]) -> Result<(), WriteFault>
    ensures { Puts result bytes.now (W.state sink.old ⇝ W.state sink.new) }
{
    let mut rest = bytes;
    while !rest.is_empty() {
        let taken = sink.put(rest)?;
        rest = &rest[taken..];
    }
    Ok(())
}

/// Writes the header line of a trace in version 1 or 2.
pub fn write_header<W: Sink>(version: u32, sink: &mut W) -> Result<(), WriteFault>
    requires { (version ≡ 1) ⊎ (version ≡ 2) }
    ensures { (v : Version) → version ≡ number v →
        Puts result (ended (header v)) (W.state sink.old ⇝ W.state sink.new) }
{
    if version == 1 {
        put_all(sink, b"trace 1\n")
    } else {
        put_all(sink, b"trace 2\n")
    }
}

/// Writes the line of a record. Only version 2 has the line of a call.
pub fn write_record<W: Sink>(what: &Record, sink: &mut W) -> Result<(), WriteFault>
    ensures { Puts result (line what.now) (W.state sink.old ⇝ W.state sink.new) }
{
    match what {
        Record::Spawn => put_all(sink, b"spawn\n"),
        Record::Call => put_all(sink, b"call\n"),
        Record::Return => put_all(sink, b"return\n"),
        Record::Sync => put_all(sink, b"sync\n"),
        Record::Read(location) => put_access(sink, b"read ", *location),
        Record::Write(location) => put_access(sink, b"write ", *location),
    }
}

// Puts the line of an access.
fn put_access<W: Sink>(sink: &mut W, word: &[u8], location: u64) -> Result<(), WriteFault>
    requires { length word.now ≤ 6 }
    ensures { Puts result (ended (word.now ++ decimal location)) (W.state sink.old ⇝ W.state sink.new) }
{
    let mut line = Line::new();
    line.word(b"\n");
    line.number(location);
    line.word(word);
    put_all(sink, line.as_bytes())
}
