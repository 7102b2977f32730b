//! The faults of a trace, of the source that it comes from and of the sink that a text goes to.
ghost use Rattle.std.specs.Prelude.{◌≡◌};
ghost use Rattle.trace.specs.declared.faults.Fault.{Fault};
ghost use Rattle.trace.specs.declared.faults.Fault.TheVariants as faults;

use crate::devices::Failed;
use dag::NoMemory;

/// What is wrong with a line of a trace's text.
#[derive(Clone, Copy, Debug, PartialEq, Eq)]
pub enum TextKind {
    /// Line 1 isn't a header.
    Header,
    /// A later line isn't a record.
    Line,
    /// A line is a good record, but its place is above the limit on records.
    TooMany,
    /// The bytes end in the middle of a line, or before the first line.
    Truncated,
}

/// The first faulty line of a trace's text. The first line is line 1.
#[derive(Clone, Copy, Debug, PartialEq, Eq)]
pub struct TextFault {
    /// The number of the line: 1 to 2^48 + 2.
    pub line: u64,
    /// What is wrong with it.
    pub kind: TextKind,
}

/// What is wrong with a record at its place.
#[derive(Clone, Copy, Debug, PartialEq, Eq)]
pub enum NestKind {
    /// A record follows the root's return.
    AfterEnd,
    /// A record opens a procedure deeper than the limit.
    TooDeep,
    /// The records end before the root returns.
    Unfinished,
}

/// The first place at which the records don't nest. The first place is 1.
#[derive(Clone, Copy, Debug, PartialEq, Eq)]
pub struct NestFault {
    /// The place of the record, or the one after the last record: 1 to 2^48 + 1.
    pub place: u64,
    /// What is wrong with it.
    pub kind: NestKind,
}

/// Why there is no answer.
#[derive(Clone, Copy, Debug, PartialEq, Eq)]
pub enum Fault {
    /// The first faulty line.
    Text(TextFault),
    /// The first faulty place.
    Nest(NestFault),
    /// The reader failed.
    Read,
    /// The allocator refused a growth.
    NoMemory,
    /// The system refused to start a thread.
    NoThread,
}

impl From<NoMemory> for Fault {
    ghost from_gives = { λ _ fault. fault ≡ faults.NoMemory };

    fn from(_: NoMemory) -> Fault {
        Fault::NoMemory
    }
}

/// The writer failed, or took no bytes.
#[derive(Clone, Copy, Debug, PartialEq, Eq)]
pub struct WriteFault;

impl From<Failed> for WriteFault {
    fn from(_: Failed) -> WriteFault {
        WriteFault
    }
}
