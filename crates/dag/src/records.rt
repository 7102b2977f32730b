//! Records, accesses and races; the versions of a trace's text; and the limits of a trace.
ghost use Rattle.std.specs.Prelude.{◌≤◌};
ghost use Rattle.dag.specs.Bounds.{most_records};

use std::marker::Model;

/// The most records that a trace may have: 2^48.
pub const MOST_RECORDS: u64 = 1 << 48;

/// One event of a serial depth-first run of a fork-join program.
#[derive(Clone, Copy, Debug, PartialEq, Eq)]
pub enum Record {
    /// The executing procedure spawns a child, which executes from the next record on.
    Spawn,
    /// The executing procedure calls another one, which executes from the next record on. The caller goes on after
    /// its return.
    Call,
    /// The executing procedure returns, after the sync that every return implies.
    Return,
    /// The executing procedure waits for the children that it has spawned itself.
    Sync,
    /// A read of a location.
    Read(u64),
    /// A write of a location.
    Write(u64),
}

/// The version of a trace's text. Only version 2 has calls.
#[derive(Clone, Copy, Debug, PartialEq, Eq)]
pub enum Version {
    One,
    Two,
}

/// A record and its place in the trace, counted from 1.
#[derive(Clone, Copy, Debug, PartialEq, Eq)]
pub struct Placed {
    /// How many records come up to this one, with it: 1 to 2^48.
    pub place: u64,
    /// The record.
    pub what: Record,
}

/// Whether an access reads or writes.
#[derive(Clone, Copy, Debug, PartialEq, Eq)]
pub enum Kind {
    Read,
    Write,
}

/// An access to a known location: its kind, and the place of its record.
#[derive(Clone, Copy, Debug, PartialEq, Eq)]
pub struct Access {
    /// Whether it reads or writes.
    pub kind: Kind,
    /// The place of its record: 1 to 2^48.
    pub place: u64,
}

/// Two accesses to one location, at least one of them a write. The first comes before the second, and their places
/// are 1 to 2^48.
#[derive(Clone, Copy, Debug, PartialEq, Eq)]
pub struct Race {
    /// The location of both accesses: 0 to 2^64 - 1.
    pub location: u64,
    /// The access that comes first.
    pub first: Access,
    /// The access at which a detector finds the race.
    pub second: Access,
}

impl Model for Race {
    ghost use Rattle.dag.specs.Accesses.{RaceAt, IsRaceShape};

    ghost Value = { RaceAt };

    ghost view = { λ r. record { location = r.location; first = r.first; second = r.second } };

    ghost invariant = { λ r. IsRaceShape r.first r.second };

    ghost inverse = { λ r. record { location = r.location; first = r.first; second = r.second } };
}

/// The limits of a trace: its maximum number of records, at most 2^48, and the maximum depth of its procedures.
#[derive(Clone, Copy, Debug, PartialEq, Eq)]
pub struct Limits {
    /// The most records that a trace may have: 0 to 2^48.
    pub records: u64,
    /// The greatest depth of a procedure: 0 to 2^32 - 1. The root has depth 0.
    pub depth: u32,
    ghost within: { records ≤ most_records },
}
