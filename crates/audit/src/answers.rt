//! The answers to the questions about a trace.
use trace::Race;

/// Numbers of a trace.
#[derive(Clone, Copy, Debug, PartialEq, Eq)]
pub struct Measure {
    /// The number of records.
    pub work: u64,
    /// The greatest number of records on a path of the dag.
    pub span: u64,
    /// The number of spawns.
    pub spawns: u64,
    /// The depth of the deepest place; the root's own places have depth 0.
    pub depth: u32,
}

/// Whether the entries of a report are races of the trace.
#[derive(Clone, Copy, Debug, PartialEq, Eq)]
pub enum Confirm {
    /// All of them are.
    Yes,
    /// This entry isn't a race, and the entries before it are. The first entry is entry 1.
    No { entry: u64 },
}

/// How a record opened a procedure.
#[derive(Clone, Copy, Debug, PartialEq, Eq)]
pub enum Opening {
    Spawn,
    Call,
}

/// A record that opened a procedure, and its place.
#[derive(Clone, Copy, Debug, PartialEq, Eq)]
pub struct Opener {
    /// Whether it was a spawn or a call.
    pub what: Opening,
    /// The place of that record: 1 to 2^48.
    pub place: u64,
}

/// Why the two accesses of a race are parallel: they meet in a procedure, the first lies inside a child that this
/// procedure spawned, and this procedure doesn't sync before the second.
#[derive(Debug, Drop, PartialEq, Eq)]
pub struct Explained {
    /// The race that a report has of the location.
    pub race: Race,
    /// The deepest procedure that holds both accesses, by the place of the record that opened it; 0 for the root.
    pub meeting: u64,
    /// The openers of the procedures below it that hold the first access, the outermost first.
    pub first: Vec<Opener>,
    /// The openers of those that hold the second access; none if the meeting procedure executes that access itself.
    pub second: Vec<Opener>,
    /// The place of the meeting procedure's next sync or return, if there is one: too late for this race.
    pub joined: Option<u64>,
}
