//! All races of one location: each access is compared with those before it.
ghost use Rattle.std.specs.Prelude.{◌≡◌, ◌≢◌, [], length, ◌||◌, OnOk, MatchOption};
ghost use Rattle.dag.specs.declared.records.Kind.{Kind};
ghost use Rattle.dag.specs.Accesses.{writes};
ghost use Rattle.dag.specs.Races.{access};
ghost use Rattle.audit.specs.Pairing.{AddsPairs};
ghost use Rattle.trace.specs.Devices.{◌⇝◌};
ghost use Rattle.trace.specs.Endings.{EndsReading, IsWantOfMemory};
ghost use Rattle.audit.specs.Pairs.{ArePairs};

use crate::meetings::Meetings;
use std::alloc::Global;
use trace::{Access, Fault, Kind, Limits, NoMemory, Placed, Record, Source, Watch, read_to_end};

/// An access to the location, and the depth of the procedure that executes it.
#[derive(Clone, Copy)]
pub(crate) struct KeptAccess {
    pub(crate) access: Access,
    pub(crate) depth: usize,
}

/// The accesses to a location so far, and its races.
#[derive(Drop)]
pub(crate) struct Pairing {
    pub(crate) location: u64,
    pub(crate) meetings: Meetings,
    pub(crate) kept: Vec<KeptAccess>,
    pub(crate) pairs: Vec<(Access, Access)>,
}

impl Pairing {
    ghost use Rattle.audit.specs.Pairing.{HasPaired};

    /// The state before the first record.
    pub(crate) fn new(alloc: Global, location: u64) -> Pairing
        ensures { HasPaired location [] result }
    {
        Pairing {
            location,
            meetings: Meetings::new(alloc),
            kept: Vec::new(alloc),
            pairs: Vec::new(alloc),
        }
    }
}

impl Watch for Pairing {
    ghost use Rattle.audit.specs.Pairing.{HasPaired};

    ghost has_seen = { λ first u now. HasPaired first.location u now };

    fn see(&mut self, placed: Placed) -> Result<(), NoMemory> {
        if let Some(access) = access_of(placed, self.location) {
            add_pairs(&self.meetings, &self.kept, access, &mut self.pairs)?;
            let depth = self.meetings.depth();
            self.kept.push(KeptAccess { access, depth })?;
        }
        self.meetings.see(placed)
    }
}

/// Adds the races of an access with the earlier accesses.
fn add_pairs(
    meetings: &Meetings,
    kept: &[KeptAccess],
    second: Access,
    pairs: &mut Vec<(Access, Access)>,
) -> Result<(), NoMemory>
    ensures { OnOk result (AddsPairs meetings.now kept.now second (length kept.now) pairs.old.items pairs.new.items) }
{
    for first in kept {
        if one_writes(first.access.kind, second.kind)
            && meetings.is_parallel(first.access.place, first.depth)
        {
            pairs.push((first.access, second))?;
        }
    }
    Ok(())
}

/// The access to a location, if the record is one.
pub(crate) fn access_of(placed: Placed, location: u64) -> Option<Access>
    ensures { MatchOption result ((k : Kind) → placed.what ≢ access k location) (λ a. (a.place ≡ placed.place)
        × (placed.what ≡ access a.kind location)) }
{
    let place = placed.place;
    match placed.what {
        Record::Read(read) if read == location => Some(Access {
            kind: Kind::Read,
            place,
        }),
        Record::Write(written) if written == location => Some(Access {
            kind: Kind::Write,
            place,
        }),
        _ => None,
    }
}

/// Whether one of two accesses writes.
fn one_writes(first: Kind, second: Kind) -> bool
    ensures { result ≡ (writes first || writes second) }
{
    match (first, second) {
        (Kind::Read, Kind::Read) => false,
        (Kind::Write, _) | (Kind::Read, Kind::Write) => true,
    }
}

/// Reads a trace to its end, and lists all races of a location, sorted by their second places and then by their
/// first.
///
/// A fault is the whole answer. It keeps three numbers for each active procedure, two numbers for each turn that
/// these took from spawned children to called ones or back, and the accesses to the location with their depths. It
/// compares each access to the location with all earlier ones, by one search among the active procedures and one
/// among the turns. Any other record costs the same wherever it stands.
///
/// ```rust
/// let text: &[u8] = b"trace 1\nread 9\nspawn\nread 9\nreturn\nwrite 9\nreturn\n";
/// let (records, depth) = (1 << 48, 9);
/// let limits = Limits { records, depth };
/// let found = pairs(rt.alloc(), limits, &mut Counted::new(text), 9)?;
/// assert_eq!(rt; found.len(), 1);
/// let (first, second) = found[0];
/// assert_eq!(rt; (first.place, second.place), (3, 5));
/// ```
pub fn pairs<R: Source>(
    alloc: Global,
    limits: Limits,
    source: &mut R,
    location: u64,
) -> Result<Vec<(Access, Access)>, Fault>
    // All bytes of the source are the text of a trace that is well nested within the limits, and these are the races.
    // Otherwise no memory was left, or the fault is the first. If the source holds such a trace and doesn't fail, no
    // memory was left.
    ensures { EndsReading IsWantOfMemory limits.records limits.depth (R.state source.old ⇝ R.state source.new)
        (λ ps w. ArePairs w location ps.items) result }
{
    let mut pairing = Pairing::new(alloc, location);
    read_to_end(limits, source, &mut pairing)?;
    let Pairing {
        location: _,
        meetings: _,
        kept: _,
        pairs,
    } = pairing;
    Ok(pairs)
}
