//! Whether the entries of a report are races: what is kept of a trace for this, and the answer.
ghost use Rattle.std.specs.Prelude.{◌≡◌, ◌≢◌, ◌<◌, ℕ, suc, List, [], length, map};
ghost use Rattle.std.specs.Prelude.{slice_get, Some, IfSome, IfNone, IfOk};
ghost use Rattle.dag.specs.declared.records.Record.{Record};
ghost use Rattle.dag.specs.Accesses.{IsRaceShape};
ghost use Rattle.dag.specs.Races.{IsAccess};
ghost use Rattle.audit.specs.Following.{WhateverComes};
ghost use Rattle.audit.specs.Meetings.{HasMet};
ghost use Rattle.audit.specs.Entries.{AreAscending, HasStanding, AnswersBy, entry_of, entry_race};
ghost use Rattle.trace.specs.Devices.{◌⇝◌};
ghost use Rattle.trace.specs.Endings.{EndsReading, IsWantOfMemory};
ghost use Rattle.audit.specs.Confirms.{Confirms};

use crate::answers::Confirm;
use crate::meetings::Meetings;
use collect::Report;
use std::alloc::Global;
use trace::{
    Access, Fault, Kind, Limits, NoMemory, Placed, Race, Record, Source, Watch, read_to_end,
};

/// How far the records so far show an entry to be a race.
#[derive(Clone, Copy)]
pub(crate) enum Standing {
    /// Its first access hasn't come.
    Missing,
    /// Its first access has come, at this depth.
    Begun(usize),
    /// It is a race.
    Confirmed,
}

/// An entry of a report: its race, and how far the records show it.
#[derive(Clone, Copy)]
pub(crate) struct Entry {
    pub(crate) location: u64,
    pub(crate) first: Access,
    pub(crate) second: Access,
    pub(crate) standing: Standing,
}

/// The entries of a report, by ascending location, and the active procedures.
#[derive(Drop)]
pub(crate) struct Confirming {
    pub(crate) entries: Vec<Entry>,
    pub(crate) meetings: Meetings,
}

impl Confirming {
    ghost use Rattle.audit.specs.Entries.{HasConfirmed, SeesEntries, entry_races};

    /// The state before the first record.
    pub(crate) fn new(alloc: Global, report: &Report) -> Result<Confirming, NoMemory>
        ensures { IfOk result (HasConfirmed report.now []) }
    {
        Ok(Confirming {
            entries: entries_of(alloc, report.races())?,
            meetings: Meetings::new(alloc),
        })
    }

    /// SeesEntries an access to a location. At most one entry has this location.
    fn see_access(&mut self, location: u64, access: Access)
        ensures entries { SeesEntries self.old.meetings location access self.old.entries.items self.new.entries.items }
        ensures same_races { entry_races self.new.entries.items ≡ entry_races self.old.entries.items }
        ensures meetings { self.new.meetings ≡ self.old.meetings }
    {
        if let Some(index) = find_entry(&self.entries, location) {
            let standing = next_standing(&self.meetings, self.entries[index], access);
            self.entries[index].standing = standing;
        }
    }
}

impl Watch for Confirming {
    ghost use Rattle.audit.specs.Entries.{HasConfirmed, entry_races};

    ghost has_seen = { λ first u now. HasConfirmed (entry_races first.entries.items) u now };

    fn see(&mut self, placed: Placed) -> Result<(), NoMemory> {
        let place = placed.place;
        match placed.what {
            Record::Read(location) => self.see_access(
                location,
                Access {
                    kind: Kind::Read,
                    place,
                },
            ),
            Record::Write(location) => self.see_access(
                location,
                Access {
                    kind: Kind::Write,
                    place,
                },
            ),
            Record::Spawn | Record::Call | Record::Sync | Record::Return => {}
        }
        self.meetings.see(placed)
    }
}

/// The entries of a report, before the first record.
fn entries_of(alloc: Global, races: &[Race]) -> Result<Vec<Entry>, NoMemory>
    ensures { IfOk result (λ entries. entries.items ≡ map entry_of races.now) }
{
    let entries = races.iter().map(|race| Entry {
        location: race.location,
        first: race.first,
        second: race.second,
        standing: Standing::Missing,
    });
    Ok(entries.collect(alloc)?)
}

/// The index of the entry of a location, if there is one.
fn find_entry(entries: &[Entry], location: u64) -> Option<usize>
    ensures within { IfSome result (λ k. k < length entries.now) }
    ensures found { IfSome result (λ k. (e : Entry) → slice_get entries.now k ≡ Some e → e.location ≡ location) }
    ensures nowhere { AreAscending entries.now
        → IfNone result ((k : ℕ) (e : Entry) → slice_get entries.now k ≡ Some e → e.location ≢ location) }
{
    let index = entries.partition_point(|entry| entry.location < location);
    if index < entries.len() && entries[index].location == location {
        Some(index)
    } else {
        None
    }
}

/// How far the records show an entry, after an access of its location.
fn next_standing(meetings: &Meetings, entry: Entry, access: Access) -> Standing
    ensures { (u : List Record) → HasMet meetings.now u → IsRaceShape entry.first entry.second
        → access.place ≡ suc (length u)
        → WhateverComes u (λ w. IsAccess w entry.location access.place access.kind → HasStanding w (length u)
        (entry_race entry) entry.standing → HasStanding w (suc (length u)) (entry_race entry) result) }
{
    match entry.standing {
        Standing::Missing if access == entry.first => Standing::Begun(meetings.depth()),
        Standing::Begun(depth)
            if access == entry.second && meetings.is_parallel(entry.first.place, depth) => {
            Standing::Confirmed
        }
        standing => standing,
    }
}

/// Yes if all entries are confirmed, otherwise the first one that isn't.
pub(crate) fn answer_of(entries: &[Entry]) -> Confirm
    ensures { AnswersBy entries.now result }
{
    for (index, entry) in entries.iter().enumerate() {
        match entry.standing {
            Standing::Confirmed => {}
            Standing::Missing | Standing::Begun(_) => {
                return Confirm::No {
                    entry: index as u64 + 1,
                };
            }
        }
    }
    Confirm::Yes
}

/// Reads a trace to its end, and says whether every entry of a report is a race of it: whether its two places are
/// parallel accesses to the location, of the kinds that the entry says. It doesn't ask whether the report lacks
/// entries, or whether another pair of the location comes earlier.
///
/// A fault is the whole answer. It keeps three numbers for each active procedure, two numbers for each turn that
/// these took from spawned children to called ones or back, and a few numbers for each entry. An access costs a
/// search among the entries. The second access of an entry also costs one search among the active procedures and one
/// among the turns. Any other record costs the same wherever it stands.
///
/// ```rust
/// let text: &[u8] = b"trace 1\nspawn\nwrite 5\nreturn\nwrite 5\nreturn\n";
/// let report = read_report(rt.alloc(), b"races 1\nrace 5 write 2 write 9\n")?;
/// let (records, depth) = (1 << 48, 9);
/// let limits = Limits { records, depth };
/// let answer = confirm(rt.alloc(), limits, &mut Counted::new(text), &report)?;
/// assert_eq!(rt; answer, Confirm::No { entry: 1 });
/// ```
pub fn confirm<R: Source>(
    alloc: Global,
    limits: Limits,
    source: &mut R,
    report: &Report,
) -> Result<Confirm, Fault>
    // All bytes of the source are the text of a trace that is well nested within the limits. The answer is yes if all
    // entries are races of it, otherwise the first entry that isn't.
    // Otherwise no memory was left, or the fault is the first. If the source holds such a trace and doesn't fail, no
    // memory was left.
    ensures { EndsReading IsWantOfMemory limits.records limits.depth (R.state source.old ⇝ R.state source.new)
        (λ answer w. Confirms w report.now answer) result }
{
    let mut confirming = Confirming::new(alloc, report)?;
    read_to_end(limits, source, &mut confirming)?;
    Ok(answer_of(&confirming.entries))
}
