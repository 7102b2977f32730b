//! Why the reported race of a location is one: the two accesses, with the openers of the procedures that hold them.
ghost use Rattle.std.specs.Prelude.{◌≡◌, ◌≤◌, ◌↔◌, List, [], length, drop, true, false, Some};
ghost use Rattle.std.specs.Prelude.{None, OnOk, IfOk, IfNone, IfSome, MatchOption};
ghost use Rattle.dag.specs.declared.records.Record.{Record};
ghost use Rattle.audit.specs.Explaining.{Follows, Joins, ReportsIt, explanation};
ghost use Rattle.dag.specs.Accesses.{IsRaceShape};
ghost use Rattle.trace.specs.Devices.{◌⇝◌};
ghost use Rattle.trace.specs.Endings.{EndsReading, IsWantOfMemory};
ghost use Rattle.audit.specs.Explanations.{Explains};

use crate::answers::{Explained, Opener, Opening};
use crate::location_races::access_of;
use crate::meetings::Meetings;
use std::alloc::Global;
use trace::{
    Access, Fault, Kind, Limits, NoMemory, Placed, Race, Record, Source, Watch, read_to_end,
};

/// The place of an access, and the openers of the procedures below the root that hold it.
#[derive(Drop)]
pub(crate) struct Trail {
    pub(crate) place: u64,
    pub(crate) openers: Vec<Opener>,
}

/// The race to report, and its meeting procedure: the place of its opener, or 0 for the root, and its depth.
#[derive(Drop)]
pub(crate) struct Reported {
    pub(crate) first: Access,
    pub(crate) second: Access,
    pub(crate) meeting: u64,
    pub(crate) level: usize,
    /// The openers of the procedures below it that hold the accesses.
    pub(crate) first_openers: Vec<Opener>,
    pub(crate) second_openers: Vec<Opener>,
    /// The place of its next sync or return, after that record has come.
    pub(crate) joined: Option<u64>,
}

/// What is kept of a location: until its race is found, its last write and its kept reader, and from then on that
/// race.
#[derive(Drop)]
pub(crate) struct Explaining {
    pub(crate) alloc: Global,
    pub(crate) location: u64,
    pub(crate) meetings: Meetings,
    /// The openers of the active procedures below the root, until the race is found.
    pub(crate) openers: Vec<Opener>,
    pub(crate) last_write: Option<Trail>,
    pub(crate) kept_reader: Option<Trail>,
    pub(crate) reported: Option<Reported>,
}

impl Explaining {
    ghost use Rattle.dag.specs.Races.{IsAccess, IsRace};
    ghost use Rattle.std.specs.Prelude.{ℕ, suc};
    ghost use Rattle.audit.specs.Following.{WhateverComes};
    ghost use Rattle.audit.specs.Meetings.{HasMet};
    ghost use Rattle.audit.specs.Explaining.{HasExplained, HasSought, IsRival, DecidesNow, Keeps, Sees, Seeks};

    /// The state before the first record.
    pub(crate) fn new(alloc: Global, location: u64) -> Explaining
        ensures { HasExplained location [] result }
    {
        Explaining {
            alloc,
            location,
            meetings: Meetings::new(alloc),
            openers: Vec::new(alloc),
            last_write: None,
            kept_reader: None,
            reported: None,
        }
    }

    // Takes the next record, before a race is found.
    fn seek(&mut self, placed: Placed) -> Result<(), NoMemory>
        ensures location { self.new.location ≡ self.old.location }
        ensures meetings { self.new.meetings ≡ self.old.meetings }
        ensures seeks { OnOk result (Seeks self.old placed self.new) }
    {
        match access_of(placed, self.location) {
            Some(access) => self.see_access(access),
            None => follow(&mut self.openers, placed),
        }
    }

    // Sees an access to the location: it completes the race, or it may be kept.
    fn see_access(&mut self, access: Access) -> Result<(), NoMemory>
        ensures location { self.new.location ≡ self.old.location }
        ensures meetings { self.new.meetings ≡ self.old.meetings }
        ensures sees { OnOk result (Sees self.old access self.new) }
    {
        match self.rival(access.kind) {
            Some((kind, first)) => {
                let reported = reported_of(self.alloc, kind, first, access, &self.openers)?;
                self.reported = Some(reported);
                self.openers = Vec::new(self.alloc);
                self.last_write = None;
                self.kept_reader = None;
                Ok(())
            }
            None => self.keep(access),
        }
    }

    // The access that races with one of this kind, if one does: the last write, otherwise the kept reader.
    fn rival(&self, kind: Kind) -> Option<(Kind, &Trail)>
        ensures { (l : ℕ) (u : List Record) → HasMet self.now.meetings u → WhateverComes u (λ w.
            IsAccess w l (suc (length u)) kind → HasSought w l (length u) self.now.last_write self.now.kept_reader
            → MatchOption result ((i : ℕ) → IsRace w l i (suc (length u)) → ⊥)
            (λ r. IsRival w l r.0 r.1.now (record { kind = kind; place = suc (length u) }))) }
    {
        if let Some(write) = self.if_parallel(&self.last_write) {
            return Some((Kind::Write, write));
        }
        match kind {
            Kind::Read => None,
            Kind::Write => {
                let reader = self.if_parallel(&self.kept_reader)?;
                Some((Kind::Read, reader))
            }
        }
    }

    // An access that is kept, if it is parallel to the next place.
    fn if_parallel<'a>(&self, kept: &'a Option<Trail>) -> Option<&'a Trail>
        ensures parallel { IfSome result (λ x. (kept.now ≡ Some x.now) × DecidesNow self.now.meetings true x.now) }
        ensures ordered { IfNone result (IfSome kept.now (DecidesNow self.now.meetings false)) }
    {
        match kept {
            Some(trail) if self.meetings.is_parallel(trail.place, trail.openers.len()) => {
                Some(trail)
            }
            _ => None,
        }
    }

    // Keeps an access that races with no kept one: a write, or a read to which no kept one is parallel.
    fn keep(&mut self, access: Access) -> Result<(), NoMemory>
        ensures rest { self.new ≡ record self.old {
          last_write = self.new.last_write;
          kept_reader = self.new.kept_reader;
        } }
        ensures keeps { OnOk result (Keeps self.old access self.new) }
    {
        match access.kind {
            Kind::Write => self.last_write = Some(self.trail_at(access.place)?),
            Kind::Read if self.if_parallel(&self.kept_reader).is_some() => {}
            Kind::Read => self.kept_reader = Some(self.trail_at(access.place)?),
        }
        Ok(())
    }

    // The trail of the next place.
    fn trail_at(&self, place: u64) -> Result<Trail, NoMemory>
        ensures place { IfOk result (λ x. x.place ≡ place) }
        ensures openers { IfOk result (λ x. x.openers.items ≡ self.now.openers.items) }
    {
        let openers = Vec::from_slice(self.alloc, &self.openers)?;
        Ok(Trail { place, openers })
    }
}

impl Reported {
    ghost use Rattle.audit.specs.Explaining.{NextJoined};

    // Takes a later record, and how deep the procedure lies that executes it.
    fn pass(&mut self, placed: Placed, depth: usize)
        ensures joined { NextJoined placed depth self.old.level self.old.joined self.new.joined }
        ensures rest { self.new ≡ record self.old { joined = self.new.joined } }
    {
        if self.joined.is_none() && depth == self.level && joins(placed.what) {
            self.joined = Some(placed.place);
        }
    }
}

impl Watch for Explaining {
    ghost use Rattle.audit.specs.Explaining.{HasExplained};

    ghost has_seen = { λ first u now. HasExplained first.location u now };

    fn see(&mut self, placed: Placed) -> Result<(), NoMemory> {
        let depth = self.meetings.depth();
        match &mut self.reported {
            Some(reported) => reported.pass(placed, depth),
            None => self.seek(placed)?,
        }
        self.meetings.see(placed)
    }
}

/// Takes a record that opens a procedure or returns from one.
fn follow(openers: &mut Vec<Opener>, placed: Placed) -> Result<(), NoMemory>
    ensures { OnOk result (Follows placed.place placed.what openers.old.items openers.new.items) }
{
    let place = placed.place;
    match placed.what {
        Record::Spawn => openers.push(Opener {
            what: Opening::Spawn,
            place,
        })?,
        Record::Call => openers.push(Opener {
            what: Opening::Call,
            place,
        })?,
        Record::Return => {
            openers.pop();
        }
        Record::Sync | Record::Read(_) | Record::Write(_) => {}
    }
    Ok(())
}

/// Whether a procedure waits for its children at a record of its own.
fn joins(what: Record) -> bool
    ensures { (result ≡ true) ↔ Joins what }
{
    match what {
        Record::Sync | Record::Return => true,
        Record::Spawn | Record::Call | Record::Read(_) | Record::Write(_) => false,
    }
}

/// The race of a kept access with the next one. They meet in the last active procedure that was opened before the
/// first access.
fn reported_of(
    alloc: Global,
    kind: Kind,
    first: &Trail,
    second: Access,
    openers: &[Opener],
) -> Result<Reported, NoMemory>
    ensures { IfOk result (ReportsIt kind first.now second openers.now) }
{
    let level = openers.partition_point(|opener| opener.place < first.place);
    let meeting = match level.checked_sub(1) {
        Some(last) => openers[last].place,
        None => 0,
    };
    Ok(Reported {
        first: Access {
            kind,
            place: first.place,
        },
        second,
        meeting,
        level,
        first_openers: openers_below(alloc, level, &first.openers)?,
        second_openers: openers_below(alloc, level, openers)?,
        joined: None,
    })
}

/// The openers of the procedures below a level.
fn openers_below(alloc: Global, level: usize, openers: &[Opener]) -> Result<Vec<Opener>, NoMemory>
    ensures { IfOk result (λ below. level ≤ length openers.now → below.items ≡ drop level openers.now) }
{
    let level = level.min(openers.len());
    Ok(Vec::from_slice(alloc, &openers[level..])?)
}

/// Reads a trace to its end, and explains the race that the report has of a location, or says that there is none.
///
/// A fault is the whole answer. It keeps three numbers and an opener for each active procedure, two numbers for each
/// turn that these took from spawned children to called ones or back, and at most two accesses to the location, with
/// the openers of the procedures that hold them. After it has found the race it keeps only the openers of this race.
/// Until then an access to the location costs at most two searches among the active procedures and two among the
/// turns, and a copy of the openers if it is kept. Any other record costs the same wherever it stands.
///
/// ```rust
/// let text: &[u8] = b"trace 1\nspawn\nwrite 5\nreturn\nwrite 5\nreturn\n";
/// let (records, depth) = (1 << 48, 9);
/// let limits = Limits { records, depth };
/// let answer = explain(rt.alloc(), limits, &mut Counted::new(text), 5)?;
/// let explained = answer.ok_or("no race")?;
/// assert!(rt; (explained.race.first.place, explained.race.second.place) == (2, 4));
/// assert_eq!(rt; (explained.meeting, explained.joined), (0, Some(5)));
/// let (what, place) = (Opening::Spawn, 1);
/// assert!(rt; explained.first.as_slice() == [Opener { what, place }].as_slice());
/// ```
pub fn explain<R: Source>(
    alloc: Global,
    limits: Limits,
    source: &mut R,
    location: u64,
) -> Result<Option<Explained>, Fault>
    // All bytes of the source are the text of a trace that is well nested within the limits. The answer explains why
    // the reported race of the location is one, or there is none.
    // Otherwise no memory was left, or the fault is the first. If the source holds such a trace and doesn't fail, no
    // memory was left.
    ensures { EndsReading IsWantOfMemory limits.records limits.depth (R.state source.old ⇝ R.state source.new)
        (λ answer w. Explains w location answer) result }
{
    let mut explaining = Explaining::new(alloc, location);
    read_to_end(limits, source, &mut explaining)?;
    Ok(explained(explaining))
}

/// The explanation after all records, if there is a race.
fn explained(explaining: Explaining) -> Option<Explained>
    requires { IfSome explaining.reported (λ d. IsRaceShape d.first d.second) }
    ensures { MatchOption explaining.reported (result ≡ None)
        (λ d. result ≡ Some (explanation explaining.location d)) }
{
    let Explaining {
        alloc: _,
        location,
        meetings: _,
        openers: _,
        last_write: _,
        kept_reader: _,
        reported,
    } = explaining;
    let reported = reported?;
    Some(Explained {
        race: Race {
            location,
            first: reported.first,
            second: reported.second,
        },
        meeting: reported.meeting,
        first: reported.first_openers,
        second: reported.second_openers,
        joined: reported.joined,
    })
}
