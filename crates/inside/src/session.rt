//! A session: it takes records, and then gives the text of their report.
ghost use Rattle.std.specs.Prelude.{◌≡◌, ◌≢◌, ℕ, ◌<◌, List, [], map, IfOk, IfSome};
ghost use Rattle.dag.specs.declared.records.Record.{Record};
ghost use Rattle.online.specs.Online.{IsAfter};
ghost use Rattle.inside.specs.declared.session.Session.{Session};
ghost use Rattle.inside.specs.Naming.{named_with};
ghost use Rattle.inside.specs.Statuses.{answered_status};
ghost use Rattle.online.specs.Lives.{first_lives};
ghost use Rattle.inside.specs.Sessions.{unpacked, no_memory, IsNamed, HasTaken, report_text, IsTextOfLives};
ghost use Rattle.inside.specs.Sessions.{HasStepped, HaveStepped, HasTakenBlock, HasForgotten, HasCounted};
ghost use Rattle.inside.specs.Sessions.{HasReported, HasNext};

use crate::text::Text;
use collect::write_report;
use online::Refusal;
use std::alloc::Global;
use std::hash::{BuildHasherDefault, FoldHasher};
use trace::{NoMemory, Record};

const TAKEN: u8 = 0;

const AFTER_END: u8 = 1;

const TOO_MANY: u8 = 2;

const NO_MEMORY: u8 = 3;

const UNKNOWN_KIND: u8 = 4;

const GIVEN: u8 = 5;

// It is below 8, and no record has this kind.
const NO_KIND: u8 = 7;

const AT_END: u16 = 256;

const NO_TEXT: u16 = 257;

type Detector = online::Detector<BuildHasherDefault<FoldHasher>>;

/// What lies at a handle.
#[derive(Drop)]
pub enum Session {
    /// It takes records.
    Taking(Detector, Global),
    /// It gives a text, and has given this many of its bytes.
    Giving(Vec<u8>, usize),
    /// A growth was refused.
    Stopped,
}

impl Session {
    /// A session that has taken no record, or has stopped.
    pub(crate) fn new(alloc: Global) -> Session
        ensures { result ≢ Session.Stopped → HasTaken [] first_lives result }
    {
        match Detector::new(
            alloc,
            BuildHasherDefault::default(),
            BuildHasherDefault::default(),
        ) {
            Ok(detector) => Session::Taking(detector, alloc),
            Err(NoMemory) => Session::Stopped,
        }
    }

    /// Takes the record of this kind. The location is that of a read or a write.
    pub(crate) fn step(&mut self, kind: u8, location: u64) -> u8
        ensures { HasStepped self.old kind location self.new result }
    {
        self.run(location, &[kind.min(NO_KIND) as u64])
    }

    /// Takes the records in turn, up to the first that it can't take, whose status it answers. A record is eight times
    /// its location, plus its kind.
    pub(crate) fn steps(&mut self, records: &[u64]) -> u8
        ensures { HaveStepped self.old (map unpacked records.now) self.new result }
    {
        self.run(0, records)
    }

    // All locations have these bits besides their own. One loop for both, since the compiler puts all of a step into it
    // only if nothing else calls `take`.
    #[inline(never)]
    fn run(&mut self, bits: u64, records: &[u64]) -> u8
        ensures { HaveStepped self.old (map (named_with bits) records.now) self.new result }
    {
        for record in records {
            let status = self.take((*record % 8) as u8, bits | *record / 8);
            if status != TAKEN {
                return status;
            }
        }
        TAKEN
    }

    fn take(&mut self, kind: u8, location: u64) -> u8
        ensures { HasStepped self.old kind location self.new result }
    {
        match self {
            Session::Taking(detector, _) => match record_of(kind, location) {
                None => UNKNOWN_KIND,
                Some(what) => {
                    let answer = detector.take(what);
                    self.settle(answer)
                }
            },
            Session::Giving(..) => GIVEN,
            Session::Stopped => NO_MEMORY,
        }
    }

    /// Takes accesses to units of the even location's block: the reads of these units, and then the writes, each by
    /// ascending locations.
    pub(crate) fn block(&mut self, location: u64, reads: u64, writes: u64) -> u8
        ensures { HasTakenBlock self.old location reads writes self.new result }
    {
        match self {
            Session::Taking(detector, _) => {
                let answer = detector.take_block(location, reads, writes);
                self.settle(answer)
            }
            Session::Giving(..) => GIVEN,
            Session::Stopped => NO_MEMORY,
        }
    }

    /// Begins a new life for these units of the location's block.
    pub(crate) fn forget(&mut self, location: u64, units: u64) -> u8
        ensures { HasForgotten self.old location units self.new result }
    {
        match self {
            Session::Taking(detector, _) => {
                detector.forget(location, units);
                TAKEN
            }
            Session::Giving(..) => GIVEN,
            Session::Stopped => NO_MEMORY,
        }
    }

    /// How many locations have raced in any of their lives.
    pub(crate) fn race_count(&self) -> usize
        ensures { HasCounted self.now result }
    {
        match self {
            Session::Taking(detector, _) => detector.race_count(),
            _ => 0,
        }
    }

    // The status of what the detector answers. After a refused growth the session is stopped.
    #[inline(always)]
    fn settle(&mut self, answer: Result<(), Refusal>) -> u8
        ensures status { result ≡ answered_status answer }
        ensures unchanged { result ≢ no_memory → self.new ≡ self.old }
        ensures stops { result ≡ no_memory → self.new ≡ Session.Stopped }
    {
        match answer {
            Ok(()) => TAKEN,
            Err(Refusal::AfterEnd) => AFTER_END,
            Err(Refusal::TooMany) => TOO_MANY,
            Err(Refusal::NoMemory) => self.stop(),
        }
    }

    // A function of its own, since a step would pay at each record for the room of a session.
    #[cold]
    #[inline(never)]
    fn stop(&mut self) -> u8
        ensures { (result ≡ no_memory) × (self.new ≡ Session.Stopped) }
    {
        *self = Session::Stopped;
        NO_MEMORY
    }

    /// Makes the text of the report of what was taken. From then on the session gives it.
    pub(crate) fn report(&mut self) -> u8
        ensures { HasReported self.old self.new result }
    {
        match std::mem::replace(self, Session::Stopped) {
            Session::Taking(detector, alloc) => match text_of(detector, alloc) {
                Ok(text) => {
                    *self = Session::Giving(text, 0);
                    TAKEN
                }
                Err(NoMemory) => NO_MEMORY,
            },
            Session::Giving(text, count) => {
                *self = Session::Giving(text, count);
                GIVEN
            }
            _ => NO_MEMORY,
        }
    }

    /// The next byte of the text.
    pub(crate) fn next(&mut self) -> u16
        ensures { HasNext self.old self.new result }
    {
        match self {
            Session::Giving(text, count) => {
                if *count >= text.len() {
                    return AT_END;
                }
                let byte = text[*count];
                *count += 1;
                byte as u16
            }
            _ => NO_TEXT,
        }
    }

    /// Frees what it has.
    pub(crate) fn close(self) {}
}

fn record_of(kind: u8, location: u64) -> Option<Record>
    ensures named { IfSome result (λ r. (what : Record) → IsNamed kind location what → what ≡ r) }
    ensures known { IfSome result (λ _. kind < 6) }
    ensures unknown { result ≡ None → 5 < kind }
{
    match kind {
        0 => Some(Record::Spawn),
        1 => Some(Record::Call),
        2 => Some(Record::Return),
        3 => Some(Record::Sync),
        4 => Some(Record::Read(location)),
        5 => Some(Record::Write(location)),
        _ => None,
    }
}

fn text_of(detector: Detector, alloc: Global) -> Result<Vec<u8>, NoMemory>
    ensures text { IfOk result (λ text. (u : List Record) (lives : ℕ → ℕ) → IsAfter u lives detector
        → IsTextOfLives u text.items) }
    ensures first { IfOk result (λ text. (u : List Record) → IsAfter u first_lives detector
        → text.items ≡ report_text u) }
{
    let report = detector.finish()?;
    let mut text = Text {
        bytes: Vec::new(alloc),
        failed: 0,
    };
    match write_report(&report, &mut text) {
        Ok(()) => {
            let Text { bytes, failed: _ } = text;
            Ok(bytes)
        }
        Err(_) => Err(NoMemory),
    }
}
