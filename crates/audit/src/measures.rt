//! The measures of a trace, by the longest paths in each active procedure.
ghost use Rattle.std.specs.Prelude.{◌≡◌, ◌<◌, [], OnOk};
ghost use Rattle.dag.specs.Bounds.{most_records};
ghost use Rattle.trace.specs.Devices.{◌⇝◌};
ghost use Rattle.trace.specs.Endings.{EndsReading, IsWantOfMemory};
ghost use Rattle.audit.specs.Measures.{IsMeasure};

use crate::answers::Measure;
use std::alloc::Global;
use trace::{Fault, Limits, NoMemory, Placed, Record, Source, Watch, read_to_end};

/// The longest paths in an active procedure, by their numbers of records. `own` leads to the last record that the
/// procedure executed itself, to the record that opened it, or to the return of a child that it called, whichever
/// came last. `unjoined` leads to a return of a child that it spawned and hasn't waited for. A number is 0 if there
/// is no such record.
#[derive(Clone, Copy)]
pub(crate) struct Longest {
    pub(crate) own: u64,
    pub(crate) unjoined: u64,
}

impl Longest {
    ghost use Rattle.audit.specs.LongestPaths.{through};

    /// The length of the longest path to the next record of this procedure.
    fn through(self, what: Record) -> u64
        requires own { self.own < most_records }
        requires unjoined { self.unjoined < most_records }
        ensures { result ≡ through self what }
    {
        match what {
            Record::Sync | Record::Return => self.own.max(self.unjoined) + 1,
            Record::Spawn | Record::Call | Record::Read(_) | Record::Write(_) => self.own + 1,
        }
    }
}

/// A procedure that waits for a child to return: its longest paths, and whether it called the child.
#[derive(Clone, Copy)]
pub(crate) struct Suspended {
    pub(crate) longest: Longest,
    pub(crate) calls: bool,
}

impl Suspended {
    ghost use Rattle.audit.specs.LongestPaths.{after_child};

    /// The longest paths after the child's return; the longest path to that return has `length` records.
    fn after_child(self, length: u64) -> Longest
        ensures { result ≡ after_child length self.calls self.longest }
    {
        if self.calls {
            Longest {
                own: length,
                unjoined: self.longest.unjoined,
            }
        } else {
            Longest {
                own: self.longest.own,
                unjoined: self.longest.unjoined.max(length),
            }
        }
    }
}

/// The numbers of the records so far.
#[derive(Drop)]
pub(crate) struct Measuring {
    /// The longest paths of the executing procedure.
    pub(crate) executing: Longest,
    /// The procedures above it, from the root on.
    pub(crate) suspended: Vec<Suspended>,
    pub(crate) work: u64,
    pub(crate) span: u64,
    pub(crate) spawns: u64,
    pub(crate) depth: usize,
}

impl Measuring {
    ghost use Rattle.audit.specs.LongestPaths.{HasMeasured, Advances};

    /// The state before the first record.
    pub(crate) fn new(alloc: Global) -> Measuring
        ensures { HasMeasured result [] }
    {
        Measuring {
            executing: Longest {
                own: 0,
                unjoined: 0,
            },
            suspended: Vec::new(alloc),
            work: 0,
            span: 0,
            spawns: 0,
            depth: 0,
        }
    }

    /// Takes a record; the longest path to it has `length` records.
    fn advance(&mut self, what: Record, length: u64) -> Result<(), NoMemory>
        ensures paths { OnOk result
            (Advances length what self.old.executing self.old.suspended.items self.new.executing
            self.new.suspended.items) }
        ensures work { self.new.work ≡ self.old.work }
        ensures span { self.new.span ≡ self.old.span }
        ensures spawns { self.new.spawns ≡ self.old.spawns }
        ensures depth { self.new.depth ≡ self.old.depth }
    {
        match what {
            Record::Spawn | Record::Call => {
                let parent = Suspended {
                    longest: Longest {
                        own: length,
                        unjoined: self.executing.unjoined,
                    },
                    calls: matches!(what, Record::Call),
                };
                self.suspended.push(parent)?;
                self.executing = Longest {
                    own: length,
                    unjoined: 0,
                };
            }
            Record::Return => {
                if let Some(parent) = self.suspended.pop() {
                    self.executing = parent.after_child(length);
                }
            }
            Record::Sync => {
                self.executing = Longest {
                    own: length,
                    unjoined: 0,
                }
            }
            Record::Read(_) | Record::Write(_) => self.executing.own = length,
        }
        Ok(())
    }
}

impl Watch for Measuring {
    ghost use Rattle.audit.specs.LongestPaths.{HasMeasured};

    ghost has_seen = { λ _ u now. HasMeasured now u };

    fn see(&mut self, placed: Placed) -> Result<(), NoMemory> {
        let length = self.executing.through(placed.what);
        self.work = placed.place;
        self.span = self.span.max(length);
        self.depth = self.depth.max(self.suspended.len());
        if let Record::Spawn = placed.what {
            self.spawns += 1;
        }
        self.advance(placed.what, length)
    }
}

/// Reads a trace to its end and measures it.
///
/// A fault is the whole answer. It keeps two numbers for each active procedure, and whether that waits for a call. So
/// its memory grows with the depth alone, and a record costs the same wherever it stands.
///
/// ```rust
/// let text: &[u8] = b"trace 1\nspawn\nwrite 5\nreturn\nwrite 5\nreturn\n";
/// let (records, depth) = (1 << 48, 9);
/// let limits = Limits { records, depth };
/// let answer = measure(rt.alloc(), limits, &mut Counted::new(text))?;
/// assert!(rt; (answer.work, answer.span, answer.spawns, answer.depth) == (5, 4, 1, 1));
/// ```
pub fn measure<R: Source>(alloc: Global, limits: Limits, source: &mut R) -> Result<Measure, Fault>
    // All bytes of the source are the text of a trace that is well nested within the limits, and these are its
    // numbers.
    // Otherwise no memory was left, or the fault is the first. If the source holds such a trace and doesn't fail, no
    // memory was left.
    ensures { EndsReading IsWantOfMemory limits.records limits.depth (R.state source.old ⇝ R.state source.new)
        (λ m w. IsMeasure w m) result }
{
    let mut measuring = Measuring::new(alloc);
    read_to_end(limits, source, &mut measuring)?;
    Ok(Measure {
        work: measuring.work,
        span: measuring.span,
        spawns: measuring.spawns,
        depth: measuring.depth as u32,
    })
}
