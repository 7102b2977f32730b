//! Shows the records of a trace, one after another, to a watcher.
ghost use Rattle.std.specs.Prelude.{◌∷◌, ◌++◌, List, [], OnOk};
ghost use Rattle.dag.specs.declared.records.Record.{Record};
ghost use Rattle.trace.specs.Devices.{◌⇝◌};
ghost use Rattle.trace.specs.Endings.{EndsReading, IsWantOfMemory};
ghost use Rattle.trace.specs.Watching.{ComesAfter};

use crate::devices::Source;
use crate::faults::Fault;
use crate::intake::Intake;
use dag::{Limits, NoMemory, Placed};

/// A watcher: what it keeps of the records that it was shown.
pub trait Watch {
    /// It was in the first state, it was shown these records, and it is in the second state now.
    ghost has_seen: { Self → List Record → Self → Type 0 };

    /// Takes the next record. After a refused growth the watcher is of no more use.
    fn see(&mut self, placed: Placed) -> Result<(), NoMemory>
        requires { (first : Self) × (u : List Record) × has_seen first u self.old × ComesAfter u placed }
        ensures { OnOk result ((first : Self) (u : List Record) → has_seen first u self.old → ComesAfter u placed
            → has_seen first (u ++ placed.what ∷ []) self.new) };
}

/// Shows all records of a trace, up to its end, its first fault or a refused growth.
#[inline(always)]
pub fn read_to_end<R: Source, W: Watch>(
    limits: Limits,
    source: &mut R,
    watch: &mut W,
) -> Result<(), Fault>
    requires { W.has_seen watch.old [] watch.old }
    ensures { EndsReading IsWantOfMemory limits.records limits.depth (R.state source.old ⇝ R.state source.new)
        (λ _ w. W.has_seen watch.old w watch.new) result }
{
    let mut intake = Intake::new(limits);
    'records: loop {
        match intake.next_from(source)? {
            None => return Ok(()),
            Some(placed) => watch.see(placed)?,
        }
    }
}
