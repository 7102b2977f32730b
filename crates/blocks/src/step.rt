//! The accesses of one strand to some units of a block, and whether they race with a later one.
ghost use Rattle.std.specs.Prelude.{◌≡◌, ◌≢◌, ℕ, ◌+◌, ◌<◌, ◌≤◌, false};
ghost use Rattle.std.specs.Option.{ForSome};
ghost use Rattle.dag.specs.Bounds.{most_records};
ghost use Rattle.shadow.specs.Before.{Executes, IsCellBefore, CanRace};
ghost use Rattle.shadow.specs.Cells.{rival};
ghost use Rattle.blocks.specs.Masks.{units_before};
ghost use Rattle.blocks.specs.Steps.{named_cell};
ghost use Rattle.blocks.specs.Groups.{is_step_in_p, has_rival, keeps_names, touched_names};

use crate::masks::count_before;
use bags::Bags;
use dag::{Access, Kind};

/// The accesses of a procedure to these units, at places one after another from this one on. Or none, which has
/// place 0.
#[derive(Clone, Copy, PartialEq, Eq)]
pub struct Step {
    pub procedure: u64,
    pub place: u64,
    pub units: u64,
}

/// No access.
pub const NO_STEP: Step = Step {
    procedure: 0,
    place: 0,
    units: 0,
};

impl Step {
    /// Whether the procedure is in a P-bag. The executing procedure is in none, so it isn't looked up.
    #[inline(always)]
    fn is_in_p(&self, bags: &Bags, executing: u64) -> bool
        requires executes { Executes bags.now executing }
        requires known { self.now.place ≢ 0 → self.now.procedure < bags.now.count }
        ensures { result ≡ is_step_in_p bags.now.active self.now }
    {
        self.place != 0 && self.procedure != executing && bags.in_p(self.procedure)
    }

    /// The place of the access to this unit.
    fn place_at(&self, unit: u32) -> u64
        requires within { unit < 64 }
        requires to_limit { self.now.place + units_before self.now.units unit ≤ most_records }
        ensures { result ≡ self.now.place + units_before self.now.units unit }
    {
        self.place + count_before(self.units, unit)
    }
}

/// The step that has the kept writer of some units, and the step that has their kept reader.
#[derive(Clone, Copy, PartialEq, Eq)]
pub struct Names {
    pub writer: Step,
    pub reader: Step,
}

/// The names of units before their first access.
pub const NO_NAMES: Names = Names {
    writer: NO_STEP,
    reader: NO_STEP,
};

impl Names {
    /// Whether an access by the executing procedure races with one of these.
    #[inline(always)]
    pub fn has_rival(&self, bags: &Bags, executing: u64, kind: Kind) -> bool
        requires executes { Executes bags.now executing }
        requires writer { self.now.writer.place ≢ 0 → self.now.writer.procedure < bags.now.count }
        requires reader { self.now.reader.place ≢ 0 → self.now.reader.procedure < bags.now.count }
        ensures { result ≡ has_rival bags.now.active kind self.now }
    {
        self.writer.is_in_p(bags, executing)
            || matches!(kind, Kind::Write) && self.reader.is_in_p(bags, executing)
    }

    /// Whether an access by the executing procedure leaves these as they are: a read, if the kept reader is in a
    /// P-bag.
    #[inline(always)]
    pub fn stay(&self, bags: &Bags, executing: u64, kind: Kind) -> bool
        requires executes { Executes bags.now executing }
        requires reader { self.now.reader.place ≢ 0 → self.now.reader.procedure < bags.now.count }
        ensures { result ≡ keeps_names bags.now.active kind self.now }
    {
        matches!(kind, Kind::Read) && self.reader.is_in_p(bags, executing)
    }

    /// What is kept after such a step, unless these stay.
    #[inline(always)]
    pub fn touched(self, kind: Kind, step: Step) -> Names
        ensures { result ≡ touched_names kind step self }
    {
        match kind {
            Kind::Read => Names {
                writer: self.writer,
                reader: step,
            },
            Kind::Write => Names {
                writer: step,
                reader: self.reader,
            },
        }
    }

    /// The first access of a race with an access to this unit by the executing procedure at this place, if there is
    /// one.
    pub fn rival(
        &self,
        bags: &Bags,
        executing: u64,
        kind: Kind,
        unit: u32,
        place: u64,
    ) -> Option<Access>
        requires executes { Executes bags.now executing }
        requires within { unit < 64 }
        requires before { IsCellBefore place bags.now.count (named_cell self.now unit false) }
        requires to_limit { place ≤ most_records }
        ensures first { result ≡ rival bags.now.active kind (named_cell self.now unit false) }
        ensures can_race { ForSome result (CanRace kind place) }
    {
        if self.writer.is_in_p(bags, executing) {
            return Some(Access {
                kind: Kind::Write,
                place: self.writer.place_at(unit),
            });
        }
        match kind {
            Kind::Write if self.reader.is_in_p(bags, executing) => Some(Access {
                kind: Kind::Read,
                place: self.reader.place_at(unit),
            }),
            _ => None,
        }
    }
}
