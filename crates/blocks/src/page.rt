//! What is kept of the 64 units of a block.
ghost use Rattle.std.specs.Prelude.{◌≡◌, ℕ, ◌+◌, ◌^◌, ◌%◌, ◌<◌, ◌≤◌, ◌++◌, refl, OnOk};
ghost use Rattle.std.specs.Int.RustNames.{count_ones};
ghost use Rattle.dag.specs.Bounds.{most_records};
ghost use Rattle.shadow.specs.Before.{IsCellBefore};
ghost use Rattle.blocks.specs.Masks.{has};
ghost use Rattle.blocks.specs.Pages.{block_cell, unit_cell, touched_at, races_up_to};
ghost use Rattle.blocks.specs.Groups.{AreNew};

use crate::groups::{Group, forget, names_of, racy_units, touch};
use crate::masks::{count_before, without};
use crate::step::Step;
use bags::Bags;
use dag::{Access, Kind, NoMemory, Race};
use shadow::CellPage;
use std::alloc::Global;
use std::marker::Model;

/// What is kept of 64 units: those that keep the same names are a group.
#[derive(Drop)]
pub struct Page {
    groups: Vec<Group>,
    // The units that the groups have.
    touched: u64,
    // The units whose race was reported.
    reported: u64,
}

impl Model for Page {
    ghost use Rattle.blocks.specs.Pages.{Block};
    ghost use Rattle.blocks.specs.Groups.{IsTouched};

    ghost Value = { Block };

    ghost view = { λ p. record { groups = p.groups.items; reported = p.reported } };

    ghost invariant = { λ p. IsTouched p.touched p.groups.items };
}

impl Page {
    /// Takes an access to these units by the executing procedure, the first of them at this place, and puts the races
    /// that it reports behind the others. The location of unit 0 is `first`.
    pub fn touch(
        &mut self,
        bags: &Bags,
        first: u64,
        kind: Kind,
        place: u64,
        units: u64,
        races: &mut Vec<Race>,
    ) -> Result<(), NoMemory>
        requires first { first + 126 < 2 ^ 64 }
        requires from_one { 1 ≤ place }
        requires to_limit { place + count_ones units ≤ most_records + 1 }
        requires before { (i : ℕ) → i < 64 → IsCellBefore place bags.now.count (unit_cell self.old i) }

        ensures races { OnOk result (races.new.items ≡ races.old.items
            ++ races_up_to bags.now.active first kind place units (unit_cell self.old) 64) }
        ensures kept { OnOk result ((i : ℕ) → i < 64
            → unit_cell self.new i ≡ touched_at bags.now.active kind place units i (unit_cell self.old i)) }
        // After an error too.
        ensures earlier { (i : ℕ) → i < 64
            → IsCellBefore (place + count_ones units) bags.now.count (unit_cell self.new i) }
    {
        let executing = bags.current();
        let known = units & self.touched;
        let racy = without(
            racy_units(&self.groups, bags, executing, kind, known),
            self.reported,
        );
        if racy != 0 {
            self.report(racy, bags, first, kind, place, units, races)?;
        }
        let step = Step {
            procedure: executing,
            place,
            units,
        };
        touch(&mut self.groups, bags, kind, step, self.touched)?;
        self.touched |= units;
        self.reported |= racy;
        Ok(())
    }

    /// Puts the races at these units, of all that the access touches, behind the others.
    #[cold]
    #[inline(never)]
    fn report(
        &self,
        racy: u64,
        bags: &Bags,
        first: u64,
        kind: Kind,
        place: u64,
        units: u64,
        races: &mut Vec<Race>,
    ) -> Result<(), NoMemory>
        requires first { first + 126 < 2 ^ 64 }
        requires from_one { 1 ≤ place }
        requires to_limit { place + count_ones units ≤ most_records + 1 }
        requires before { (i : ℕ) → i < 64 → IsCellBefore place bags.now.count (unit_cell self.now i) }
        requires racy { AreNew bags.now.active kind units self.now racy }
        ensures races { OnOk result (races.new.items ≡ races.old.items
            ++ races_up_to bags.now.active first kind place units (unit_cell self.now) 64) }
    {
        let executing = bags.current();
        for unit in 0..64u32 {
            if racy >> unit & 1 == 1 {
                let at = place + count_before(units, unit);
                let rival = names_of(&self.groups, unit).rival(bags, executing, kind, unit, at);
                if let Some(rival) = rival {
                    races.push(Race {
                        location: first + 2 * unit as u64,
                        first: rival,
                        second: Access { kind, place: at },
                    })?;
                }
            }
        }
        Ok(())
    }
}

impl CellPage for Page {
    type Seats = u64;

    ghost cell = { block_cell };

    ghost has = { λ units i. has units (i % 64) };

    ghost none = { λ i. refl };

    fn untouched(alloc: Global) -> Page {
        Page {
            groups: Vec::new(alloc),
            touched: 0,
            reported: 0,
        }
    }

    fn forget(&mut self, units: u64) {
        forget(&mut self.groups, units);
        self.touched = without(self.touched, units);
        self.reported = without(self.reported, units);
    }

    fn is_untouched(&self) -> bool {
        self.touched == 0 && self.reported == 0
    }
}
