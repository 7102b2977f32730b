//! Shadow memory of the accesses of strands, by blocks of 64 units.
ghost use Rattle.std.specs.Prelude.{◌≡◌, ℕ, ◌+◌, ◌≤◌, ◌++◌, OnOk, if◌then◌else◌};
ghost use Rattle.dag.specs.Bounds.{most_records};
ghost use Rattle.shadow.specs.Cells.{untouched};
ghost use Rattle.std.specs.Int.RustNames.{count_ones};
ghost use Rattle.blocks.specs.Blocks.{block_of, is_unit, kept_after_units, races_in_block};

use crate::page::Page;
use crate::recent::Recent;
use bags::Bags;
use dag::{Kind, NoMemory, Race};
use shadow::Pages;
use std::alloc::Global;
use std::hash::BuildHasher;
use std::marker::Model;

/// The shadow memory of a serial run whose accesses come a block at a time: 64 locations that are two apart.
#[derive(Drop)]
pub struct BlockShadow<S: BuildHasher> {
    pages: Pages<Page, Recent, S>,
    next_place: u64,
    least_count: u64,
}

impl<S: BuildHasher> Model for BlockShadow<S> {
    ghost use Rattle.shadow.specs.Before.{AreBefore};
    ghost use Rattle.blocks.specs.Blocks.{Blocks, cell_in_blocks};

    ghost Value = { Blocks };

    ghost view = { λ s. record { pages = s.pages; next_place = s.next_place; least_count = s.least_count } };

    ghost invariant = { λ s. AreBefore s.next_place s.least_count (cell_in_blocks s.pages) };
}

impl<S: BuildHasher> BlockShadow<S> {
    ghost use Rattle.blocks.specs.Blocks.{kept_in_blocks, next_place_of, count_of_blocks};

    /// Shadow memory before the first access. It takes no memory.
    pub fn with_hasher(alloc: Global, hasher: S) -> BlockShadow<S>
        ensures kept { (l : ℕ) → kept_in_blocks result l ≡ untouched }
        ensures next_place { next_place_of result ≡ 1 }
        ensures least_count { count_of_blocks result ≡ 1 }
    {
        BlockShadow {
            pages: Pages::new(alloc, Recent::new(), hasher),
            next_place: 1,
            least_count: 1,
        }
    }

    /// Takes an access by the executing procedure to these units of the location's block, the first of them at this
    /// place, and puts the races that it reports behind the others, by ascending locations.
    #[inline(always)]
    pub fn touch(
        &mut self,
        bags: &Bags,
        location: u64,
        kind: Kind,
        place: u64,
        units: u64,
        races: &mut Vec<Race>,
    ) -> Result<(), NoMemory>
        requires later { next_place_of self.old ≤ place }
        requires from_one { 1 ≤ place }
        requires to_limit { place + count_ones units ≤ most_records + 1 }
        requires no_fewer { count_of_blocks self.old ≤ bags.now.count }

        ensures kept { OnOk result ((l : ℕ) → kept_in_blocks self.new l ≡ kept_after_units bags.now.active kind place
            units (block_of location) (kept_in_blocks self.old) l) }
        ensures races { OnOk result (races.new.items ≡ races.old.items ++ races_in_block bags.now.active kind place
            units (block_of location) (kept_in_blocks self.old)) }
        // After an error too.
        ensures next_place { next_place_of self.new ≤ place + count_ones units }
        ensures least_count { count_of_blocks self.new ≤ bags.now.count }
    {
        let number = location / 128 * 2 + location % 2;
        let first = location / 128 * 128 + location % 2;
        let at = self.pages.find(number, ())?;
        self.next_place = place + u64::from(units.count_ones());
        self.least_count = bags.count();
        let page = self.pages.page_mut(at, number);
        page.touch(bags, first, kind, place, units, races)
    }

    /// These units of the location's block are as they were before their first access.
    #[inline(always)]
    pub fn forget(&mut self, location: u64, units: u64)
        ensures kept { (l : ℕ) → kept_in_blocks self.new l
            ≡ (if is_unit location units l then untouched else kept_in_blocks self.old l) }
        ensures next_place { next_place_of self.new ≡ next_place_of self.old }
        ensures least_count { count_of_blocks self.new ≡ count_of_blocks self.old }
    {
        let page = location / 128 * 2 + location % 2;
        self.pages.forget(page, (), units);
    }
}
