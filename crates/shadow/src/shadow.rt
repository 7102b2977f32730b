//! Shadow memory: what is kept of each location.
ghost use Rattle.std.specs.Prelude.{◌≡◌, ℕ, ◌<◌, ◌≤◌, IfOk, OnOk, OnErr};
ghost use Rattle.dag.specs.Bounds.{most_records};
ghost use Rattle.shadow.specs.Cells.{untouched, race_at, touched};
ghost use Rattle.shadow.specs.Found.{with_cell};
ghost use Rattle.shadow.specs.Seats.{shards_of};

use crate::page::Page;
use crate::pages::Pages;
use crate::recent::Recent;
use crate::spot::{Layout, spot_of};
use bags::Bags;
use dag::{Kind, NoMemory, Race};
use std::alloc::Global;
use std::hash::BuildHasher;
use std::marker::Model;

/// The shadow memory of a serial run: the kept writer and the kept reader of each location.
#[derive(Drop)]
pub struct Shadow<S: BuildHasher> {
    layout: Layout,
    pages: Pages<Page, Recent, S>,
    last_place: u64,
    least_count: u64,
    ghost shards_within: { 1 ≤ shards_of layout },
}

impl<S: BuildHasher> Model for Shadow<S> {
    ghost use Rattle.std.specs.Prelude.{◌+◌};
    ghost use Rattle.shadow.specs.Before.{AreBefore};
    ghost use Rattle.shadow.specs.Seats.{cell_of, cells_of};
    ghost use Rattle.shadow.specs.Shadow.{Shadow};

    ghost Value = { Shadow };

    ghost view = { λ s. record {
      kept = cells_of (cell_of s.layout s.pages);
      last_place = s.last_place;
      least_count = s.least_count;
    } };

    ghost invariant = { λ s. AreBefore (s.last_place + 1) s.least_count (cell_of s.layout s.pages) };
}

impl<S: BuildHasher> Shadow<S> {
    ghost use Rattle.shadow.specs.Shadow.{kept_of, last_place_of, least_count_of, IsSameShadow};

    /// Shadow memory before the first access. It takes no memory.
    pub fn with_hasher(alloc: Global, hasher: S) -> Shadow<S>
        ensures kept { (l : ℕ) → kept_of result l ≡ untouched }
        ensures last_place { last_place_of result ≡ 0 }
        ensures least_count { least_count_of result ≡ 1 }
    {
        Shadow::for_shards(alloc, hasher, 1)
    }

    /// The shadow memory of a program whose units of memory have even numbers, as the tracer numbers them. If it goes
    /// through an array, the pages are full, and the array's cells stand side by side. It takes no memory.
    pub fn for_program(alloc: Global, hasher: S) -> Shadow<S>
        ensures kept { (l : ℕ) → kept_of result l ≡ untouched }
        ensures last_place { last_place_of result ≡ 0 }
        ensures least_count { least_count_of result ≡ 1 }
    {
        Shadow::with_layout(alloc, hasher, Layout::Program)
    }

    /// The shadow memory of one of `shards` shards, before the first access. If only locations of one shard are
    /// touched, the pages are full. It takes no memory.
    pub fn for_shards(alloc: Global, hasher: S, shards: u64) -> Shadow<S>
        requires { 1 ≤ shards }
        ensures kept { (l : ℕ) → kept_of result l ≡ untouched }
        ensures last_place { last_place_of result ≡ 0 }
        ensures least_count { least_count_of result ≡ 1 }
    {
        Shadow::with_layout(alloc, hasher, Layout::Shards(shards))
    }

    fn with_layout(alloc: Global, hasher: S, layout: Layout) -> Shadow<S>
        requires { 1 ≤ shards_of layout }
        ensures kept { (l : ℕ) → kept_of result l ≡ untouched }
        ensures last_place { last_place_of result ≡ 0 }
        ensures least_count { least_count_of result ≡ 1 }
    {
        Shadow {
            layout,
            pages: Pages::new(alloc, Recent::new(layout), hasher),
            last_place: 0,
            least_count: 1,
        }
    }

    /// The place of the last access, or 0 before the first.
    pub fn last_place(&self) -> u64
        ensures { result ≡ last_place_of self.now }
    {
        self.last_place
    }

    /// The number of procedures in the bags at the last access, or 1 before the first.
    pub fn least_count(&self) -> u64
        ensures { result ≡ least_count_of self.now }
    {
        self.least_count
    }

    /// Takes an access by the executing procedure of the bags, and reports its race, if any.
    ///
    /// ```rust
    /// let mut bags = Bags::new(rt.alloc())?;
    /// let hasher = BuildHasherDefault::<FoldHasher>::default();
    /// let mut shadow = Shadow::with_hasher(rt.alloc(), hasher);
    /// assert_eq!(rt; (shadow.last_place(), shadow.least_count()), (0, 1));
    /// bags.spawn()?;
    /// assert_eq!(rt; shadow.touch(&bags, 9, Kind::Read, 5)?, None);
    /// assert_eq!(rt; (shadow.last_place(), shadow.least_count()), (5, 2));
    /// bags.ret();
    /// let race = shadow.touch(&bags, 9, Kind::Write, 7)?.ok_or("no race")?;
    /// assert_eq!(rt; (race.first.place, race.second.place), (5, 7));
    /// ```
    #[inline(always)]
    pub fn touch(
        &mut self,
        bags: &Bags,
        location: u64,
        kind: Kind,
        place: u64,
    ) -> Result<Option<Race>, NoMemory>
        requires later { last_place_of self.old < place }
        requires to_limit { place ≤ most_records }
        requires no_fewer { least_count_of self.old ≤ bags.now.count }

        ensures race { IfOk result
            (λ race. race ≡ race_at bags.now.active location kind place (kept_of self.old location)) }
        ensures kept { OnOk result ((l : ℕ) → kept_of self.new l ≡ with_cell location
            (touched bags.now.active kind place (kept_of self.old location)) (kept_of self.old) l) }
        ensures last_place { OnOk result (last_place_of self.new ≡ place) }
        ensures least_count { OnOk result (least_count_of self.new ≡ bags.now.count) }

        // A refusal changes nothing, and comes only if nothing is kept of the location yet.
        ensures err { OnErr result (IsSameShadow self.old self.new) }
        ensures not_there { OnErr result (kept_of self.old location ≡ untouched) }
    {
        let spot = spot_of(location, self.layout);
        let at = self.pages.find(spot.page, spot.slot)?;
        self.last_place = place;
        self.least_count = bags.count();
        let page = self.pages.page_mut(at, spot.page);
        Ok(page.touch(spot.seat, bags, location, kind, place))
    }

    /// The location is as it was before its first access.
    #[inline(always)]
    pub fn forget(&mut self, location: u64)
        ensures kept { (l : ℕ) → kept_of self.new l ≡ with_cell location untouched (kept_of self.old) l }
        ensures last_place { last_place_of self.new ≡ last_place_of self.old }
        ensures least_count { least_count_of self.new ≡ least_count_of self.old }
    {
        let spot = spot_of(location, self.layout);
        self.pages.forget(spot.page, spot.slot, spot);
    }
}

#[cfg(test)]
mod tests {
    use super::Shadow;
    use bags::Bags;
    use dag::Kind;
    use std::alloc::Global;
    use std::hash::{BuildHasherDefault, FoldHasher};
    use std::test::Fail;

    type Hasher = BuildHasherDefault<FoldHasher>;

    /// How many pages 10,000 locations take that are `apart` apart, the first of them 2.
    fn pages_taken(alloc: Global, mut shadow: Shadow<Hasher>, apart: u64) -> Result<usize, Fail> {
        let bags = Bags::new(alloc)?;
        for number in 0..10_000u64 {
            let (location, place) = (number.wrapping_mul(apart).wrapping_add(2), number + 1);
            if shadow.last_place() < place && shadow.least_count() <= bags.count() {
                let _ = shadow.touch(&bags, location, Kind::Read, place)?;
            }
        }
        Ok(shadow.pages.map.len())
    }

    #[test]
    fn pages_are_full(rt: HostRuntime) -> Result<(), Fail> {
        for shards in [1, 2, 3, 4, 5, 6, 8, 12, 16, 32, 61, 64] {
            let shadow = Shadow::for_shards(rt.alloc(), Hasher::default(), shards);
            let taken = pages_taken(rt.alloc(), shadow, shards)?;
            assert!(rt; 1250 <= taken && taken <= 1264, "{shards}");
        }
        Ok(())
    }

    #[test]
    fn pages_of_a_program_are_full(rt: HostRuntime) -> Result<(), Fail> {
        let shadow = Shadow::for_program(rt.alloc(), Hasher::default());
        assert_eq!(rt; pages_taken(rt.alloc(), shadow, 2)?, 1251);
        Ok(())
    }
}
