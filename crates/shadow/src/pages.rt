//! Pages by their numbers. What is kept of a location stands in a seat of a page.
ghost use Rattle.std.specs.Prelude.{◌≡◌, ℕ, [], Bool, Option, None, Some, IfSome, IfOk, IsTrue, OnErr, nat_eq};
ghost use Rattle.std.specs.Prelude.{if◌then◌else◌};
ghost use Rattle.std.specs.Borrow.{sem};
ghost use Rattle.std.specs.Map.{lookup};
ghost use Rattle.indexmap.specs.IndexMap.{set_value_at};
ghost use Rattle.shadow.specs.Cells.{Cell, untouched};
ghost use Rattle.shadow.specs.Pages.{cell_in, IsPageAt, IsLookedUp, ForgetsSeats, HasSameCells, HasSetPage};

use dag::NoMemory;
use indexmap::IndexMap;
use std::alloc::Global;
use std::hash::BuildHasher;
use std::marker::Model;

/// A page: what is kept of some locations.
pub trait CellPage: Drop {
    /// What names some seats.
    type Seats: Copy;

    // What is kept in a seat of a page, or if there is no page.
    ghost cell: { Option Self → ℕ → Cell };

    // Whether a seat is one of these.
    ghost has: { Self.Seats → ℕ → Bool };

    /// A page of locations before their first access.
    fn untouched(alloc: Global) -> Self
        ensures { (seat : ℕ) → cell (Some result) seat ≡ untouched };

    /// The locations in these seats are as they were before their first access.
    fn forget(&mut self, seats: Self::Seats)
        ensures { (seat : ℕ) → cell (Some self.new) seat
            ≡ (if has seats seat then untouched else cell (Some self.old) seat) };

    /// Whether all its locations are as they were before their first access.
    fn is_untouched(&self) -> bool
        ensures { IsTrue result → (seat : ℕ) → cell (Some self.now) seat ≡ untouched };

    ghost none: { (seat : ℕ) → cell None seat ≡ untouched };
}

/// Guesses at which indices pages stand. None of them is trusted.
pub trait Guesses: Drop {
    /// What else a page is guessed by than its number.
    type Hint: Copy;

    /// The likeliest index.
    fn likeliest(&self, hint: Self::Hint) -> usize;

    /// Other indices, by their likelihood.
    fn others(&self, page: u64, hint: Self::Hint) -> [usize; 4];

    /// The page was found at this index.
    fn note(&mut self, page: u64, hint: Self::Hint, index: usize);
}

/// Pages by their numbers.
#[derive(Drop)]
pub struct Pages<P: CellPage, G: Guesses, S: BuildHasher> {
    alloc: Global,
    /// The crate's tests count these.
    pub(crate) map: IndexMap<u64, P, S>,
    guesses: G,
}

impl<P: CellPage, G: Guesses, S: BuildHasher> Model for Pages<P, G, S> {
    ghost use Rattle.std.specs.Prelude.{ℕ, List};

    ghost Value = { List (ℕ × P) };

    ghost view = { λ b. b.map.entries };
}

impl<P: CellPage, G: Guesses, S: BuildHasher> Pages<P, G, S> {
    ghost use Rattle.shadow.specs.Lending.{lends_page};

    /// No page. It takes no memory.
    pub fn new(alloc: Global, guesses: G, hasher: S) -> Pages<P, G, S>
        ensures { result ≡ [] }
    {
        Pages {
            alloc,
            map: IndexMap::with_hasher(alloc, hasher),
            guesses,
        }
    }

    /// The index of the page of this number. If there is no such page, an untouched one is added.
    ///
    /// An error leaves all as it was.
    #[inline(always)]
    pub fn find(&mut self, page: u64, hint: G::Hint) -> Result<usize, NoMemory>
        ensures there { IfOk result (λ at. IsPageAt self.new at page) }
        ensures kept { HasSameCells P.cell self.old self.new }
        ensures err { OnErr result (self.new ≡ self.old) }
        ensures not_there { OnErr result (lookup (nat_eq page) self.old ≡ None) }
    {
        match self.likely_index(page, hint) {
            Some(index) => Ok(index),
            None => self.find_or_add(page, hint),
        }
    }

    // The likeliest index of the page, if it stands there.
    #[inline(always)]
    fn likely_index(&self, page: u64, hint: G::Hint) -> Option<usize>
        ensures { IfSome result (λ at. IsPageAt self.now at page) }
    {
        let index = self.guesses.likeliest(hint);
        if self.is_at(index, page) {
            return Some(index);
        }
        None
    }

    // The same, if the page isn't at the likeliest index.
    #[inline(never)]
    fn find_or_add(&mut self, page: u64, hint: G::Hint) -> Result<usize, NoMemory>
        ensures there { IfOk result (λ at. IsPageAt self.new at page) }
        ensures kept { HasSameCells P.cell self.old self.new }
        ensures err { OnErr result (self.new ≡ self.old) }
        ensures not_there { OnErr result (lookup (nat_eq page) self.old ≡ None) }
    {
        let index = match self.look_up(page, hint) {
            Some(index) => index,
            None => self.add(page)?,
        };
        self.guesses.note(page, hint, index);
        Ok(index)
    }

    fn add(&mut self, page: u64) -> Result<usize, NoMemory>
        requires { lookup (nat_eq page) self.old ≡ None }
        ensures there { IfOk result (λ at. IsPageAt self.new at page) }
        ensures kept { HasSameCells P.cell self.old self.new }
        ensures err { OnErr result (self.new ≡ self.old) }
    {
        let index = self.map.len();
        self.map.insert(page, P::untouched(self.alloc))?;
        Ok(index)
    }

    // Where the page stands, if it is there.
    fn look_up(&self, page: u64, hint: G::Hint) -> Option<usize>
        ensures { IsLookedUp self.now page result }
    {
        for guess in self.guesses.others(page, hint) {
            if self.is_at(guess, page) {
                return Some(guess);
            }
        }
        let index = self.map.get_index_of(&page)?;
        Some(index)
    }

    // Whether the page of this number is at this index.
    #[inline(always)]
    fn is_at(&self, index: usize, page: u64) -> bool
        ensures { IsTrue result → IsPageAt self.now index page }
    {
        match self.map.get_index(index) {
            Some((found, _)) => *found == page,
            None => false,
        }
    }

    /// The page of this number, which is at this index, to write. All other pages stay as they are.
    #[inline(always)]
    pub fn page_mut(&mut self, at: usize, page: u64) -> &mut P
        requires there { IsPageAt self.old at page }
        ensures* writes_back { sem 𝓛
            (lends_page P.row G.row S.row P.Seats.row G.Hint.row S.Hasher.row P.CellPage S.BuildHasher S.Hasher.Hasher
            self.entry at result) }
        ensures value { Some result.now ≡ lookup (nat_eq page) self.old }
        ensures set { (left : P) → HasSetPage page left self.old (set_value_at self.old at left) }
    {
        // The proof also needs what `len` says of the map: no number is there twice.
        prove!(at < self.map.len());
        &mut self.map[at]
    }

    /// The locations in these seats of the page are as they were before their first access. A page whose locations
    /// all are goes.
    pub fn forget(&mut self, page: u64, hint: G::Hint, seats: P::Seats)
        ensures { ForgetsSeats P.cell page (P.has seats) self.old self.new }
    {
        if let Some(at) = self.index_of(page, hint) {
            if self.forget_at(at, page, seats) {
                self.drop_untouched(page);
            }
        }
    }

    // Where the page stands, if it is there.
    fn index_of(&mut self, page: u64, hint: G::Hint) -> Option<usize>
        ensures same { self.new ≡ self.old }
        ensures found { IsLookedUp self.old page result }
    {
        match self.likely_index(page, hint) {
            Some(index) => Some(index),
            None => {
                let index = self.look_up(page, hint)?;
                self.guesses.note(page, hint, index);
                Some(index)
            }
        }
    }

    // The locations in these seats of the page, which is at this index, are as they were before their first access.
    // Whether all locations of the page are.
    fn forget_at(&mut self, at: usize, page: u64, seats: P::Seats) -> bool
        requires there { IsPageAt self.old at page }
        ensures forgotten { ForgetsSeats P.cell page (P.has seats) self.old self.new }
        ensures empty { IsTrue result → (k : ℕ) → cell_in P.cell self.new page k ≡ untouched }
    {
        let page = self.page_mut(at, page);
        page.forget(seats);
        page.is_untouched()
    }

    // Drops the page of this number, whose locations are untouched.
    fn drop_untouched(&mut self, page: u64)
        requires empty { (k : ℕ) → cell_in P.cell self.old page k ≡ untouched }
        ensures { HasSameCells P.cell self.old self.new }
    {
        self.map.swap_remove(&page);
    }
}
