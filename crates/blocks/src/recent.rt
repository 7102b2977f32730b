//! Where pages were found lately.
ghost use Rattle.std.specs.Prelude.{◌<◌};

use shadow::Guesses;

/// The number of slots.
const SLOTS: usize = 1024;

/// Not the index of a page.
const NOWHERE: usize = usize::MAX;

/// A page, and its index when it was found.
#[derive(Clone, Copy)]
struct Found {
    page: u64,
    index: usize,
}

/// The index at which the last page was found, and those at which pages were found lately, each in the slot of its
/// page.
#[derive(Drop)]
pub struct Recent {
    last: usize,
    found: [Found; SLOTS],
}

impl Recent {
    /// Nothing was found.
    pub fn new() -> Recent {
        Recent {
            last: 0,
            found: [Found { page: 0, index: 0 }; SLOTS],
        }
    }

    // Where the page was found, or behind its neighbour. A program that goes through arrays adds their pages one behind
    // the other.
    #[inline(always)]
    fn lately(&self, page: u64) -> usize {
        let found = self.found[slot_of(page)];
        if found.page == page {
            return found.index;
        }
        let neighbour = page.wrapping_sub(2);
        let before = self.found[slot_of(neighbour)];
        if before.page == neighbour {
            return before.index.wrapping_add(1);
        }
        NOWHERE
    }
}

impl Guesses for Recent {
    type Hint = ();

    #[inline(always)]
    fn likeliest(&self, _hint: ()) -> usize {
        self.last
    }

    #[inline(always)]
    fn others(&self, page: u64, _hint: ()) -> [usize; 4] {
        let next = self.last.wrapping_add(1);
        [next, self.lately(page), NOWHERE, NOWHERE]
    }

    #[inline(always)]
    fn note(&mut self, page: u64, _hint: (), index: usize) {
        self.last = index;
        self.found[slot_of(page)] = Found { page, index };
    }
}

// Neighbours have slots of their own, and so have arrays that lie a power of two apart.
#[inline(always)]
fn slot_of(page: u64) -> usize
    ensures { result < 1024 }
{
    ((page % 1024 + page / 512 * 37) % 1024) as usize
}
