//! Where pages were found lately.
use crate::pages::Guesses;
use crate::spot::{Layout, Slot, slot_before};

/// The number of slots.
const SLOTS: usize = 1024;

/// The indices at which pages were found lately, one for all pages of a slot.
#[derive(Drop)]
pub struct Recent {
    layout: Layout,
    // None of them is trusted, so 32 bits of each do.
    index: [u32; SLOTS],
}

impl Recent {
    /// Nothing was found.
    pub fn new(layout: Layout) -> Recent {
        Recent {
            layout,
            index: [0; SLOTS],
        }
    }
}

impl Guesses for Recent {
    type Hint = Slot;

    #[inline(always)]
    fn likeliest(&self, slot: Slot) -> usize {
        self.index[slot.index] as usize
    }

    // 1, 2, 4 or 8 behind the last index of the neighbour's slot. A program that goes through an array adds its pages
    // one after another, or by turns with those of the locations between, and those of another array that it goes
    // through at the same time.
    fn others(&self, page: u64, _slot: Slot) -> [usize; 4] {
        let before = self.index[slot_before(page, self.layout)] as usize;
        [
            before.wrapping_add(1),
            before.wrapping_add(2),
            before.wrapping_add(4),
            before.wrapping_add(8),
        ]
    }

    fn note(&mut self, _page: u64, slot: Slot, index: usize) {
        self.index[slot.index] = (index % (1 << 32)) as u32;
    }
}
