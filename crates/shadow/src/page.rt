//! What is kept of eight locations.
ghost use Rattle.std.specs.Prelude.{◌≡◌, ◌≢◌, ◌<◌, ℕ, Some, nat_eq, refl, slice_index_or, IsTrue};
ghost use Rattle.shadow.specs.Seats.{no_names, cell_at};
ghost use Rattle.shadow.specs.Touches.{MayTouch, HasTouched};

use crate::names::Names;
use crate::pages::CellPage;
use crate::spot::Spot;
use bags::Bags;
use dag::{Kind, Race};
use std::alloc::Global;
use std::marker::Model;

/// What is kept of eight locations.
#[derive(Drop)]
pub struct Page {
    names: [Names; 8],
    /// Whether the race of each location was reported. Few accesses look at it, so it stands apart from the names.
    reported: [bool; 8],
}

impl Model for Page {
    ghost use Rattle.shadow.specs.Seats.{Page};

    ghost Value = { Page };

    ghost view = { λ p. record { names = p.names; reported = p.reported } };
}

impl Page {
    /// Takes an access by the executing procedure to the location in this seat, and reports its race, if any.
    #[inline(always)]
    pub fn touch(
        &mut self,
        seat: usize,
        bags: &Bags,
        location: u64,
        kind: Kind,
        place: u64,
    ) -> Option<Race>
        requires within { seat < 8 }
        requires may { MayTouch bags.now place (cell_at (Some self.old) seat) }
        ensures touched { HasTouched bags.now location kind place
            (cell_at (Some self.old) seat) (cell_at (Some self.new) seat) result }
        ensures others { (k : ℕ) → k ≢ seat → cell_at (Some self.new) k ≡ cell_at (Some self.old) k }
    {
        self.names[seat].update(&mut self.reported[seat], bags, location, kind, place)
    }
}

impl CellPage for Page {
    type Seats = Spot;

    ghost cell = { cell_at };

    ghost has = { λ spot seat. nat_eq seat spot.seat };

    ghost none = { λ seat. refl };

    fn untouched(_alloc: Global) -> Page {
        Page {
            names: [
                Names::none(),
                Names::none(),
                Names::none(),
                Names::none(),
                Names::none(),
                Names::none(),
                Names::none(),
                Names::none(),
            ],
            reported: [false; 8],
        }
    }

    fn forget(&mut self, spot: Spot) {
        self.names[spot.seat] = Names::none();
        self.reported[spot.seat] = false;
    }

    fn is_untouched(&self) -> bool {
        are_none(&self.names) && !self.reported.contains(&true)
    }
}

// Whether no names are kept.
fn are_none(names: &[Names]) -> bool
    ensures { IsTrue result → (seat : ℕ) → slice_index_or names.now seat no_names ≡ no_names }
{
    for names in names {
        if !names.are_none() {
            return false;
        }
    }
    true
}
