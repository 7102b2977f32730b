//! Where the cell of a location is.
ghost use Rattle.std.specs.Prelude.{◌≡◌, ◌+◌, ◌*◌, ◌/◌, ◌%◌, ◌<◌, ◌≤◌, ◌^◌};
ghost use Rattle.shadow.specs.declared.spot.Layout.TheVariants.{Program, Shards};
ghost use Rattle.shadow.specs.Seats.{page_of, seat_of, shards_of, own_page_of};

/// The number of cells of a page.
const SEATS: u64 = 8;

/// How the cells are numbered.
#[derive(Clone, Copy)]
pub enum Layout {
    /// For one shard. The locations of a page are two apart.
    Program,
    /// For so many shards. The locations of a page are eight apart among those of their shard.
    Shards(u64),
}

/// Where a location's cell is.
#[derive(Clone, Copy)]
pub struct Spot {
    /// The number of the cell's page.
    pub page: u64,
    /// The cell's seat in the page.
    pub seat: usize,
    /// The page's slot.
    pub slot: Slot,
    ghost seat_within: { seat < 8 },
}

/// One of the 1,024 slots that each remember an index.
#[derive(Clone, Copy)]
pub struct Slot {
    pub index: usize,
    ghost within: { index < 1024 },
}

/// Where the location's cell is.
#[inline(always)]
pub fn spot_of(location: u64, layout: Layout) -> Spot
    requires { 1 ≤ shards_of layout }
    ensures page { result.page ≡ page_of layout location }
    ensures seat { result.seat ≡ seat_of layout location }
{
    match layout {
        Layout::Program => spot_of_program(location),
        Layout::Shards(shards) => spot_among(location, shards),
    }
}

// The same for `shards` shards. A division by a constant compiles to a multiplication, which is faster, so the usual
// numbers of processors have cases of their own.
#[inline(always)]
fn spot_among(location: u64, shards: u64) -> Spot
    requires { 1 ≤ shards }
    ensures page { result.page ≡ page_of (Shards shards) location }
    ensures seat { result.seat ≡ seat_of (Shards shards) location }
{
    // One shard needs no jump by its number.
    if shards < 2 {
        return spot_at(location, 0, 1);
    }
    match shards {
        2 => spot_at(location / 2, location % 2, 2),
        3 => spot_at(location / 3, location % 3, 3),
        4 => spot_at(location / 4, location % 4, 4),
        6 => spot_at(location / 6, location % 6, 6),
        8 => spot_at(location / 8, location % 8, 8),
        12 => spot_at(location / 12, location % 12, 12),
        16 => spot_at(location / 16, location % 16, 16),
        32 => spot_at(location / 32, location % 32, 32),
        64 => spot_at(location / 64, location % 64, 64),
        _ => spot_at(location / shards, location % shards, shards),
    }
}

// The same for one shard, where the locations of a page are two apart.
#[inline(always)]
fn spot_of_program(location: u64) -> Spot
    ensures page { result.page ≡ page_of Program location }
    ensures seat { result.seat ≡ seat_of Program location }
{
    let own = location / 2 / SEATS * 2 + location % 2;
    Spot {
        page: own,
        seat: (location / 2 % SEATS) as usize,
        slot: Slot {
            index: slot_of_program(own),
        },
    }
}

// Where the cell of a shard's location lies, by its number among those of the shard. Locations of one page are eight
// apart among these, so pages are filled by programs whose accesses are one, two, four or eight bytes apart.
#[inline(always)]
fn spot_at(number: u64, shard: u64, shards: u64) -> Spot
    requires { number * shards + shard < 2 ^ 64 }
    ensures page { result.page ≡ own_page_of 8 number * shards + shard }
    ensures seat { result.seat ≡ number / 8 % 8 }
{
    let own = number / 8 / SEATS * 8 + number % 8;
    Spot {
        page: own * shards + shard,
        seat: (number / 8 % SEATS) as usize,
        slot: Slot {
            index: slot_among(own),
        },
    }
}

// The slot of a shard's page, by its number among those of the shard. Numbers that lie side by side have slots of their
// own.
#[inline(always)]
fn slot_among(own: u64) -> usize
    ensures { result < 1024 }
{
    ((own / 8 + own % 1024) % 1024) as usize
}

// The slot of a program's page. Neighbours have slots of their own, and so have arrays that lie a power of two apart.
#[inline(always)]
fn slot_of_program(own: u64) -> usize
    ensures { result < 1024 }
{
    ((own % 1024 + own / 512 * 37) % 1024) as usize
}

/// The slot of the page whose locations come just before those of a page.
pub fn slot_before(page: u64, layout: Layout) -> usize
    ensures { result < 1024 }
{
    match layout {
        Layout::Program => slot_of_program(page.wrapping_sub(2)),
        Layout::Shards(shards) => {
            // One shard needs no division.
            let own = if shards < 2 { page } else { page / shards };
            slot_among(own.wrapping_sub(8))
        }
    }
}
