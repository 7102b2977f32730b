//! Whether two places of a trace are parallel, by the records between them and the openers before them.
ghost use Rattle.std.specs.Prelude.{◌≡◌, ℕ, ◌<◌, ◌≤◌, ◌↔◌, true, length, Some};
ghost use Rattle.dag.specs.declared.records.Record.TheVariants.{Spawn};
ghost use Rattle.dag.specs.Traces.{at, depth, IsWellNested};
ghost use Rattle.dag.specs.Dag.{IsOpenerOf, JoinsAt, IsParallel};

use dag::Record;

/// Whether place j of a well nested trace is parallel to the earlier place i, if the record at j is neither a sync
/// nor a return. It walks once from i to j, and once back from i to the openers that it needs.
pub fn is_parallel(records: &[Record], i: u64, j: u64) -> bool
    requires some { 1 ≤ i }
    requires in_order { i < j }
    requires within { j ≤ length records.now }
    ensures { (most depths : ℕ) → IsWellNested records.now most depths → (JoinsAt records.now j → ⊥)
        → (result ≡ true) ↔ IsParallel records.now i j }
{
    // How far the walk is above the least depth that it has seen, a place of the procedure at that depth, and
    // whether a child that was spawned and returned to that depth hasn't been waited for.
    let mut above: u64 = 0;
    let mut shallow = i;
    let mut pending = false;
    let walk = &records[(i - 1) as usize..(j - 1) as usize];
    for record in walk {
        match record {
            Record::Spawn | Record::Call => above += 1,
            Record::Return if above == 0 => {
                // The parent goes on: beside a child that it spawned, after one that it called.
                shallow = opener_of(records, shallow);
                pending = is_spawn(records, shallow);
            }
            Record::Return => above -= 1,
            Record::Sync if above == 0 => pending = false,
            Record::Sync => {}
            Record::Read(_) | Record::Write(_) => {}
        }
    }
    pending
}

// The place of the record that opened the procedure which executes this place of a well nested trace; 0 for the root.
fn opener_of(records: &[Record], place: u64) -> u64
    requires within { place ≤ length records.now }
    ensures before { result ≤ place }
    ensures opener { (most depths : ℕ) → IsWellNested records.now most depths → 0 < depth records.now place
        → IsOpenerOf records.now result place }
{
    // How many procedures that were opened before the place, and returned before it, the walk back is in.
    let mut inside: u64 = 0;
    for back in 1..place {
        match records[(place - back - 1) as usize] {
            Record::Spawn | Record::Call if inside == 0 => return place - back,
            Record::Spawn | Record::Call => inside -= 1,
            Record::Return => inside += 1,
            Record::Sync | Record::Read(_) | Record::Write(_) => {}
        }
    }
    0
}

// Whether a child is spawned at a place.
fn is_spawn(records: &[Record], place: u64) -> bool
    requires within { place ≤ length records.now }
    ensures { (result ≡ true) ↔ (at records.now place ≡ Some Spawn) }
{
    place > 0 && matches!(records[(place - 1) as usize], Record::Spawn)
}
