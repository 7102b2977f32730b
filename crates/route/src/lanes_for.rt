//! The lanes that a record goes to, in their order.
ghost use Rattle.std.specs.Prelude.{◌≡◌, ℕ, ◌<◌, ◌≤◌, ◌+◌, ◌%◌, true, false, IfSome, IfNone};
ghost use Rattle.dag.specs.Shares.{goes};
ghost use Rattle.route.specs.Sending.{first_lane};

use dag::Record;

/// The first of `count` lanes that the record goes to.
#[inline(always)]
pub fn first_lane(what: Record, count: usize) -> usize
    requires { 1 ≤ count }
    ensures { result ≡ first_lane count what }
{
    match what {
        Record::Spawn | Record::Call | Record::Return | Record::Sync => 0,
        Record::Read(location) | Record::Write(location) => lane_of(location, count),
    }
}

// The lane that an access to the location goes to.
#[inline(always)]
fn lane_of(location: u64, count: usize) -> usize
    requires { 1 ≤ count }
    ensures { result ≡ location % count }
{
    let below = count as u64 - 1;
    // A power of two has no bit in common with the number below it, which has the bits of each remainder.
    if count as u64 & below == 0 {
        return (location & below) as usize;
    }
    // A remainder by a constant compiles to a multiplication, which is faster, so the usual numbers of processors have
    // cases of their own. 2 and 4 never come, but without their cases the compiler makes one division of the others.
    let lane = match count {
        2 => location % 2,
        3 => location % 3,
        4 => location % 4,
        6 => location % 6,
        12 => location % 12,
        _ => location % count as u64,
    };
    lane as usize
}

/// The next lane after this one that the record goes to.
#[inline(always)]
pub fn lane_after(what: Record, lane: usize, count: usize) -> Option<usize>
    requires within { lane < count }
    requires goes { goes lane count what ≡ true }
    ensures some { IfSome result (λ j. (j ≡ lane + 1) × (j < count) × (goes j count what ≡ true)) }
    ensures none { IfNone result ((k : ℕ) → lane < k → k < count → goes k count what ≡ false) }
{
    match what {
        Record::Spawn | Record::Call | Record::Return | Record::Sync if lane + 1 < count => Some(
            lane + 1,
        ),
        _ => None,
    }
}
