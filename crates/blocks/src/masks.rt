//! Masks of the 64 units of a block.
ghost use Rattle.std.specs.Prelude.{◌≡◌, ℕ, ◌<◌, ◌&&◌, not};
ghost use Rattle.blocks.specs.Masks.{has, units_before};

/// The units that aren't among the others.
#[inline(always)]
pub fn without(units: u64, others: u64) -> u64
    ensures { (i : ℕ) → i < 64 → has result i ≡ (has units i && not (has others i)) }
{
    units & !others
}

/// How many of these units stand before this one.
pub fn count_before(units: u64, unit: u32) -> u64
    requires { unit < 64 }
    ensures { result ≡ units_before units unit }
{
    let mut count = 0;
    for before in 0..unit {
        count += units >> before & 1;
    }
    count
}
