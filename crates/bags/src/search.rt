//! The search for the stretch of a procedure. It can't read a first number, and it makes no counter.
#![tactic(auto)]

ghost use Rattle.std.specs.Prelude.{◌≡◌, ℕ, ◌+◌, ◌*◌, ◌<◌, ◌≤◌, ◌^◌, length};
ghost use Rattle.dag.specs.Bounds.{most_records};
ghost use Rattle.bags.specs.Search.{first_at, IsAscending, IsKeeper, IsStart};
ghost use Rattle.bags.specs.Numbers.{digits};

use crate::stretch::Stretch;
use crate::stretches::Probes;
use std::marker::Model;

/// Where a search among a number of stretches begins.
#[derive(Clone, Copy)]
pub struct Start {
    /// The greatest power of two that is at most this number.
    longest: usize,
    /// The first stretch to compare. From it on there are at most `longest` stretches.
    middle: usize,
}

impl Model for Start {
    ghost use Rattle.bags.specs.Search.{Start};

    ghost Value = { Start };

    ghost view = { λ s. record { longest = s.longest; middle = s.middle } };

    ghost inverse = { λ s. record { longest = s.longest; middle = s.middle } };
}

impl Start {
    /// The start among one stretch.
    pub fn of_one() -> Start
        ensures { IsStart 1 result }
    {
        Start {
            longest: 1,
            middle: 0,
        }
    }

    /// The start among `len` stretches, made from that of one stretch less.
    #[inline(always)]
    pub fn of_more(self, len: usize) -> Start
        requires { (fewer : ℕ) × (len ≡ fewer + 1) × (1 ≤ fewer) × IsStart fewer self }
        ensures { IsStart len result }
    {
        let older = len - self.longest;
        if older == self.longest {
            Start {
                longest: len,
                middle: 1,
            }
        } else {
            Start {
                longest: self.longest,
                middle: older,
            }
        }
    }

    /// The start among `len` stretches, made from that of at least as many.
    #[inline(always)]
    pub fn of_fewer(self, len: usize) -> Start
        requires some { 1 ≤ len }
        requires fewer { (more : ℕ) × (len ≤ more) × IsStart more self }
        ensures { IsStart len result }
    {
        let longest = if len < self.longest {
            longest_step(len)
        } else {
            self.longest
        };
        Start {
            longest,
            middle: middle_of(len, longest),
        }
    }
}

/// The index of the first of `len` stretches to compare.
#[inline(always)]
fn middle_of(len: usize, longest: usize) -> usize
    requires some { 1 ≤ len }
    requires long { 2 * longest ≡ 2 ^ digits len }
    ensures { IsStart len (record { longest = longest; middle = result }) }
{
    match len - longest {
        0 if len == 1 => 0,
        0 => 1,
        older => older,
    }
}

/// The stretch of a procedure: the last one whose first number is at most the procedure's. The first comparison
/// separates the newest stretches from the older ones. A second one finds the oldest stretch; if there are few
/// others, the first comparison already does. The rest is a search that halves its steps.
#[tactic(auto, using(crate::proofs::Segments::first_at_is))]
#[inline(always)]
pub fn keeper_of(
    stretches: &[Stretch],
    start: Start,
    procedure: u64,
    probes: &mut Probes,
) -> Stretch
    requires start { IsStart (length stretches.now) start }
    requires ascending { IsAscending stretches.now }
    requires first { first_at stretches.now 0 ≤ procedure }
    requires uncounted { probes.old ≡ 0 }
    requires known { procedure ≤ most_records }
    ensures keeper { IsKeeper stretches.now procedure result }
    ensures probes { probes.new ≤ digits (length stretches.now) }
{
    let mut part = stretches;
    let mut step = start.longest / 2;
    if stretches[start.middle].begins_by(procedure, probes) {
        part = &stretches[stretches.len() - start.longest..];
    } else if start.middle == 1 {
        return stretches[0];
    } else if start.middle <= step + 1 {
        if !stretches[1].begins_by(procedure, probes) {
            return stretches[0];
        }
        part = &stretches[1..];
        step = start.longest / 4;
    }
    while step > 0 {
        if part[step].begins_by(procedure, probes) {
            part = &part[step..];
        }
        step /= 2;
    }
    part[0]
}

/// The greatest power of two that is at most this length.
#[inline(always)]
fn longest_step(len: usize) -> usize
    requires { 0 < len }
    ensures { 2 * result ≡ 2 ^ digits len }
{
    1 << len.ilog2()
}
