//! A stretch. Only one call compares its first number, and it counts.
#![tactic(auto)]

ghost use Rattle.std.specs.Prelude.{◌≡◌, ◌+◌, ◌*◌, ◌<◌, ◌≤◌, ◌^◌, ◌↔◌, IsTrue};
ghost use Rattle.dag.specs.Bounds.{most_records};

use crate::stretches::Probes;
use std::marker::Model;

/// A run of procedures in one bag: the first of them, which no one can read, and whether the bag is a P-bag.
#[derive(Clone, Copy)]
pub struct Stretch {
    // twice the first number, plus 1 if the bag is a P-bag
    word: u64,
}

impl Model for Stretch {
    ghost use Rattle.bags.specs.Stretch.{Stretch, stretch_of};
    ghost use Rattle.bags.specs.Words.{word_with, word_back};

    ghost Value = { Stretch };

    ghost view = { λ s. stretch_of s.word };

    ghost inverse = { λ s. record { word = word_with s.first s.is_parallel } };

    ghost inverse_ok = { λ s h i. record { word = word_back s.word i } };
}

impl Stretch {
    /// The stretch that begins with a procedure.
    #[inline(always)]
    pub fn new(first: u64, is_parallel: bool) -> Stretch
        requires { first ≤ most_records }
        ensures first { result.first ≡ first }
        ensures bag { result.is_parallel ≡ is_parallel }
    {
        Stretch {
            word: 2 * first + is_parallel as u64,
        }
    }

    /// Whether its bag is a P-bag.
    #[inline(always)]
    pub fn is_parallel(self) -> bool
        ensures { result ≡ self.is_parallel }
    {
        self.word % 2 == 1
    }

    /// Whether it begins with this procedure or an earlier one. This comparison is a probe, and it is counted.
    #[inline(always)]
    pub fn begins_by(self, procedure: u64, probes: &mut Probes) -> bool
        requires counts { probes.old + 1 < 2 ^ 32 }
        requires known { procedure ≤ most_records }
        ensures by { IsTrue result ↔ (self.first ≤ procedure) }
        ensures counted { probes.new ≡ probes.old + 1 }
    {
        probes.add();
        self.word <= 2 * procedure + 1
    }
}
