//! An active procedure.
#![tactic(auto)]

ghost use Rattle.std.specs.Prelude.{◌≡◌, ◌*◌, ◌≤◌};
ghost use Rattle.dag.specs.Bounds.{most_records};

use std::marker::Model;

/// An active procedure: where its stretches begin, its number, and whether it was called rather than spawned. Its
/// first stretch begins with the procedure itself, in its S-bag.
#[derive(Clone, Copy)]
pub struct Nested {
    begins: usize,
    // twice the number, plus 1 if it was called
    word: u64,
}

impl Model for Nested {
    ghost use Rattle.bags.specs.Nested.{Nested, nested_of};
    ghost use Rattle.bags.specs.Words.{word_with, word_back};

    ghost Value = { Nested };

    ghost view = { λ n. nested_of n.begins n.word };

    ghost inverse = { λ n. record { begins = n.begins; word = word_with n.number n.is_called } };

    ghost inverse_ok = { λ n h i. record { begins = n.begins; word = word_back n.word i } };
}

impl Nested {
    /// A procedure that is opened now.
    #[inline(always)]
    pub fn new(begins: usize, number: u64, is_called: bool) -> Nested
        requires { number ≤ most_records }
        ensures begins { result.begins ≡ begins }
        ensures number { result.number ≡ number }
        ensures called { result.is_called ≡ is_called }
    {
        Nested {
            begins,
            word: 2 * number + is_called as u64,
        }
    }

    /// Where its stretches begin.
    #[inline(always)]
    pub fn begins(self) -> usize
        ensures { result ≡ self.begins }
    {
        self.begins
    }

    /// Its number.
    #[inline(always)]
    pub fn number(self) -> u64
        ensures { result ≡ self.number }
    {
        self.word / 2
    }

    /// Whether it was called.
    #[inline(always)]
    pub fn is_called(self) -> bool
        ensures { result ≡ self.is_called }
    {
        self.word % 2 == 1
    }
}
