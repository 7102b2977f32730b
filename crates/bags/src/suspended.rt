//! A suspended procedure. Nothing reads it, and it gives itself back only to execute again.
#![tactic(auto)]

ghost use Rattle.std.specs.Prelude.{◌≡◌};

use crate::nested::Nested;
use std::marker::Model;

/// An active procedure that waits for its child to return.
#[derive(Drop)]
pub struct Suspended {
    procedure: Nested,
}

impl Model for Suspended {
    ghost use Rattle.bags.specs.Nested.{Nested};

    ghost Value = { Nested };

    ghost view = { λ s. s.procedure };
}

impl Suspended {
    /// It waits from here on.
    #[inline(always)]
    pub fn new(procedure: Nested) -> Suspended
        ensures { result ≡ procedure }
    {
        Suspended { procedure }
    }

    /// It executes again.
    #[inline(always)]
    pub fn resumed(self) -> Nested
        ensures { result ≡ self }
    {
        self.procedure
    }
}
