//! The stretches of the active procedures, and the look-up among them. It has no number of an active procedure. It
//! makes the counter of a look-up's probes, at 0; no other code makes one.
#![tactic(auto)]

ghost use Rattle.std.specs.Prelude.{◌≡◌, ◌≢◌, ◌+◌, ◌-◌, ◌^◌, ◌<◌, ◌≤◌, [], ◌∷◌, ◌++◌};
ghost use Rattle.std.specs.Prelude.{length, take, IfOk, OnOk, OnErr};
ghost use Rattle.dag.specs.Bounds.{most_records};
ghost use Rattle.bags.specs.Numbers.{digits};
ghost use Rattle.bags.specs.Search.{first_at, IsAscending, IsKeeper};
ghost use Rattle.bags.specs.Stretch.{bag_before};

use crate::search::{Start, keeper_of};
use crate::stretch::Stretch;
use dag::NoMemory;
use std::alloc::Global;
use std::marker::Model;

/// The number of probes that a look-up has made.
#[derive(Drop)]
pub struct Probes {
    made: u32,
}

impl Model for Probes {
    ghost use Rattle.std.specs.Prelude.{ℕ};

    ghost Value = { ℕ };

    ghost view = { λ p. p.made };
}

impl Probes {
    /// Counts one more probe.
    #[inline(always)]
    pub fn add(&mut self)
        requires { self.old + 1 < 2 ^ 32 }
        ensures { self.new ≡ self.old + 1 }
    {
        self.made += 1;
    }
}

/// Stretches, and where a search among them begins. There is at least one.
#[derive(Drop)]
pub struct Stretches {
    list: Vec<Stretch>,
    start: Start,
}

impl Model for Stretches {
    ghost use Rattle.std.specs.Prelude.{List, length};
    ghost use Rattle.bags.specs.Stretch.{Stretch};
    ghost use Rattle.bags.specs.Search.{IsStart};

    ghost Value = { List Stretch };

    ghost view = { λ s. s.list.items };

    ghost invariant = { λ s. IsStart (length s.list.items) s.start };
}

impl Stretches {
    /// One stretch alone.
    pub fn new(alloc: Global, stretch: Stretch) -> Result<Stretches, NoMemory>
        ensures { IfOk result (λ stretches. stretches ≡ stretch ∷ []) }
    {
        let mut list = Vec::new(alloc);
        list.push(stretch)?;
        Ok(Stretches {
            list,
            start: Start::of_one(),
        })
    }

    /// How many there are.
    #[inline(always)]
    pub fn len(&self) -> usize
        ensures { result ≡ length self.now }
    {
        self.list.len()
    }

    /// One more stretch.
    #[inline(always)]
    pub fn push(&mut self, stretch: Stretch) -> Result<(), NoMemory>
        ensures ok { OnOk result (self.new ≡ self.old ++ stretch ∷ []) }
        ensures err { OnErr result (self.new ≡ self.old) }
    {
        self.list.push(stretch)?;
        self.start = self.start.of_more(self.list.len());
        Ok(())
    }

    /// The first `len` stretches stay.
    #[inline(always)]
    pub fn truncate(&mut self, len: usize)
        requires some { 1 ≤ len }
        requires within { len ≤ length self.old }
        ensures { self.new ≡ take len self.old }
    {
        self.list.truncate(len);
        self.start = self.start.of_fewer(len);
    }

    /// All stretches from one on become one, in the same bag as the stretch before it, which then holds them too, or in
    /// the other kind of bag.
    #[inline(always)]
    pub fn join(&mut self, from: usize, stretch: Stretch)
        requires some { 1 ≤ from }
        requires within { from < length self.old }
        ensures same { bag_before self.old from ≡ stretch.is_parallel → self.new ≡ take from self.old }
        ensures other { bag_before self.old from ≢ stretch.is_parallel → self.new ≡ take from self.old ++ stretch ∷ [] }
    {
        let last = self.list[from - 1];
        self.list.truncate(from);
        if last.is_parallel() != stretch.is_parallel() {
            self.list.push_reserved(stretch);
            self.start = self.start.of_fewer(from + 1);
        } else {
            self.start = self.start.of_fewer(from);
        }
    }

    /// The stretch of a procedure, and the number of probes that it took to find it.
    #[inline(always)]
    pub fn look_up(&self, procedure: u64) -> (Stretch, u32)
        requires ascending { IsAscending self.now }
        requires first { first_at self.now 0 ≤ procedure }
        requires known { procedure ≤ most_records }
        ensures keeper { IsKeeper self.now procedure result.0 }
        ensures probes { result.1 ≤ digits (length self.now) }
    {
        let mut probes = Probes { made: 0 };
        let keeper = keeper_of(&self.list, self.start, procedure, &mut probes);
        (keeper, probes.made)
    }
}
