//! S-bags and P-bags: which completed procedures are parallel to the one that executes.
//!
//! Spawns and calls number the procedures. A stretch is a longest run of consecutive procedures in one bag of one
//! active procedure; so the list of stretches says what all the bags hold.
#![tactic(auto)]

ghost use Rattle.std.specs.Prelude.{◌≡◌, ◌+◌, ◌*◌, ◌<◌, ◌≤◌, true, false, length, IfOk, OnOk, OnErr};
ghost use Rattle.dag.specs.Bounds.{most_records};
ghost use Rattle.bags.specs.Stretches.{stretches};
ghost use Rattle.bags.specs.Numbers.{digits};

use dag::NoMemory;
use nested::Nested;
use nesting::Nesting;
use std::alloc::Global;
use std::marker::Model;
use stretch::Stretch;
use stretches::Stretches;

pub mod laws;
mod nested;
mod nesting;
mod search;
mod stretch;
mod stretches;
mod suspended;

/// The bags of the active procedures of a serial run, which begins in its root.
///
/// `current`, `count`, `active`, `held`, `in_p`, `in_p_counted`, `sync` and `ret` take no memory.
///
/// ```rust
/// let mut bags = Bags::new(rt.alloc())?;
/// bags.spawn()?;
/// assert_eq!(rt; (bags.current(), bags.active(), bags.count()), (1, 2, 2));
/// bags.ret();
/// assert!(rt; bags.in_p(1));
/// bags.sync();
/// assert!(rt; !bags.in_p(1));
/// ```
#[derive(Drop)]
pub struct Bags {
    nesting: Nesting,
    /// The stretches of the active procedures, the root's first.
    stretches: Stretches,
    count: u64,
}

impl Model for Bags {
    ghost use Rattle.bags.specs.Procedures.{Procedures, coded_procedures};

    ghost Value = { Procedures };

    ghost coded = { coded_procedures };

    ghost use Rattle.bags.specs.Held.{procedures_of, AreHeld};

    ghost view = { λ b. procedures_of b.count b.stretches b.nesting };

    ghost invariant = { λ b. AreHeld b.count b.stretches b.nesting };
}

impl Bags {
    ghost use Rattle.bags.specs.Paths.{DecidesPaths};
    ghost use Rattle.bags.specs.Procedures.{at_start, current, entered, event, in_p};
    ghost use Rattle.dag.specs.declared.records.Record.TheVariants.{Sync, Return};

    /// The bags at the start: only the root is active.
    pub fn new(alloc: Global) -> Result<Bags, NoMemory>
        ensures { IfOk result (λ bags. bags ≡ at_start) }
    {
        Ok(Bags {
            nesting: Nesting::new(alloc, Nested::new(0, 0, false)),
            stretches: Stretches::new(alloc, Stretch::new(0, false))?,
            count: 1,
        })
    }

    /// The executing procedure spawns a child, which executes from here on.
    pub fn spawn(&mut self) -> Result<(), NoMemory>
        requires { self.old.count ≤ most_records }
        ensures ok { OnOk result (self.new ≡ entered self.old false) }
        ensures err { OnErr result (self.new ≡ self.old) }
    {
        self.enter(false)
    }

    /// The executing procedure calls a child, which executes from here on.
    pub fn call(&mut self) -> Result<(), NoMemory>
        requires { self.old.count ≤ most_records }
        ensures ok { OnOk result (self.new ≡ entered self.old true) }
        ensures err { OnErr result (self.new ≡ self.old) }
    {
        self.enter(true)
    }

    // If the second list can't grow, the first one gives back what it took.
    #[inline(always)]
    fn enter(&mut self, is_called: bool) -> Result<(), NoMemory>
        requires { self.old.count ≤ most_records }
        ensures ok { OnOk result (self.new ≡ entered self.old is_called) }
        ensures err { OnErr result (self.new ≡ self.old) }
    {
        self.nesting
            .open(Nested::new(self.stretches.len(), self.count, is_called))?;
        match self.stretches.push(Stretch::new(self.count, false)) {
            Ok(()) => {
                self.count += 1;
                Ok(())
            }
            Err(refused) => {
                let _ = self.nesting.close();
                Err(refused)
            }
        }
    }

    /// The executing procedure syncs.
    pub fn sync(&mut self)
        ensures { self.new ≡ event self.old Sync }
    {
        self.stretches
            .truncate(self.nesting.executing().begins() + 1);
    }

    /// The executing procedure returns to its parent, which executes from here on.
    pub fn ret(&mut self)
        requires { 1 < length self.old.active }
        ensures { self.new ≡ event self.old Return }
    {
        let executing = self.nesting.close();
        // What it kept goes to one bag of its parent.
        let is_parallel = !executing.is_called();
        let kept = Stretch::new(executing.number(), is_parallel);
        self.stretches.join(executing.begins(), kept);
    }

    /// The number of the executing procedure, which is in no P-bag.
    pub fn current(&self) -> u64
        ensures executes { result ≡ current self.now.active }
        ensures known { result < self.now.count }
        ensures in_series { in_p self.now.active result ≡ false }
    {
        self.nesting.executing().number()
    }

    /// The number of procedures so far, active and completed.
    pub fn count(&self) -> u64
        ensures procedures { result ≡ self.now.count }
        ensures some { 1 ≤ result }
    {
        self.count
    }

    /// The number of active procedures. The root is always active.
    pub fn active(&self) -> u64
        ensures procedures { result ≡ length self.now.active }
        ensures some { 1 ≤ result }
    {
        self.nesting.len() as u64
    }

    /// How many numbers the lists hold in all: two for each active procedure, and one for each stretch.
    pub fn held(&self) -> u64
        ensures exact { result ≡ 2 * length self.now.active + stretches self.now }
        ensures most { result ≤ 2 * (length self.now.active + stretches self.now) }
    {
        (2 * self.nesting.len() + self.stretches.len()) as u64
    }

    /// Whether a procedure is in a P-bag: whether it is parallel to the next strand.
    #[inline(always)]
    pub fn in_p(&self, procedure: u64) -> bool
        requires { procedure < self.now.count }
        ensures bags { result ≡ in_p self.now.active procedure }
        // After the records before a place that is neither a sync nor a return: a completed procedure is in a P-bag
        // exactly if no path leads from its return to that place.
        ensures paths { DecidesPaths self.now procedure result }
    {
        self.in_p_counted(procedure).0
    }

    /// The answer of `in_p`, and the number of its probes: how often it compared the procedure's number with the
    /// first number of a stretch or with an active procedure's number.
    #[inline(always)]
    pub fn in_p_counted(&self, procedure: u64) -> (bool, u32)
        requires { procedure < self.now.count }
        ensures bags { result.0 ≡ in_p self.now.active procedure }
        ensures paths { DecidesPaths self.now procedure result.0 }
        ensures probes { result.1 ≤ digits (stretches self.now) }
    {
        let (keeper, probes) = self.stretches.look_up(procedure);
        (keeper.is_parallel(), probes)
    }
}
