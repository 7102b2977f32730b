//! The active procedures. The one that executes can be read, and no other.
#![tactic(auto)]

ghost use Rattle.std.specs.Prelude.{◌≡◌, ◌-◌, ◌<◌, [], ◌∷◌, ◌++◌, length, get_or, OnOk, OnErr};

use crate::nested::Nested;
use crate::suspended::Suspended;
use dag::NoMemory;
use std::alloc::Global;
use std::marker::Model;

/// The active procedures, the root first; the last one executes.
#[derive(Drop)]
pub struct Nesting {
    suspended: Vec<Suspended>,
    executing: Nested,
}

impl Model for Nesting {
    ghost use Rattle.std.specs.Prelude.{List, [], ◌∷◌, ◌++◌};
    ghost use Rattle.bags.specs.Nested.{Nested};

    ghost Value = { List Nested };

    ghost view = { λ n. n.suspended.items ++ n.executing ∷ [] };
}

impl Nesting {
    /// One procedure alone.
    pub fn new(alloc: Global, root: Nested) -> Nesting
        ensures { result ≡ root ∷ [] }
    {
        Nesting {
            suspended: Vec::new(alloc),
            executing: root,
        }
    }

    /// How many there are.
    #[inline(always)]
    pub fn len(&self) -> usize
        ensures { result ≡ length self.now }
    {
        self.suspended.len() + 1
    }

    /// The one that executes.
    #[inline(always)]
    pub fn executing(&self) -> Nested
        ensures { result ≡ get_or self.now (length self.now - 1) result }
    {
        self.executing
    }

    /// A procedure is opened, and executes.
    #[inline(always)]
    pub fn open(&mut self, procedure: Nested) -> Result<(), NoMemory>
        ensures ok { OnOk result (self.new ≡ self.old ++ procedure ∷ []) }
        ensures more { OnOk result (1 < length self.new) }
        ensures err { OnErr result (self.new ≡ self.old) }
    {
        self.suspended.push(Suspended::new(self.executing))?;
        self.executing = procedure;
        Ok(())
    }

    /// The one that executes is closed, and its parent executes again. The root is never closed.
    #[inline(always)]
    pub fn close(&mut self) -> Nested
        requires { 1 < length self.old }
        ensures { self.old ≡ self.new ++ result ∷ [] }
    {
        let executing = self.executing;
        if let Some(parent) = self.suspended.pop() {
            self.executing = parent.resumed();
        }
        executing
    }
}
