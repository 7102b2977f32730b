//! How the procedures of a trace nest: each record gets its place, and a record may come only while a procedure runs.
ghost use Rattle.std.specs.Prelude.{◌≡◌, ℕ, ◌≤◌, ◌+◌, ◌<◌, ◌++◌, ◌∷◌, [], List};
ghost use Rattle.std.specs.Prelude.{IfOk, IfErr, OnOk, OnErr};
ghost use Rattle.std.specs.Prelude.{IfSome, IfNone, false, ◌⊎◌};
ghost use Rattle.dag.specs.declared.records.Record.{Record};
ghost use Rattle.dag.specs.declared.records.Record.TheVariants.{Return};
ghost use Rattle.dag.specs.Bounds.{most_records};

use crate::faults::{NestFault, NestKind};
use dag::{Placed, Record};
use std::marker::Model;

/// Counts records, and checks that their procedures nest.
#[derive(Drop)]
pub struct Nest {
    max_depth: u32,
    count: u64,
    depth: u32,
    ended: bool,
}

impl Model for Nest {
    ghost use Rattle.std.specs.Prelude.{◌≤◌};
    ghost use Rattle.dag.specs.Bounds.{most_records};
    ghost use Rattle.trace.specs.Nesting.{Nesting};

    ghost Value = { Nesting };

    ghost view = { λ n. record { max_depth = n.max_depth; count = n.count; depth = n.depth; ended = n.ended } };

    ghost invariant = { λ n. (n.count ≤ most_records) × (n.depth ≤ n.max_depth) };
}

impl Nest {
    ghost use Rattle.trace.specs.Nesting.{at_first_place, HasNested};
    ghost use Rattle.dag.specs.Traces.{IsWellNested, opens};
    ghost use Rattle.trace.specs.Faults.{IsMisplaced, HasEnded};
    ghost use Rattle.trace.specs.declared.faults.NestKind.TheVariants.{Unfinished};

    /// A nest that has seen no record. No procedure may be deeper than the limit.
    pub fn new(max_depth: u32) -> Self
        ensures { result ≡ at_first_place max_depth }
    {
        Nest {
            max_depth,
            count: 0,
            depth: 0,
            ended: false,
        }
    }

    /// The number of accepted records.
    pub fn count(&self) -> u64
        ensures { result ≡ self.now.count }
    {
        self.count
    }

    /// Gives the next record its place, or refuses it if it may not come there. A refused record changes nothing.
    #[inline(always)]
    pub fn accept(&mut self, what: Record) -> Result<Placed, NestFault>
        requires { self.old.count < most_records }
        ensures place { IfOk result (λ p. p ≡ record { place = self.old.count + 1; what = what }) }
        ensures accepted { (u : List Record) → HasNested u self.old
            → OnOk result (HasNested (u ++ what ∷ []) self.new) }
        ensures misplaced { (u : List Record) → HasNested u self.old
            → IfErr result (λ f. IsMisplaced self.old.max_depth u what f.kind) }
        ensures fault_place { IfErr result (λ f. f.place ≡ self.old.count + 1) }
        ensures refused { OnErr result (self.new ≡ self.old) }
        ensures limit { self.new.max_depth ≡ self.old.max_depth }
        ensures count { OnOk result (self.new.count ≡ self.old.count + 1) }
    {
        let place = self.count + 1;
        if self.ended {
            return Err(NestFault {
                place,
                kind: NestKind::AfterEnd,
            });
        }
        match what {
            Record::Return if self.depth == 0 => {
                self.ended = true;
                self.count = place;
                Ok(Placed { place, what })
            }
            _ => match self.accept_inside(what) {
                Some(placed) => Ok(placed),
                None => Err(NestFault {
                    place,
                    kind: NestKind::TooDeep,
                }),
            },
        }
    }

    /// Gives the next record its place while the root runs. The answer `None` is for a procedure that lies too deep,
    /// and for the root's return; it changes nothing.
    #[inline(always)]
    pub(crate) fn accept_inside(&mut self, what: Record) -> Option<Placed>
        requires room { self.old.count < most_records }
        requires not_ended { self.old.ended ≡ false }
        ensures place { IfSome result (λ p. p ≡ record { place = self.old.count + 1; what = what }) }
        ensures accepted { (u : List Record) → HasNested u self.old
            → IfSome result (λ _. HasNested (u ++ what ∷ []) self.new) }
        ensures why { IfNone result (((opens what ≡ 1) × (self.old.max_depth ≤ self.old.depth))
            ⊎ ((what ≡ Return) × (self.old.depth ≡ 0))) }
        ensures none { IfNone result (self.new ≡ self.old) }
        ensures limit { self.new.max_depth ≡ self.old.max_depth }
        ensures count { IfSome result (λ _. self.new.count ≡ self.old.count + 1) }
        ensures not_ended { self.new.ended ≡ false }
    {
        match what {
            Record::Spawn | Record::Call => {
                if self.depth >= self.max_depth {
                    return None;
                }
                self.depth += 1;
            }
            Record::Return => {
                if self.depth == 0 {
                    return None;
                }
                self.depth -= 1;
            }
            Record::Sync | Record::Read(_) | Record::Write(_) => {}
        }
        self.count += 1;
        Some(Placed {
            place: self.count,
            what,
        })
    }

    /// Whether the root has returned.
    #[inline(always)]
    pub(crate) fn has_ended(&self) -> bool
        ensures { result ≡ self.now.ended }
    {
        self.ended
    }

    /// Whether the accepted records are a well nested trace, so that no record may follow.
    pub fn end(&self) -> Result<(), NestFault>
        ensures ok { (u : List Record) → HasNested u self.now
            → OnOk result (IsWellNested u self.now.count self.now.max_depth) }
        ensures not_well { (u : List Record) → HasNested u self.now
            → OnErr result ((records depths : ℕ) → IsWellNested u records depths → ⊥) }
        ensures unfinished { IfErr result (λ f. f ≡ record { place = self.now.count + 1; kind = Unfinished }) }
        ensures err { (u : List Record) → HasNested u self.now → OnErr result (HasEnded u → ⊥) }
    {
        if self.ended {
            Ok(())
        } else {
            Err(NestFault {
                place: self.count + 1,
                kind: NestKind::Unfinished,
            })
        }
    }
}
