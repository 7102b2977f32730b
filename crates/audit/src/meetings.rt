//! Where two places meet: the active procedures, each with the places of its opener and its last sync, and which of
//! their children were spawned.
ghost use Rattle.std.specs.Prelude.{◌≡◌, ◌≤◌, List, [], length, true, OnOk};
ghost use Rattle.dag.specs.declared.records.Record.{Record};
ghost use Rattle.audit.specs.Meetings.{EndsIn, TakesTurn};

use std::alloc::Global;
use trace::{NoMemory, Placed, Record};

/// An active procedure: the place of the record that opened it, or 0 for the root; the place of its last own sync, or
/// of its opener if it hasn't synced; and how many turns had begun when it was opened.
#[derive(Clone, Copy)]
pub(crate) struct Active {
    pub(crate) opened: u64,
    pub(crate) synced: u64,
    pub(crate) turns: usize,
}

/// A turn: from this place up to the next turn the active procedures have opened children of one kind only, spawned
/// or called.
#[derive(Clone, Copy)]
pub(crate) struct Turn {
    pub(crate) opened: u64,
    pub(crate) is_spawned: bool,
}

/// The active procedures of the records so far, and their turns.
#[derive(Drop)]
pub(crate) struct Meetings {
    pub(crate) executing: Active,
    /// The procedures above it, from the root on.
    pub(crate) suspended: Vec<Active>,
    /// In the order of their places. A sync or return of a procedure removes what this procedure began.
    pub(crate) turns: Vec<Turn>,
}

impl Meetings {
    ghost use Rattle.std.specs.List.Sorted.{IsPartitionedBy, IsPartitionPoint};
    ghost use Rattle.std.specs.Prelude.{nat_lt, false};
    ghost use Rattle.audit.specs.Meetings.{HasMet, Moves, OpensChild};
    ghost use Rattle.audit.specs.Meetings.{DecidesParallel, DecidesTurn, DecidesUnjoinedAfter};

    /// The state before the first record.
    pub(crate) fn new(alloc: Global) -> Meetings
        ensures { HasMet result [] }
    {
        Meetings {
            executing: Active {
                opened: 0,
                synced: 0,
                turns: 0,
            },
            suspended: Vec::new(alloc),
            turns: Vec::new(alloc),
        }
    }

    /// Sees the next record.
    pub(crate) fn see(&mut self, placed: Placed) -> Result<(), NoMemory>
        ensures { OnOk result (Moves placed.place placed.what self.old self.new) }
    {
        match placed.what {
            Record::Spawn => self.open(placed.place, true)?,
            Record::Call => self.open(placed.place, false)?,
            Record::Return => {
                self.turns.truncate(self.executing.turns);
                if let Some(parent) = self.suspended.pop() {
                    self.executing = parent;
                }
            }
            Record::Sync => {
                self.turns.truncate(self.executing.turns);
                self.executing.synced = placed.place;
            }
            Record::Read(_) | Record::Write(_) => {}
        }
        Ok(())
    }

    // A child is opened, which executes from here on. Both lists grow before anything changes.
    fn open(&mut self, place: u64, is_spawned: bool) -> Result<(), NoMemory>
        ensures { OnOk result (OpensChild place is_spawned self.old self.new) }
    {
        self.suspended.reserve(1)?;
        take_turn(&mut self.turns, place, is_spawned)?;
        self.suspended.push_reserved(self.executing);
        self.executing = Active {
            opened: place,
            synced: place,
            turns: self.turns.len(),
        };
        Ok(())
    }

    /// The depth of the executing procedure.
    pub(crate) fn depth(&self) -> usize
        ensures { result ≡ length self.now.suspended.items }
    {
        self.suspended.len()
    }

    /// Whether an earlier access, at a place and a depth, is parallel to an access that comes next. They meet in the
    /// last active procedure that was opened before the earlier one. They are parallel if the earlier one lies in a
    /// child that this procedure spawned, and this procedure hasn't synced since.
    pub(crate) fn is_parallel(&self, place: u64, depth: usize) -> bool
        ensures { (u : List Record) → HasMet self.now u → DecidesParallel u place depth result }
    {
        self.is_unjoined(place, depth) && self.is_in_spawned_turn(place)
    }

    // Whether it lies deeper than the procedure in which they meet, so in a child, and that one hasn't synced since.
    fn is_unjoined(&self, place: u64, depth: usize) -> bool
        ensures { (u : List Record) → HasMet self.now u → DecidesUnjoinedAfter self.now u place depth result }
    {
        if self.executing.opened < place {
            return self.suspended.len() < depth && self.executing.synced < place;
        }
        match self.holders(place).checked_sub(1) {
            Some(meeting) => meeting < depth && self.suspended[meeting].synced < place,
            None => false,
        }
    }

    // The number of suspended procedures that were opened before a place, if they are in this order.
    fn holders(&self, place: u64) -> usize
        ensures within { result ≤ length self.now.suspended.items }
        ensures opened { IsPartitionedBy (λ f. nat_lt f.opened place) self.now.suspended.items
            → IsPartitionPoint (λ f. nat_lt f.opened place ≡ true)
            (λ f. nat_lt f.opened place ≡ false) self.now.suspended.items result }
    {
        self.suspended.partition_point(|f| f.opened < place)
    }

    // Whether the last turn that began before a place is one of spawned children, if they are in this order. It is
    // the turn of the child that holds the place, if its parent hasn't synced since.
    fn is_in_spawned_turn(&self, place: u64) -> bool
        ensures { DecidesTurn self.now.turns.items place result }
    {
        let begun = self.turns.partition_point(|turn| turn.opened < place);
        match begun.checked_sub(1) {
            Some(last) => self.turns[last].is_spawned,
            None => false,
        }
    }
}

// A child of this kind is opened at a place: the last turn goes on, or a turn begins.
fn take_turn(turns: &mut Vec<Turn>, place: u64, is_spawned: bool) -> Result<(), NoMemory>
    ensures { OnOk result (TakesTurn place is_spawned turns.old.items turns.new.items) }
{
    if !ends_in(turns, is_spawned) {
        turns.push(Turn {
            opened: place,
            is_spawned,
        })?;
    }
    Ok(())
}

// Whether the last turn is one of such children.
fn ends_in(turns: &[Turn], is_spawned: bool) -> bool
    ensures { result ≡ true → EndsIn turns.now is_spawned }
{
    match turns.last() {
        Some(turn) => turn.is_spawned == is_spawned,
        None => false,
    }
}
