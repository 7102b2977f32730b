//! The end of a lane that puts, and its receipt.
ghost use Rattle.std.specs.Prelude.{◌≡◌, ◌+◌, ◌<◌, ◌≤◌, true, false, [], ◌∷◌, ◌++◌, length, map, vec_len, vec_capacity};
ghost use Rattle.std.specs.Prelude.{is_ok, IsTrue, IsFalse, IfErr, IfNone, IfSome, OnOk};
ghost use Rattle.rtrb.specs.Ring.{producer_capacity};
ghost use Rattle.lane.specs.declared.sender.TheConstants.{BLOCK};
ghost use Rattle.lane.specs.declared.item.Item.TheVariants.{One, Finish};
ghost use Rattle.lane.specs.Items.{has_mark, mark_last};
ghost use Rattle.lane.specs.Given.{items_sent, IsLimit, IsAtLimit, HasStagedOn, WasStuck};
ghost use Rattle.lane.specs.declared.giving.TheConstants.{LIST};
ghost use Rattle.lane.specs.Staging.{most_staged};

use crate::giving::{Giving, LIST};
use crate::item::Item;
use std::marker::Model;

/// The greatest number of values in a block.
pub const BLOCK: usize = 64;

/// The end that puts. It stages items in memory of its own and shows them to the taker together. For one processor to
/// look at what another has just written takes longer than all else in a put.
#[derive(Drop)]
pub struct Sender<T> {
    pub(crate) giving: Giving<T>,
    pub(crate) marked: bool,
    // what is put and not shown yet
    pub(crate) staged: Vec<Item<T>>,
    // how many items are staged at most
    pub(crate) most: usize,
    // how many this time: all that `most` and the known room allow; 0 if a look at the other end has to come first
    pub(crate) limit: usize,
    // how often a put was refused; it wraps around
    pub(crate) refusals: u64,
    ghost memory: { most ≤ vec_capacity staged },
    ghost most_is: { most ≡ most_staged (producer_capacity giving.units) },
    ghost limited: { IsLimit limit most giving staged },
    ghost known: { has_mark (items_sent giving ++ staged.items) ≡ marked },
    ghost last: { mark_last (items_sent giving ++ staged.items) ≡ true },
    ghost none_behind: { IsTrue marked → vec_len staged ≡ 0 },
}

impl<T> Model for Sender<T> {
    ghost use Rattle.std.specs.Prelude.{◌-◌, length};
    ghost use Rattle.rtrb.specs.Ring.{producer_capacity};
    ghost use Rattle.lane.specs.Lanes.{SenderState, lane_of_rings};
    ghost use Rattle.lane.specs.Given.{items_sent, room_in};

    ghost Value = { SenderState T };

    ghost view = { λ s. record {
      lane = lane_of_rings s.giving.ring.end s.giving.units.end;
      capacity = producer_capacity s.giving.units;
      of_lane = s.giving.units.writes.2;
      shown = items_sent s.giving;
      staged = s.staged.items;
      room = room_in s.giving - length s.staged.items;
      refusals = s.refusals;
    } };
}

/// The receipt of a sender that puts nothing more: all that it put.
#[derive(Drop)]
pub struct End<T> {
    pub(crate) sender: Sender<T>,
}

impl<T> Model for End<T> {
    ghost use Rattle.lane.specs.Lanes.{SenderState};

    ghost Value = { SenderState T };

    ghost view = { λ e. e.sender };
}

impl<T: Copy + Send> Sender<T> {
    ghost use Rattle.lane.specs.Lanes.{put_of, IsUnmarked, HasShown, HasAdded, HasRefused, WasFull};

    /// Puts the value behind those put before, or hands it back if the lane is full, when the taker is shown all items
    /// put. It shows values to the taker together: at the latest when `most_staged` of them are staged, or in `flush`.
    #[inline(always)]
    #[tactic(auto, using(crate::proofs::Marks::of_an_item, crate::proofs::Shown::of_a_refusal))]
    pub fn put(&mut self, value: T) -> Result<(), T>
        requires { IsUnmarked self.old }
        ensures ok { OnOk result (HasAdded (One value ∷ []) self.old self.new) }
        ensures full { IfErr result (λ x. (x ≡ value) × WasFull self.old self.new) }
        ensures staged { length self.new.staged < most_staged self.new.capacity }
        ensures unmarked { IsUnmarked self.new }
    {
        self.staged.push_reserved(Item::One(value));
        if self.staged.len() < self.limit {
            return Ok(());
        }
        match show(&mut self.giving, &mut self.staged, self.limit, self.most) {
            Some(limit) => {
                self.limit = limit;
                Ok(())
            }
            None => {
                self.refusals = self.refusals.wrapping_add(1);
                Err(value)
            }
        }
    }

    /// Shows the taker all items put.
    pub fn flush(&mut self)
        ensures { HasShown self.old self.new }
    {
        if !self.staged.is_empty() {
            self.giving.show(&mut self.staged);
            self.limit = self.giving.room().min(self.most);
        }
    }

    /// Puts a block of up to 64 values, or none of them if the lane has no room for all. It shows the taker all items
    /// put.
    #[tactic(auto, using(crate::proofs::Marks::of_values))]
    pub fn put_block(&mut self, values: &[T]) -> bool
        requires unmarked { IsUnmarked self.old }
        requires most { length values.now ≤ BLOCK }
        ensures put { IsTrue result → HasAdded (map One values.now) self.old self.new }
        ensures full { IsFalse result → HasRefused self.old self.new × (self.new.room < length values.now) }
        ensures succeeds { length values.now ≤ self.old.room → IsTrue result }
        ensures unmarked { IsUnmarked self.new }
        ensures shown { self.new.staged ≡ [] }
    {
        self.flush();
        if !self.giving.has_room_for(values.len()) {
            self.refusals = self.refusals.wrapping_add(1);
            return false;
        }
        for value in values {
            let Ok(()) = self.put(*value) else {
                unreachable!()
            };
        }
        self.flush();
        true
    }

    /// Puts the mark, which takes a place too; false if the lane is full. It shows the taker all items put.
    #[tactic(auto, using(crate::proofs::Marks::of_an_item, crate::proofs::Shown::of_a_refusal))]
    pub fn mark(&mut self) -> bool
        requires { IsUnmarked self.old }
        ensures put { IsTrue result → HasAdded (Finish ∷ []) self.old self.new }
        ensures full { IsFalse result → WasFull self.old self.new }
        ensures marked { has_mark (put_of self.new) ≡ result }
        ensures shown { self.new.staged ≡ [] }
    {
        self.flush();
        if self.giving.is_full() {
            self.refusals = self.refusals.wrapping_add(1);
            return false;
        }
        self.giving.show_mark();
        self.limit = 0;
        self.marked = true;
        true
    }

    /// The number of further items that the sender knows to have room for, without a look at the other end. While it
    /// is above 0, `put` and `mark` succeed.
    pub fn room(&self) -> usize
        ensures { result ≡ self.now.room }
    {
        self.giving.room() - self.staged.len()
    }

    /// The greatest number of items in the lane.
    pub fn capacity(&self) -> usize
        ensures { result ≡ self.now.capacity }
    {
        self.giving.units.capacity()
    }

    /// Whether the mark has been put.
    pub fn marked(&self) -> bool
        ensures { result ≡ has_mark (put_of self.now) }
    {
        self.marked
    }

    /// The receipt, which holds the sender. It shows the taker all items put.
    pub fn end(mut self) -> End<T>
        ensures { HasShown self result }
    {
        self.flush();
        End { sender: self }
    }
}

// How many items a sender of a lane of this capacity stages at most.
pub(crate) fn most_staged(capacity: usize) -> usize
    ensures { result ≡ most_staged capacity }
{
    (capacity / 4).min(LIST).max(1)
}

// Shows the taker what is staged, and says how many items may be staged next. It shows fewer than the most only if a
// look at the other end finds no room for more; else they stay staged. `None` if the lane is full; then the item is
// staged no more.
#[cold]
#[inline(never)]
fn show<T: Copy + Send>(
    giving: &mut Giving<T>,
    staged: &mut Vec<Item<T>>,
    limit: usize,
    most: usize,
) -> Option<usize>
    requires { IsAtLimit limit most giving.old staged.old }
    ensures some { IfSome result (λ next. HasStagedOn most next giving.old giving.new staged.old staged.new) }
    ensures none { IfNone result (WasStuck limit giving.old giving.new staged.old staged.new) }
{
    if limit == 0 && giving.is_full() {
        staged.clear();
        return None;
    }
    if staged.len() < most && giving.has_room_for(staged.len() + 1) {
        return Some(giving.room().min(most));
    }
    giving.show(staged);
    Some(giving.room().min(most))
}
