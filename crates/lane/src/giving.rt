//! The sender's end of what a lane is made of.
ghost use Rattle.std.specs.Prelude.{◌≡◌, ◌+◌, ◌≤◌, ◌↔◌, true, false, [], ◌∷◌, ◌++◌, length, IsTrue};
ghost use Rattle.std.specs.Prelude.{vec_len, vec_capacity};
ghost use Rattle.rtrb.specs.Ring.{sent, known_free, producer_capacity, SameProducer};
ghost use Rattle.lane.specs.declared.giving.TheConstants.{LIST};
ghost use Rattle.lane.specs.Items.{has_mark};
ghost use Rattle.lane.specs.declared.item.Item.TheVariants.{Finish};
ghost use Rattle.lane.specs.Slots.{all_items, have_items};
ghost use Rattle.lane.specs.Joining.{MayJoin, HasJoined};

use crate::item::{Item, MarkLast, Slot};
use rtrb::{Consumer, Producer};
use std::alloc::Global;
use std::mem::replace;

/// What the taker is shown, a unit for each item of that, and the lists that the taker has emptied.
///
/// The units count the items: a place of the ring is free as soon as the taker has the list that stood there, but may
/// have held any number of items.
#[derive(Drop)]
pub(crate) struct Giving<T> {
    pub(crate) ring: Producer<Slot<T>, Global, MarkLast>,
    pub(crate) units: Producer<(), Global>,
    pub(crate) emptied: Consumer<Vec<Item<T>>, Global>,
    ghost counted: { length (sent units) ≡ length (all_items (sent ring)) },
    ghost sized: { producer_capacity units ≡ producer_capacity ring },
    ghost some: { have_items (sent ring) ≡ true },
}

/// The greatest number of items in a list.
pub(crate) const LIST: usize = 256;

const UNITS: [(); LIST] = [(); LIST];

impl<T: Copy + Send> Giving<T> {
    ghost use Rattle.lane.specs.Given.{items_sent, room_in, SameGiving, HasLooked, MayShow, HasShownList};

    /// For how many items more there is known to be room.
    #[inline(always)]
    pub(crate) fn room(&self) -> usize
        ensures { result ≡ room_in self.now }
    {
        self.units.cached_slots().min(self.ring.cached_slots())
    }

    /// Whether there is no room. It looks at the taker's end if none is known.
    #[tactic(auto, using(crate::proofs::Shown::length_all))]
    pub(crate) fn is_full(&mut self) -> bool
        ensures looked { HasLooked self.old self.new }
        ensures value { IsTrue result ↔ (room_in self.new ≡ 0) }
        ensures filled { IsTrue result → producer_capacity self.new.units ≤ length (items_sent self.new) }
    {
        self.units.is_full() || self.ring.is_full()
    }

    /// Whether there is room for so many items. It looks at the taker's end if less is known.
    pub(crate) fn has_room_for(&mut self, count: usize) -> bool
        ensures looked { HasLooked self.old self.new }
        ensures value { IsTrue result ↔ (count ≤ room_in self.new) }
    {
        (self.units.cached_slots() >= count || self.units.slots() >= count)
            && (self.ring.cached_slots() >= count || self.ring.slots() >= count)
    }

    /// Shows the taker these items, for which there is room, and leaves an empty list that isn't smaller.
    #[tactic(auto, using(crate::proofs::Shown::of_items))]
    pub(crate) fn show(&mut self, staged: &mut Vec<Item<T>>)
        requires { MayShow self.old staged.old }
        ensures { HasShownList self.old self.new staged.old staged.new }
    {
        let Ok(()) = self.units.push_entire_slice(&UNITS[..staged.len()]) else {
            unreachable!()
        };
        if let Ok(list) = self.emptied.pop() {
            if list.is_empty() && staged.capacity() <= list.capacity() {
                show_list(&mut self.ring, replace(staged, list));
                return;
            }
        }
        show_each(&mut self.ring, staged);
    }

    /// Shows the taker the mark, for which there is room.
    #[tactic(auto, using(crate::proofs::Shown::of_the_mark))]
    pub(crate) fn show_mark(&mut self)
        requires room { 1 ≤ room_in self.old }
        requires unmarked { has_mark (items_sent self.old) ≡ false }
        ensures same { SameGiving self.old self.new }
        ensures shown { items_sent self.new ≡ items_sent self.old ++ Finish ∷ [] }
        ensures room { room_in self.old ≤ room_in self.new + 1 }
    {
        self.units.push_reserved(());
        self.ring.push_reserved(Slot::Single(Item::Finish));
    }
}

// Shows the taker this list, which has an item.
#[tactic(auto, using(crate::proofs::Shown::of_a_list))]
fn show_list<T: Copy + Send>(ring: &mut Producer<Slot<T>, Global, MarkLast>, list: Vec<Item<T>>)
    requires item { 1 ≤ vec_len list }
    requires may { MayJoin ring.old list.items }
    ensures { HasJoined list.items ring.old ring.new }
{
    ring.push_reserved(Slot::Several(list));
}

// Shows the taker these items one by one.
fn show_each<T: Copy + Send>(
    ring: &mut Producer<Slot<T>, Global, MarkLast>,
    staged: &mut Vec<Item<T>>,
)
    requires { MayJoin ring.old staged.old.items }
    ensures joined { HasJoined staged.old.items ring.old ring.new }
    ensures room { known_free ring.old ≡ known_free ring.new + vec_len staged.old }
    ensures none { staged.new.items ≡ [] }
    ensures memory { vec_capacity staged.new ≡ vec_capacity staged.old }
{
    for at in 0..staged.len() {
        ring.push_reserved(Slot::Single(staged[at]));
    }
    staged.clear();
}
