//! The end of a lane that takes.
ghost use Rattle.std.specs.Prelude.{◌≡◌, ◌+◌, ◌-◌, ◌%◌, ◌^◌, ◌<◌, ◌≤◌, min, true, false, [], ◌∷◌, ◌++◌};
ghost use Rattle.std.specs.Prelude.{length, take, drop, vec_len, vec_capacity, IfSome, IfNone, IsSome, IsTrue, IsFalse};
ghost use Rattle.rtrb.specs.Ring.{sent, producer_capacity, received, known_items, consumer_capacity, IsPair};
ghost use Rattle.rtrb.specs.Ring.{SameConsumer};
ghost use Rattle.lane.specs.Hands.{MayLook, HaveLooked};
ghost use Rattle.lane.specs.Items.{has_mark, mark_last, IsBeginning};
ghost use Rattle.lane.specs.Slots.{items_in, all_items, HasItem, taken_before, HoldsRest};

use crate::giving::{Giving, LIST};
use crate::item::{Item, MarkLast, Slot};
use crate::sender::{End, Sender, most_staged};
use rtrb::{Consumer, Producer};
use std::alloc::Global;
use std::marker::Model;
use std::mem::replace;

/// The end that takes.
#[derive(Drop)]
pub struct Taker<T> {
    pub(crate) ring: Consumer<Slot<T>, Global, MarkLast>,
    pub(crate) units: Consumer<(), Global>,
    pub(crate) emptied: Producer<Vec<Item<T>>, Global>,
    // the list in hand: what stands before `at` is taken, and what stands from `from` on was taken at once
    pub(crate) list: Vec<Item<T>>,
    pub(crate) from: usize,
    pub(crate) at: usize,
    // how many units of what is taken are still to be taken, in a counter that wraps around
    pub(crate) owed: usize,
    // how many items behind the list in hand are known to be there
    pub(crate) known: usize,
    // whether the mark is in hand, or taken
    pub(crate) last: bool,
    ghost within: { (from ≤ at) × (at ≤ vec_len list) },
    ghost hand: { HoldsRest (all_items (received ring)) (drop at list.items) },
    ghost memory: { 1 ≤ vec_capacity list },
    ghost paid: { length (received units) ≤ length (taken_before (all_items (received ring)) (drop at list.items)) },
    ghost owes: { owed ≡ (length (taken_before (all_items (received ring)) (drop at list.items))
        - length (received units)) % 2 ^ 64 },
    ghost counted: { (known ≤ length (all_items (known_items ring))) × (known ≤ consumer_capacity units) },
    ghost came: { has_mark (all_items (received ring)) ≡ last },
    ghost behind: { mark_last (all_items (received ring)) ≡ true },
}

impl<T> Model for Taker<T> {
    ghost use Rattle.std.specs.Prelude.{◌++◌, ◌-◌, take, drop};
    ghost use Rattle.rtrb.specs.Ring.{received, known_items, consumer_capacity};
    ghost use Rattle.lane.specs.Lanes.{TakerState, lane_of_rings};
    ghost use Rattle.lane.specs.Slots.{all_items, taken_before};

    ghost Value = { TakerState T };

    ghost view = { λ t. record {
      lane = lane_of_rings t.ring.end t.units.end;
      capacity = consumer_capacity t.units;
      of_lane = t.units.reads.2;
      taken = taken_before (all_items (received t.ring)) (drop t.at t.list.items);
      waiting = drop t.at t.list.items ++ take t.known (all_items (known_items t.ring));
      near = drop t.at t.list.items ++ all_items (known_items t.ring);
      rest = drop t.at t.list.items;
      list = take (t.at - t.from) (drop t.from t.list.items);
    } };
}

impl<T: Copy + Send> Taker<T> {
    ghost use Rattle.lane.specs.Lanes.{put_of, known_taken, SameTaker, AreCompared};
    ghost use Rattle.lane.specs.Hands.{HasInHand};

    /// The next item, or `None` if the lane is empty; after the mark always `None`.
    pub fn take(&mut self) -> Option<Item<T>>
        ensures lane { SameTaker self.old self.new }
        ensures some { IfSome result (λ x. (self.new.taken ≡ self.old.taken ++ x ∷ [])
            × (has_mark self.old.taken ≡ false)) }
        ensures none { IfNone result (self.new.taken ≡ self.old.taken) }
        ensures succeeds { 0 < length self.old.waiting → has_mark self.old.taken ≡ false → IsSome result }
        ensures near { 0 < length self.old.near → has_mark self.old.taken ≡ false → IsSome result }
        ensures ended { has_mark self.old.taken ≡ true → result ≡ None }
    {
        if self.has_ended() {
            return None;
        }
        self.take_next()
    }

    // The next item that is there.
    #[inline(always)]
    #[tactic(auto, using(crate::proofs::Taken::of_an_item))]
    fn take_next(&mut self) -> Option<Item<T>>
        ensures lane { SameTaker self.old self.new }
        ensures some { IfSome result (λ x. self.new.taken ≡ self.old.taken ++ x ∷ []) }
        ensures none { IfNone result (self.new.taken ≡ self.old.taken) }
        ensures near { length self.old.near ≤ length self.new.near + 1 }
        ensures none_near { IfNone result (length self.old.near ≡ 0) }
        ensures none_waits { IfNone result (length self.old.waiting ≡ 0) }
        ensures last { mark_last self.new.taken ≡ true }
    {
        if !self.has_next() {
            return None;
        }
        let item = self.list[self.at];
        self.at += 1;
        self.owed = take_units(&mut self.units, self.owed, 1);
        Some(item)
    }

    /// Takes the next items that are there, at most as many as the slice holds, and returns their number. They are at
    /// the front of the slice; the rest of the slice means nothing. After the mark it takes none.
    pub fn take_block(&mut self, items: &mut [Item<T>]) -> usize
        ensures lane { SameTaker self.old self.new }
        ensures within { result ≤ length items.old }
        ensures least { has_mark self.old.taken ≡ false
            → min (length self.old.waiting) (length items.old) ≤ result }
        ensures near { has_mark self.old.taken ≡ false → min (length self.old.near) (length items.old) ≤ result }
        ensures taken { self.new.taken ≡ self.old.taken ++ take result items.new }
        ensures last { mark_last self.new.taken ≡ true }
        ensures ended { has_mark self.old.taken ≡ true → result ≡ 0 }
    {
        if self.has_ended() {
            return 0;
        }
        self.take_each(items)
    }

    // Takes the next items that are there, as many as the slice holds.
    fn take_each(&mut self, items: &mut [Item<T>]) -> usize
        requires { mark_last self.old.taken ≡ true }
        ensures lane { SameTaker self.old self.new }
        ensures within { result ≤ length items.old }
        ensures least { min (length self.old.near) (length items.old) ≤ result }
        ensures taken { self.new.taken ≡ self.old.taken ++ take result items.new }
        ensures last { mark_last self.new.taken ≡ true }
    {
        let count = items.len();
        for at in 0..count {
            match self.take_next() {
                Some(item) => items[at] = item,
                None => return at,
            }
        }
        count
    }

    /// Takes a list of items that are there, and returns their number. `list` has them until the next take.
    #[tactic(auto, using(crate::proofs::Taken::of_a_list))]
    pub fn take_list(&mut self) -> usize
        ensures lane { SameTaker self.old self.new }
        ensures taken { self.new.taken ≡ self.old.taken ++ self.new.list }
        ensures count { result ≡ length self.new.list }
        ensures some { 0 < length self.old.waiting → has_mark self.old.taken ≡ false → 0 < result }
        ensures near { 0 < length self.old.near → has_mark self.old.taken ≡ false → 0 < result }
        ensures last { mark_last self.new.taken ≡ true }
        ensures ended { has_mark self.old.taken ≡ true → result ≡ 0 }
    {
        if self.has_ended() {
            self.from = self.at;
            return 0;
        }
        if !self.has_next() {
            self.from = self.at;
            return 0;
        }
        let count = self.list.len() - self.at;
        self.from = self.at;
        self.at = self.list.len();
        self.owed = take_units(&mut self.units, self.owed, count);
        count
    }

    /// What the last `take_list` took.
    pub fn list(&self) -> &[Item<T>]
        ensures { result.now ≡ self.now.list }
    {
        &self.list[self.from..self.at]
    }

    // Whether the list in hand has an item that isn't taken. If it had none, the next one comes into its place.
    #[inline(always)]
    #[tactic(auto, using(crate::proofs::Taken::of_the_rest))]
    fn has_next(&mut self) -> bool
        ensures { HasInHand result self.old self.new }
    {
        self.at < self.list.len() || self.next_list()
    }

    // Gets the next list, and gives back the one in hand, of which nothing is left. Whether there was one.
    #[tactic(auto, using(crate::proofs::Taken::of_a_slot))]
    fn next_list(&mut self) -> bool
        requires { length self.old.rest ≡ 0 }
        ensures { HasInHand result self.old self.new }
    {
        let Ok(slot) = self.ring.pop() else {
            self.owed = pop_units(&mut self.units, self.owed);
            return false;
        };
        self.last = slot.is_mark();
        self.known = 0;
        self.from = 0;
        self.at = 0;
        if let Some(list) = put_in_place(&mut self.list, slot) {
            give_back(&mut self.emptied, list);
        }
        true
    }

    /// The number of waiting items that the taker knows of, without a look at the other end. While it is above 0 and
    /// the mark isn't taken, `take` gives an item.
    pub fn ready(&self) -> usize
        ensures { result ≡ length self.now.waiting }
    {
        self.list.len() - self.at + self.known
    }

    /// The greatest number of items in the lane.
    pub fn capacity(&self) -> usize
        ensures { result ≡ self.now.capacity }
    {
        self.units.capacity()
    }

    /// Whether the mark has been taken.
    pub fn ended(&self) -> bool
        ensures { result ≡ has_mark self.now.taken }
    {
        self.has_ended()
    }

    // Whether the mark has been taken.
    #[inline(always)]
    #[tactic(auto, using(crate::proofs::Taken::of_the_rest))]
    fn has_ended(&self) -> bool
        ensures ended { result ≡ has_mark self.now.taken }
        ensures near { length self.now.waiting ≤ length self.now.near }
        ensures last { mark_last self.now.taken ≡ true }
    {
        self.last && self.at == self.list.len()
    }

    /// Both ends look at each other: the items taken, and then those that wait, are the items put. What the sender knew
    /// to be taken was taken, and it knows of all that is.
    #[tactic(auto, using(crate::proofs::Taken::of_both))]
    pub fn beside(&mut self, sender: &mut Sender<T>)
        requires { sender.old.lane ≡ self.old.lane }
        ensures compared { AreCompared self.old self.new sender.old sender.new }
        ensures knows { length self.new.taken ≤ known_taken sender.new }
    {
        sender.flush();
        let rest = self.list.len() - self.at;
        self.known = look(
            &mut sender.giving,
            &mut self.ring,
            &mut self.units,
            rest,
            self.owed,
        );
        self.owed = 0;
    }

    /// Compares the ends of one lane: the items taken are a prefix of the items put, and with the mark all of them.
    #[tactic(auto, using(crate::proofs::Marks::all_taken))]
    pub fn settle(&mut self, end: &mut End<T>)
        requires { end.old.lane ≡ self.old.lane }
        ensures compared { AreCompared self.old self.new end.old end.new }
        ensures prefix { IsBeginning self.new.taken (put_of end.new) }
        ensures whole { has_mark self.new.taken ≡ true → self.new.taken ≡ put_of end.new }
    {
        self.beside(&mut end.sender);
    }
}

// Puts the items of the slot into the place of the list, and returns the list that stood there if it is needed no more.
fn put_in_place<T: Copy + Send>(list: &mut Vec<Item<T>>, slot: Slot<T>) -> Option<Vec<Item<T>>>
    requires memory { 1 ≤ vec_capacity list.old }
    requires some { HasItem slot }
    ensures items { list.new.items ≡ items_in slot }
    ensures memory { 1 ≤ vec_capacity list.new }
{
    match slot {
        Slot::Several(next) => Some(replace(list, next)),
        Slot::Single(item) => {
            list.clear();
            list.push_reserved(item);
            None
        }
    }
}

// Gives an emptied list back to the sender. There is room for all lists.
fn give_back<T: Copy + Send>(emptied: &mut Producer<Vec<Item<T>>, Global>, list: Vec<Item<T>>) {
    let mut list = list;
    list.clear();
    let _ = emptied.push(list);
}

// Takes the units of `count` items more once a whole list of units is owed: for a few the sender shows a short list,
// which frees as few again. It says how many are owed then, in a counter that wraps around.
fn take_units(units: &mut Consumer<(), Global>, owed: usize, count: usize) -> usize
    ensures same { SameConsumer units.old units.new }
    ensures more { length (received units.old) ≤ length (received units.new) }
    ensures taken { length (received units.new) + result ≡ length (received units.old) + (owed + count) % 2 ^ 64 }
{
    let all = owed.wrapping_add(count);
    if all < most_staged(units.capacity()) {
        return all;
    }
    pop_units(units, all)
}

// Takes up to so many units, as far as they are there, and says how many are left.
fn pop_units(units: &mut Consumer<(), Global>, owed: usize) -> usize
    ensures same { SameConsumer units.old units.new }
    ensures more { length (received units.old) ≤ length (received units.new) }
    ensures taken { length (received units.new) + result ≡ length (received units.old) + owed }
{
    let mut some = [(); LIST];
    let most = owed.min(LIST);
    owed - units.pop_partial_slice(&mut some[..most])
}

// Both ends look at each other, and all units that are owed are taken; `rest` of the items that have come aren't taken.
// How many items are behind these.
#[tactic(auto, using(crate::proofs::Taken::of_both))]
fn look<T: Copy + Send>(
    giving: &mut Giving<T>,
    ring: &mut Consumer<Slot<T>, Global, MarkLast>,
    units: &mut Consumer<(), Global>,
    rest: usize,
    owed: usize,
) -> usize
    requires { MayLook giving.old ring.old units.old rest owed }
    ensures { HaveLooked giving.old giving.new ring.old ring.new units.old units.new rest result }
{
    giving.ring.slots_beside(ring);
    ring.slots_beside(&mut giving.ring);
    units.slots_beside(&mut giving.units);
    pay(units, owed);
    let behind = units.cached_slots() - rest;
    giving.units.slots_beside(units);
    behind
}

// Takes so many units, which are there.
fn pay(units: &mut Consumer<(), Global>, owed: usize)
    requires { owed ≤ length (known_items units.old) }
    ensures same { SameConsumer units.old units.new }
    ensures taken { length (received units.new) ≡ length (received units.old) + owed }
    ensures known { length (known_items units.new) + owed ≡ length (known_items units.old) }
{
    for _ in 0..owed {
        units.pop_known();
    }
}
