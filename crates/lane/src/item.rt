//! The items of a lane.
ghost use Rattle.std.specs.Prelude.{◌≡◌};
ghost use Rattle.lane.specs.Items.{is_finish};
ghost use Rattle.lane.specs.Slots.{is_mark};

use rtrb::Protocol;

/// An item of a lane: a value, or the mark behind the last value.
#[derive(Clone, Copy, Debug, PartialEq, Eq)]
pub enum Item<T> {
    One(T),
    Finish,
}

impl<T> Item<T> {
    pub(crate) fn is_finish(&self) -> bool
        ensures { result ≡ is_finish self.now }
    {
        matches!(self, Item::Finish)
    }
}

/// What the taker is shown at once: an item, or a list of items.
#[derive(Drop)]
pub enum Slot<T> {
    Single(Item<T>),
    Several(Vec<Item<T>>),
}

impl<T> Slot<T> {
    pub(crate) fn is_mark(&self) -> bool
        ensures { result ≡ is_mark self.now }
    {
        matches!(self, Slot::Single(Item::Finish))
    }
}

/// Nothing follows the mark.
pub struct MarkLast;

impl<T> Protocol<Slot<T>> for MarkLast {
    ghost use Rattle.lane.specs.Slots.{AllowsSlot};

    ghost allows = { AllowsSlot };
}
