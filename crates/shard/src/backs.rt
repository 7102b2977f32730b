//! Puts on the lane back, as soon as there is room.
ghost use Rattle.std.specs.Prelude.{◌≡◌, [], ◌∷◌, ◌++◌};
ghost use Rattle.lane.specs.declared.item.Item.TheVariants.{One, Finish};
ghost use Rattle.lane.specs.Lanes.{put_of, IsUnmarked};

use crate::Back;
use lane::{End, Sender};
use std::sync::Wait;
use std::time::Clock;
use waiting::Waiting;

/// Puts the value, as soon as there is room.
#[cold]
#[inline(never)]
pub fn put_back<R: Wait + Clock>(rt: &R, back: &mut Sender<Back>, value: Back)
    requires { IsUnmarked back.old }
    ensures lane { back.new.lane ≡ back.old.lane }
    ensures put { put_of back.new ≡ put_of back.old ++ One value ∷ [] }
    ensures unmarked { IsUnmarked back.new }
{
    let mut left = value;
    let mut waiting = Waiting::new();
    for _ in rt.forever() {
        match back.put(left) {
            Ok(()) => return,
            Err(value) => left = value,
        }
        waiting.wait(rt, 0);
    }
    unreachable!()
}

/// Puts the mark, as soon as there is room, and gives the receipt.
pub fn mark<R: Wait + Clock>(rt: &R, mut back: Sender<Back>) -> End<Back>
    requires { IsUnmarked back }
    ensures lane { result.lane ≡ back.lane }
    ensures put { put_of result ≡ put_of back ++ Finish ∷ [] }
    ensures shown { result.shown ≡ put_of result }
{
    let mut waiting = Waiting::new();
    for _ in rt.forever() {
        if back.mark() {
            return back.end();
        }
        waiting.wait(rt, 0);
    }
    unreachable!()
}
