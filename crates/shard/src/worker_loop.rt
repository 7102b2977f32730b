//! The worker's loop.
ghost use Rattle.std.specs.Prelude.{◌≡◌, []};
ghost use Rattle.lane.specs.Lanes.{put_of};
ghost use Rattle.shard.specs.Shards.{IsFresh};
ghost use Rattle.shard.specs.Worked.{DidWork};

use crate::Back;
use crate::backs::mark;
use crate::gate::Gate;
use crate::shard::Shard;
use crate::worker::Worker;
use dag::Placed;
use lane::{End, Sender, Taker};
use std::hash::BuildHasher;
use std::sync::Wait;
use std::time::Clock;
use waiting::Waiting;

/// What a worker returns: its taker, the receipt of its lane back, and its shard.
#[derive(Drop)]
pub struct Worked<S: BuildHasher + Drop> {
    /// The taker of the lane to the shard, which has given the mark.
    pub taker: Taker<Placed>,
    /// The receipt of the lane back: all its items, with the mark.
    pub back: End<Back>,
    /// The shard after all records of the lane.
    pub shard: Shard<S>,
}

/// Runs a shard on the records of a lane up to the mark, and puts its races on the lane back.
///
/// It takes a list of records at a time. Each record passes the gate before the shard applies it. Each race goes on
/// the lane back; if that is full the worker tries again, and behind the list it shows the races. After a
/// refused growth it puts `Back::NoMemory` once, applies nothing more, and goes on taking. At the mark it marks the
/// lane back. The shard applies neither a record that it doesn't accept nor any after it; it accepts every record of
/// a share.
///
/// ```rust
/// let (mut sender, taker) = lane::<Placed>(rt.alloc(), 16)?;
/// let (back, mut races) = lane::<Back>(rt.alloc(), 16)?;
/// let (spawn, write) = (Record::Spawn, Record::Write(3));
/// for (place, what) in [(1, spawn), (2, write), (3, Record::Return), (4, write)] {
///     assert!(rt; sender.put(Placed { place, what }).is_ok());
/// }
/// assert!(rt; sender.mark());
/// let shard = Shard::new(rt.alloc(), 0, BuildHasherDefault::<FoldHasher>::default())?;
/// let done = work(&rt, shard, taker, back, &Open);
/// assert!(rt; done.shard.taken() == 4 && matches!(races.take(), Some(Item::One(Back::Race(_)))));
/// ```
pub fn work<R: Wait + Clock, S: BuildHasher + Drop, G: Gate>(
    rt: &R,
    shard: Shard<S>,
    mut taker: Taker<Placed>,
    back: Sender<Back>,
    gate: &G,
) -> Worked<S>
    requires new { IsFresh shard }
    requires none_taken { taker.taken ≡ [] }
    requires none_put { put_of back ≡ [] }
    ensures { DidWork taker back result }
{
    let mut waiting = Waiting::beside(shard.shards(), taker.capacity());
    let mut worker = Worker {
        shard,
        back,
        stopped: false,
    };
    for _ in rt.forever() {
        let count = taker.take_list();
        worker.apply_block(rt, gate, taker.list());
        if taker.ended() {
            let Worker {
                shard,
                back,
                stopped: _,
            } = worker;
            return Worked {
                taker,
                back: mark(rt, back),
                shard,
            };
        }
        if count == 0 {
            waiting.wait(rt, worker.shard.taken());
        }
    }
    unreachable!()
}
