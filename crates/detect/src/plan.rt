//! The plan of a run.
ghost use Rattle.std.specs.Prelude.{◌≡◌};
ghost use Rattle.dag.specs.Bounds.{IsShardCount, IsCapacity};

use trace::Limits;

/// The number of shards, the maximum number of items in each lane, and the limits of the trace.
#[derive(Clone, Copy, Debug, PartialEq, Eq)]
pub struct Plan {
    pub(crate) shards: u32,
    pub(crate) capacity: u32,
    pub(crate) limits: Limits,
    ghost shards_within: { IsShardCount shards },
    ghost capacity_within: { IsCapacity capacity },
}

impl Plan {
    /// A plan for 1 to 64 shards, with lanes that hold 1 to 65536 items. The mark is an item.
    pub fn new(shards: u32, capacity: u32, limits: Limits) -> Plan
        requires shards { IsShardCount shards }
        requires capacity { IsCapacity capacity }
        ensures shards { result.shards ≡ shards }
        ensures capacity { result.capacity ≡ capacity }
        ensures limits { result.limits ≡ limits }
    {
        Plan {
            shards,
            capacity,
            limits,
        }
    }
}
