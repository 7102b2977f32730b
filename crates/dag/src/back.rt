//! What a shard of the locations hands back.
use crate::records::Race;

/// What a shard hands back.
#[derive(Clone, Copy, Debug, PartialEq, Eq)]
pub enum Back {
    /// A race, reported at its second access.
    Race(Race),
    /// The allocator refused a growth. The shard reports no race after it.
    NoMemory,
}
