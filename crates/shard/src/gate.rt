//! The gate that a worker passes before it takes a record.

/// A gate that a worker passes at each record. It may watch the worker, or hold it up.
pub trait Gate {
    /// The shard of this number is about to take the record at this place.
    fn pass(&self, shard: u32, place: u64);
}

/// The gate that does nothing.
#[derive(Clone, Copy, Debug, PartialEq, Eq)]
pub struct Open;

impl Gate for Open {
    fn pass(&self, _shard: u32, _place: u64) {}
}
