//! The records of a fork-join program's trace, the dag that they make, and its races.
#![tactic(auto)]

mod back;
pub mod laws;
mod no_memory;
mod part;
mod records;

pub use back::Back;
pub use no_memory::NoMemory;
pub use part::Part;
pub use records::{Access, Kind, Limits, MOST_RECORDS, Placed, Race, Record, Version};
