//! Determinacy races of a trace, with a thread for each shard.
#![tactic(auto)]

mod closing;
mod gathering;
mod made;
mod plan;
mod reading_thread;
mod sharded;
mod workers;

pub use detect_plain::{detect_plain, detect_plain_part};
pub use plan::Plan;
pub use sharded::{Run, detect, detect_part};
