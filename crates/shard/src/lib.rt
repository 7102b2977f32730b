//! A shard of the detector: its state, the worker that runs it on a lane, and what the worker hands back.
#![tactic(auto)]

mod backs;
mod gate;
mod shard;
mod worker;
mod worker_loop;

pub use dag::Back;
pub use gate::{Gate, Open};
pub use shard::Shard;
pub use worker_loop::{Worked, work};
