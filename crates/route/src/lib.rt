//! The router: it sends each record to the lanes whose share has it, one put a step. So a full lane stops it and
//! loses nothing.
#![tactic(auto)]

mod lanes_for;
pub mod laws;
mod progress;
mod router;

pub use progress::{Full, Progress};
pub use router::Router;
