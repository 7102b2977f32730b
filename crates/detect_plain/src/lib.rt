//! Detection in one thread.
#![tactic(auto)]

mod detector;
pub mod laws;
mod plain;

pub use plain::{detect_plain, detect_plain_part};
