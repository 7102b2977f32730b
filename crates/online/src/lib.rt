//! A detector of a run that is under way: it takes records one by one, and the accesses of a strand to a block at once.
#![tactic(auto)]

mod detector;

pub use detector::{Detector, Refusal};
