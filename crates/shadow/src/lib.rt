//! Shadow memory: the kept writer and reader of each location, by the read rule and the write rule of SP-bags.
#![tactic(auto)]

mod names;
mod page;
mod pages;
mod recent;
mod shadow;
mod sp_bags;
mod spot;

pub use pages::{CellPage, Guesses, Pages};
pub use shadow::Shadow;
pub use sp_bags::SpBags;
