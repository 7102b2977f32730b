//! Questions about one trace, answered over its dag: its measures, all races of one location, why the reported race
//! of a location is one, and whether the entries of a report are races.
#![tactic(auto)]

mod answers;
mod confirms;
mod explanations;
pub mod laws;
mod location_races;
mod measures;
mod meetings;

pub use answers::{Confirm, Explained, Measure, Opener, Opening};
pub use confirms::confirm;
pub use explanations::explain;
pub use location_races::pairs;
pub use measures::measure;
