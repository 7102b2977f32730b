//! What the tests of several crates have in common: a source that hands out pieces, and the answers by the definitions.
#![tactic(auto)]

pub mod by_definition;
pub mod devices;
