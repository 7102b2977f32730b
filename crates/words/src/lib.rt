//! The words of a command line, and what they ask for.
#![tactic(auto)]

mod asking;
mod commands;
mod reading;

pub use asking::{
    Asked, CheckWords, ConfirmWords, LocationWords, MeasureWords, MergeWords, Question,
};
pub use commands::VERSION;
pub use reading::{WordsFault, read_words};
