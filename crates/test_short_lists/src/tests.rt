//! Detection, and the questions, against the definitions.

mod lists;
mod questions;
