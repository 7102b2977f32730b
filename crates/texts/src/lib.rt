//! The texts that the program writes, byte for byte.
#![tactic(auto)]

mod audits;
mod explanations;
mod messages;

pub use audits::{put_confirm, put_measure, put_pairs};
pub use explanations::put_explained;
pub use messages::{say, say_fault, say_merge_refusal, say_refusal};
