//! Lanes: bounded queues of one sender and one taker, with a finish mark and a receipt of the items put.
#![tactic(auto)]

mod ends;
mod giving;
mod item;
mod sender;
mod taker;

pub use ends::lane;
pub use item::Item;
pub use sender::{BLOCK, End, Sender};
pub use taker::Taker;
