//! Shadow memory by blocks of 64 units, of which a strand's accesses come together.
#![tactic(auto)]

mod block_shadow;
mod groups;
mod masks;
mod page;
mod recent;
mod step;

pub use block_shadow::BlockShadow;
