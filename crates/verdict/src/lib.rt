//! What a report says of a trace, and the laws by which it is the trace's: the races that the rules of SP-bags find are
//! those of the dag, also where accesses are left out that repeat earlier ones of their strand.
#![tactic(auto)]

pub mod laws;
