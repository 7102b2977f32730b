//! Tests of `trace`, `collect`, `audit`, `texts`, `words` and `replies`. They are in one crate, since a crate with
//! tests is proved once more with them, and each crate of tests reads all that it stands on.
#![tactic(auto)]

#[cfg(test)]
mod tests;
