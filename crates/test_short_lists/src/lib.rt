//! What `detect` and `audit` answer to every short list of records. These tests are a crate of their own, since they
//! take too long without a proof.
#![tactic(auto)]

#[cfg(test)]
mod tests;
