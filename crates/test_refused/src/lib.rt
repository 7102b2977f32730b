//! The calls of the crates when a growth is refused. `checks/growths` runs these tests with the first growth refused,
//! in a next run the second, and so on. A test reports each refusal by a line on standard output, and repeats a call
//! that changed nothing. Tests that end in `_with` ask for no more than those in `_without`.
#![tactic(auto)]

#[cfg(test)]
mod tests;
