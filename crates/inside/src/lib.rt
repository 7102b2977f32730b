//! The detector for a program in C, as a static library. `tracer/include/spbags_inside.h`
//! says what its functions need and do.
#![tactic(auto)]

mod exports;
mod handle;
mod session;
#[cfg(test)]
mod tests;
mod text;
