//! Traces, reports, answers and messages: worked rows, whole and cut, and sources and sinks that fail.

mod answers;
mod parallel;
mod parts;
mod reports;
mod rows;
mod samples;
mod sinks;
