//! Reports: the races of a trace by ascending location, collected race by race, and their text.
#![tactic(auto)]

mod bounded;
mod collectors;
pub mod laws;
mod readers;
mod reports;
mod writers;

pub use bounded::{MOST_BYTES, ReportRefusal, report_from};
pub use collectors::Collector;
pub use readers::{ReportFault, read_report};
pub use reports::Report;
pub use writers::write_report;
