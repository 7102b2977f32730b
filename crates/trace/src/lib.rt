//! Traces of fork-join programs: their records, their text, and how they nest.
#![tactic(auto)]

mod cut;
mod devices;
mod digits;
mod faults;
mod front;
mod intake;
pub mod laws;
mod line;
mod nesting;
mod numbers;
mod parallel;
mod reading;
mod spelled;
mod watching;
mod writers;

pub use dag::{
    Access, Back, Kind, Limits, MOST_RECORDS, NoMemory, Part, Placed, Race, Record, Version,
};
pub use devices::{Counted, Failed, Sink, Source};
pub use faults::{Fault, NestFault, NestKind, TextFault, TextKind, WriteFault};
pub use intake::{Feed, Intake};
pub use line::Line;
pub use nesting::Nest;
pub use numbers::decimal_of;
pub use parallel::is_parallel;
pub use reading::{Reader, Taken};
pub use watching::{Watch, read_to_end};
pub use writers::{put_all, write_header, write_record};
