mod answering;
mod asking;
mod collecting;
mod detecting;
mod lanes;
mod nesting;
mod nothing;
mod rows;
mod touching;
mod working;

use std::hash::{BuildHasherDefault, FoldHasher};
use trace::Race;

pub type Hasher = BuildHasherDefault<FoldHasher>;

/// A race: its location, and the places of its accesses.
pub type Reported = (u64, u64, u64);

/// How often a call is made before it has to succeed: a run refuses two growths at most.
pub const TRIES: u32 = 3;

/// Prints that a call was refused.
pub fn print_refused<R: Print>(rt: &R, what: &str) {
    let _ = rt.println(format_args!("refused {what}"));
}

pub fn reported(race: Race) -> Reported {
    (race.location, race.first.place, race.second.place)
}
