//! A report: the races of a trace.
ghost use Rattle.std.specs.Prelude.{◌≡◌, map};
ghost use Rattle.collect.specs.Reports.{IsReportList};
ghost use Rattle.collect.specs.Located.{HaveLocations, located_at};

use std::marker::Model;
use trace::{Part, Race};

/// Races, strictly ascending by location.
///
/// ```rust
/// let report = read_report(rt.alloc(), b"races 1\nrace 5 write 2 read 4\n")?;
/// assert_eq!(rt; report.races().len(), 1);
/// let race = report.races()[0];
/// assert!(rt; (race.location, race.first.place, race.second.place) == (5, 2, 4));
/// let mut text = Vec::new(rt.alloc());
/// write_report(&report, &mut Counted::new(&mut text))?;
/// assert!(rt; text.as_slice() == b"races 1\nrace 5 write 2 read 4\n".as_slice());
/// ```
#[derive(Drop)]
pub struct Report {
    pub(crate) races: Vec<Race>,
}

impl Model for Report {
    ghost use Rattle.std.specs.Prelude.{List};
    ghost use Rattle.dag.specs.Accesses.{RaceAt};
    ghost use Rattle.collect.specs.Reports.{IsReportList};

    ghost Value = { List RaceAt };

    ghost view = { λ r. r.races.items };

    ghost invariant = { λ r. IsReportList r.races.items };
}

impl Report {
    /// The races, by ascending location.
    pub fn races(&self) -> &[Race]
        ensures races { result.now ≡ self.now }
        ensures report { IsReportList result.now }
    {
        self.races.as_slice()
    }
    /// For a report whose locations are numbers in a part: the same races, each at the location of its number.
    pub fn at_locations_of(self, part: Part) -> Report
        requires { HaveLocations part self }
        ensures { result ≡ map (located_at part) self }
    {
        let Report { mut races } = self;
        for index in 0..races.len() {
            let race = races[index];
            races[index] = Race {
                location: part.location_at(race.location),
                first: race.first,
                second: race.second,
            };
        }
        Report { races }
    }
}
