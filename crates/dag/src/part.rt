//! Parts of a trace's locations. A program can search each for races by itself.
ghost use Rattle.std.specs.Prelude.{◌≡◌, ◌≢◌, ◌<◌, ◌^◌, ◌/◌, ◌%◌, [], ◌∷◌, IfSome, IfNone};
ghost use Rattle.std.specs.Option.{option_to_list};
ghost use Rattle.dag.specs.Bounds.{IsPartCount};

use crate::records::{Placed, Record};

/// One part of the locations: those whose remainder is `index` in a division by `count`. A part numbers its locations
/// from 0 in their order.
#[derive(Clone, Copy, Debug, PartialEq, Eq)]
pub struct Part {
    /// Which part it is: 0 to `count` - 1.
    pub index: u32,
    /// How many parts there are: 1 to 65536.
    pub count: u32,
    ghost within: { index < count },
    ghost count_within: { IsPartCount count },
}

impl Part {
    ghost use Rattle.dag.specs.Parts.{location_at, records_of};

    /// The only part of one: it has all locations, and each is its own number.
    pub fn whole() -> Part
        ensures { result.count ≡ 1 }
    {
        Part { index: 0, count: 1 }
    }

    /// What the part has of a record: a spawn, call, return or sync as it is; an access to one of its locations, by
    /// the location's number; and nothing of another access.
    #[inline(always)]
    pub fn of_record(self, placed: Placed) -> Option<Placed>
        ensures { option_to_list result ≡ records_of self (placed ∷ []) }
    {
        let what = match placed.what {
            Record::Read(location) => Record::Read(self.number_of(location)?),
            Record::Write(location) => Record::Write(self.number_of(location)?),
            structure => structure,
        };
        Some(Placed {
            place: placed.place,
            what,
        })
    }

    // The number of a location, if the location is the part's.
    #[inline(always)]
    fn number_of(self, location: u64) -> Option<u64>
        ensures number { IfSome result (λ number. number ≡ location / self.count) }
        ensures own { IfSome result (λ _. location % self.count ≡ self.index) }
        ensures other { IfNone result (location % self.count ≢ self.index) }
    {
        let count = self.count as u64;
        if location % count == self.index as u64 {
            Some(location / count)
        } else {
            None
        }
    }

    /// The location that has this number in the part.
    pub fn location_at(self, number: u64) -> u64
        requires { location_at self number < 2 ^ 64 }
        ensures { result ≡ location_at self number }
    {
        number * self.count as u64 + self.index as u64
    }
}
