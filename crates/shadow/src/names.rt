//! The names that are kept of a location, and what an access does to them.
ghost use Rattle.std.specs.Prelude.{◌≡◌, ◌+◌, ◌<◌, ◌≤◌, Bool, None, true, false, IsTrue, ◌↔◌};
ghost use Rattle.std.specs.Option.{ForSome};
ghost use Rattle.dag.specs.Bounds.{most_records};
ghost use Rattle.shadow.specs.Cells.{race_at, race_with, touched, rival, stands_in_p, reader_after, name_of};
ghost use Rattle.shadow.specs.Seats.{no_names, cell_with};
ghost use Rattle.shadow.specs.Before.{IsNameBefore, IsCellBefore, CanRace, Executes};
ghost use Rattle.shadow.specs.Touches.{MayTouch, HasTouched};

use bags::Bags;
use dag::{Access, Kind, Race};
use std::marker::Model;

/// A kept name: a procedure, and the place of its access. Or none, which has place 0.
#[derive(Drop)]
pub struct Name {
    // The root has 0, and the others are numbered from 1 in the order of their opening.
    procedure: u64,
    // 1 to 2^48 if there is a name.
    place: u64,
}

impl Model for Name {
    ghost use Rattle.std.specs.Prelude.{Option};
    ghost use Rattle.shadow.specs.Cells.{Name};
    ghost use Rattle.shadow.specs.Names.{stored_name};

    ghost Value = { Option Name };

    ghost view = { λ n. stored_name n.procedure n.place };
}

impl Name {
    /// No name.
    #[inline(always)]
    fn none() -> Name
        ensures { result ≡ None }
    {
        Name {
            procedure: 0,
            place: 0,
        }
    }

    /// Whether the procedure is in a P-bag. The executing procedure is in none, so it isn't looked up.
    #[inline(always)]
    fn is_in_p(&self, bags: &Bags, executing: u64) -> bool
        requires executes { Executes bags.now executing }
        requires known { ForSome self.now (λ name. name.procedure < bags.now.count) }
        ensures { result ≡ stands_in_p bags.now.active self.now }
    {
        self.place != 0 && self.procedure != executing && bags.in_p(self.procedure)
    }

    /// Becomes the name of an access by the executing procedure.
    #[inline(always)]
    fn keep(&mut self, bags: &Bags, executing: u64, place: u64)
        requires executes { Executes bags.now executing }
        requires from_one { 1 ≤ place }
        ensures name { self.new ≡ name_of bags.now.active place }
        ensures earlier { ForSome self.new (IsNameBefore (place + 1) bags.now.count) }
    {
        self.procedure = executing;
        self.place = place;
    }

    /// Becomes the name of a read, unless the kept reader is in a P-bag.
    #[inline(always)]
    fn keep_reader(&mut self, bags: &Bags, executing: u64, place: u64)
        requires executes { Executes bags.now executing }
        requires earlier { ForSome self.old (IsNameBefore place bags.now.count) }
        requires from_one { 1 ≤ place }
        ensures reader { self.new ≡ reader_after bags.now.active place self.old }
        ensures earlier { ForSome self.new (IsNameBefore (place + 1) bags.now.count) }
    {
        if !self.is_in_p(bags, executing) {
            self.keep(bags, executing, place);
        }
    }
}

/// The kept writer and the kept reader of a location.
#[derive(Drop)]
pub struct Names {
    writer: Name,
    reader: Name,
}

impl Model for Names {
    ghost use Rattle.shadow.specs.Seats.{Names};

    ghost Value = { Names };

    ghost view = { λ n. record { writer = n.writer; reader = n.reader } };
}

impl Names {
    /// The names of a location before its first access.
    pub fn none() -> Names
        ensures { result ≡ no_names }
    {
        Names {
            writer: Name::none(),
            reader: Name::none(),
        }
    }

    /// Whether these are the names of a location before its first access.
    pub fn are_none(&self) -> bool
        ensures { IsTrue result → self.now ≡ no_names }
    {
        self.writer.place == 0 && self.reader.place == 0
    }

    /// Takes an access to the location by the executing procedure, and reports its race, if it wasn't `reported`.
    #[inline(always)]
    pub fn update(
        &mut self,
        reported: &mut bool,
        bags: &Bags,
        location: u64,
        kind: Kind,
        place: u64,
    ) -> Option<Race>
        requires { MayTouch bags.now place (cell_with self.old reported.old) }
        ensures { HasTouched bags.now location kind place
            (cell_with self.old reported.old) (cell_with self.new reported.new) result }
    {
        let executing = bags.current();
        let first = self.rival(bags, executing, kind, place);
        match kind {
            Kind::Read => self.reader.keep_reader(bags, executing, place),
            Kind::Write => self.writer.keep(bags, executing, place),
        }
        match first {
            Some(first) if report(reported) => Some(Race {
                location,
                first,
                second: Access { kind, place },
            }),
            _ => None,
        }
    }

    /// The first access of a race with an access by the executing procedure, if there is one.
    #[inline(always)]
    fn rival(&self, bags: &Bags, executing: u64, kind: Kind, place: u64) -> Option<Access>
        requires executes { Executes bags.now executing }
        requires writer { ForSome self.now.writer (IsNameBefore place bags.now.count) }
        requires reader { ForSome self.now.reader (IsNameBefore place bags.now.count) }
        ensures first { result ≡ rival bags.now.active kind (cell_with self.now false) }
        ensures first_if_reported { result ≡ rival bags.now.active kind (cell_with self.now true) }
        ensures can_race { ForSome result (CanRace kind place) }
    {
        if self.writer.is_in_p(bags, executing) {
            return Some(Access {
                kind: Kind::Write,
                place: self.writer.place,
            });
        }
        match kind {
            Kind::Write if self.reader.is_in_p(bags, executing) => Some(Access {
                kind: Kind::Read,
                place: self.reader.place,
            }),
            _ => None,
        }
    }
}

// From here on the location's race counts as reported. Whether it wasn't reported before.
#[cold]
#[inline(never)]
fn report(reported: &mut bool) -> bool
    ensures new { IsTrue result ↔ (reported.old ≡ false) }
    ensures reported { reported.new ≡ true }
{
    let new = !*reported;
    *reported = true;
    new
}
