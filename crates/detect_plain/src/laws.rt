//! The races found in a part are those of its locations.

ghost use Rattle.std.specs.Prelude.{◌≡◌, List, map};
ghost use Rattle.dag.specs.Parts.{records_of, races_of_part};
ghost use Rattle.dag.specs.declared.records.Placed.{Placed};
ghost use Rattle.dag.specs.declared.part.Part.{Part};
ghost use Rattle.shadow.specs.Found.{found};
ghost use Rattle.collect.specs.Located.{located_at};

/// For every list of placed records: the races found in a part's records, each at the location of its number, are
/// those found in the whole list whose locations belong to the part.
pub fn parts()
    ensures { (part : Part) (u : List Placed)
        → map (located_at part) (found (records_of part u)) ≡ races_of_part part (found u) }
{}
