//! In every well nested trace the rules of SP-bags find exactly the races of the dag. And what stays true of a trace
//! when some of its accesses go, or stand in another order.

ghost use Rattle.std.specs.Prelude.{◌≡◌, ◌==◌, ◌%◌, ℕ, ◌↔◌, Bool, true, List, [], filter, take};
ghost use Rattle.dag.specs.declared.records.Record.{Record};
ghost use Rattle.dag.specs.declared.records.Placed.{Placed};
ghost use Rattle.dag.specs.Traces.{placed, IsWellNested};
ghost use Rattle.dag.specs.Shares.{share};
ghost use Rattle.dag.specs.Accesses.{RaceAt};
ghost use Rattle.dag.specs.Races.{IsSecond, HasRace, IsReport};
ghost use Rattle.shadow.specs.Found.{found, verdict};
ghost use Rattle.verdict.specs.Racy.{OfWellNested, IsParallelThrough, IsParallelAfter};
ghost use Rattle.verdict.specs.Racy.{KeepsParallelReader, AreEarlyRaces, HasLocation};
ghost use Rattle.verdict.specs.Repeats.{rest, place_in_rest, RepeatsGo};
ghost use Rattle.verdict.specs.Strands.{NeedlessGo, IsReordered};

/// For every well nested trace: what parallel accesses say of a third access; the kept reader represents all reads
/// before an access; and the races found are those of the dag, up to every place and in all.
pub fn dag()
    ensures parallel_through { OfWellNested IsParallelThrough }
    ensures parallel_after { OfWellNested IsParallelAfter }
    ensures kept_reader { OfWellNested KeepsParallelReader }
    // what is found up to place t stands, whatever follows
    ensures early_races { (t : ℕ) → OfWellNested (λ w. AreEarlyRaces w t (found (take t (placed w)))) }
    ensures verdict_is_report { OfWellNested (λ w. IsReport w (verdict w)) }
    ensures one_report { OfWellNested (λ w. (rs : List RaceAt) → IsReport w rs → rs ≡ verdict w) }
    ensures racy { OfWellNested (λ w. (l : ℕ) → HasRace w l ↔ HasLocation (verdict w) l) }
    ensures race_free { OfWellNested (λ w. (verdict w ≡ []) ↔ ((l : ℕ) → HasRace w l → ⊥)) }
{}

/// For every list of placed records: the races found in a shard's share are those found in the whole list whose
/// locations belong to the shard.
pub fn shares()
    ensures { (k n : ℕ) (u : List Placed) → found (share k n u) ≡ filter (λ r. r.location % n == k) (found u) }
{}

/// For every well nested trace, and every choice of places that stay, if each other place is a repeat: the records at
/// the places that stay are well nested, and have races on the same locations. For each racy location the least
/// second place of a race stays, and its record has the least second place in the rest too.
pub fn repeats()
    ensures well_nested { (w : List Record) (records depths : ℕ) (stays : ℕ → Bool) → IsWellNested w records depths
        → RepeatsGo w stays → IsWellNested (rest stays w) records depths }
    ensures same_racy { (w : List Record) (records depths : ℕ) (stays : ℕ → Bool) → IsWellNested w records depths
        → RepeatsGo w stays → (l : ℕ) → HasRace (rest stays w) l ↔ HasRace w l }
    ensures same_second { (w : List Record) (records depths : ℕ) (stays : ℕ → Bool) → IsWellNested w records depths
        → RepeatsGo w stays → (l j : ℕ) → IsSecond w l j
        → (stays j ≡ true) × IsSecond (rest stays w) l (place_in_rest stays w j) }
{}

/// For every well nested trace, and every choice of places that stay, if each other place is a repeat, a read of a
/// location that its strand also writes, or an access of a location that no other strand accesses: the records at the
/// places that stay are well nested, and have races on the same locations.
pub fn needless()
    ensures well_nested { (w : List Record) (records depths : ℕ) (stays : ℕ → Bool) → IsWellNested w records depths
        → NeedlessGo w stays → IsWellNested (rest stays w) records depths }
    ensures same_racy { (w : List Record) (records depths : ℕ) (stays : ℕ → Bool) → IsWellNested w records depths
        → NeedlessGo w stays → (l : ℕ) → HasRace (rest stays w) l ↔ HasRace w l }
{}

/// A well nested trace stays so, and has races on the same locations, in whatever order accesses of one strand stand.
pub fn reordered()
    ensures well_nested { (w v : List Record) (records depths : ℕ) → IsWellNested w records depths → IsReordered w v
        → IsWellNested v records depths }
    ensures same_racy { (w v : List Record) (records depths : ℕ) → IsWellNested w records depths → IsReordered w v
        → (l : ℕ) → HasRace v l ↔ HasRace w l }
{}
