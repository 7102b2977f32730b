//! What is true of every well nested trace and of every record's shards.

ghost use Rattle.std.specs.Prelude.{◌≡◌, ℕ, ◌<◌, ◌≤◌, ◌↔◌, ◌⊎◌, true, List, length};
ghost use Rattle.dag.specs.declared.records.Record.{Record};
ghost use Rattle.dag.specs.declared.records.Record.TheVariants.{Spawn, Call, Return, Sync};
ghost use Rattle.dag.specs.declared.records.Kind.{Kind};
ghost use Rattle.dag.specs.Traces.{depth, IsPlace, IsWellNested};
ghost use Rattle.dag.specs.Dag.{IsParallel, Leads};
ghost use Rattle.dag.specs.Races.{IsAccessPlace, access};
ghost use Rattle.dag.specs.Shares.{goes};
ghost use Rattle.dag.specs.Meeting.{ExactlyOne, Holds, InOneBlock, IsMeeting, IsStand};

/// Two places meet in one procedure, the deepest whose part of the trace holds both. A place has one stand in each
/// procedure that holds it: the place itself, or the spawn or call of the child that holds it. Two accesses are
/// parallel if and only if the first lies inside a child that their meeting procedure spawned, and the meeting
/// procedure doesn't sync from there to the stand of the second.
pub fn meeting()
    ensures meets { (w : List Record) (records depths i j : ℕ) → IsWellNested w records depths
        → IsPlace w i → i < j → ExactlyOne (IsMeeting w i j) }
    ensures stands { (w : List Record) (records depths m j : ℕ) → IsWellNested w records depths
        → IsPlace w j → Holds w m j → ExactlyOne (IsStand w m j) }
    ensures parallel { (w : List Record) (records depths i j m : ℕ) → IsWellNested w records depths
        → IsAccessPlace w i → IsAccessPlace w j → i < j → IsMeeting w i j m
        → IsParallel w i j ↔ InOneBlock w m i j }
{}

/// Parallel places are places of the trace, and being parallel doesn't depend on their order. For two places of a
/// well nested trace, either they are parallel, or a path leads from the earlier to the later one.
pub fn parallel()
    ensures either_way { (w : List Record) (i j : ℕ) → IsParallel w i j
        → IsPlace w i × IsPlace w j × IsParallel w j i }
    ensures or_path { (w : List Record) (records depths i j : ℕ) → IsWellNested w records depths
        → IsPlace w i → IsPlace w j → i < j → Leads w i j ⊎ IsParallel w i j }
{}

/// Each spawn, call, return and sync goes to all of n shards. Each access goes to exactly one shard, which its
/// location determines.
pub fn shares()
    ensures structure { (k n : ℕ) → (goes k n Spawn ≡ true) × (goes k n Call ≡ true)
        × (goes k n Return ≡ true) × (goes k n Sync ≡ true) }
    ensures one_shard { (n l : ℕ) (a : Kind) → 0 < n → ExactlyOne (λ k. (k < n) × (goes k n (access a l) ≡ true)) }
    ensures by_location { (k n l : ℕ) (a b : Kind) → goes k n (access a l) ≡ goes k n (access b l) }
{}

/// The limits of a well nested trace bound its records and its depths, and it is well nested within greater limits too.
pub fn limits()
    ensures bound { (w : List Record) (records depths i : ℕ) → IsWellNested w records depths → IsPlace w i
        → (length w ≤ records) × (depth w i ≤ depths) }
    ensures greater { (w : List Record) (records depths more deeper : ℕ) → IsWellNested w records depths
        → records ≤ more → depths ≤ deeper → IsWellNested w more deeper }
{}
