//! Groups of the units of a block that keep the same names.
ghost use Rattle.std.specs.Prelude.{◌≡◌, ℕ, ◌<◌, ◌≤◌, ◌+◌, ◌&&◌, true, Some, None, is_some, if◌then◌else◌};
ghost use Rattle.std.specs.Prelude.{OnOk, OnErr, IfOk, IfSome, length, take, drop, slice_index_or, bit_or};
ghost use Rattle.std.specs.Option.{ForSome};
ghost use Rattle.shadow.specs.Before.{Executes};
ghost use Rattle.blocks.specs.Masks.{has};
ghost use Rattle.blocks.specs.Groups.{is_racy, names_of_touched, names_at_touched, no_group};
ghost use Rattle.blocks.specs.Pages.{names_at, names_of};
ghost use Rattle.blocks.specs.Groups.{AreKnown, IsAlike, IsPartly, IsTouched};

use crate::masks::without;
use crate::step::{NO_NAMES, Names, Step};
use bags::Bags;
use dag::{Kind, NoMemory};

/// Units that keep the same names.
#[derive(Clone, Copy)]
pub struct Group {
    pub units: u64,
    pub names: Names,
}

/// The names that are kept of a unit: those of the last group that has it.
pub fn names_of(groups: &[Group], unit: u32) -> Names
    requires { unit < 64 }
    ensures { result ≡ names_of groups.now unit }
{
    let mut index = groups.len();
    while index > 0 {
        index -= 1;
        let Group { units, names } = groups[index];
        if units >> unit & 1 == 1 {
            return names;
        }
    }
    NO_NAMES
}

/// The units at which an access by the executing procedure races. Of several groups that have a unit, the last one
/// says what is kept of it.
pub fn racy_units(groups: &[Group], bags: &Bags, executing: u64, kind: Kind, units: u64) -> u64
    requires executes { Executes bags.now executing }
    requires known { (i : ℕ) → i < 64 → ForSome (names_at groups.now i) (AreKnown bags.now.count) }
    ensures { (i : ℕ) → i < 64
        → has result i ≡ (has units i && is_racy bags.now.active kind (names_at groups.now i)) }
{
    let mut rest = units;
    let mut racy = 0;
    let mut index = groups.len();
    while rest != 0 && index > 0 {
        index -= 1;
        let group = groups[index];
        let inside = group.units & rest;
        if inside != 0 {
            rest &= !inside;
            if group.names.has_rival(bags, executing, kind) {
                racy |= inside;
            }
        }
    }
    racy
}

/// The index of a group that has these names, from this index on.
fn alike(groups: &[Group], from: usize, names: Names) -> Option<usize>
    ensures { IfSome result (λ at. IsAlike groups.now from names at) }
{
    for index in from..groups.len() {
        if groups[index].names == names {
            return Some(index);
        }
    }
    None
}

/// Gives units a group behind the first `count` ones: that of these names, or a new one.
fn put(groups: &mut Vec<Group>, count: usize, group: Group) -> Result<(), NoMemory>
    requires within { count ≤ length groups.old.items }
    requires apart { (i : ℕ) → i < 64 → has group.units i ≡ true → names_at (drop count groups.old.items) i ≡ None }
    ensures within { count ≤ length groups.new.items }
    ensures first { take count groups.new.items ≡ take count groups.old.items }
    ensures put { OnOk result ((i : ℕ) → i < 64 → names_at (drop count groups.new.items) i
        ≡ (if has group.units i then Some group.names else names_at (drop count groups.old.items) i)) }
    ensures err { OnErr result (groups.new.items ≡ groups.old.items) }
{
    match alike(groups, count, group.names) {
        Some(at) => groups[at].units |= group.units,
        None => groups.push(group)?,
    }
    Ok(())
}

/// Gives some units of the group at this index other names. None of the later groups has these units. Groups with these
/// names stand from `from` on, if there are any. The answer is from where on they stand afterwards.
///
/// An error leaves all as it was.
fn rename(
    groups: &mut Vec<Group>,
    index: usize,
    inside: u64,
    names: Names,
    from: usize,
) -> Result<usize, NoMemory>
    requires within { (index < from) × (from ≤ length groups.old.items) }
    requires inside { (i : ℕ) → i < 64 → has inside i ≡ true
        → has (slice_index_or groups.old.items index no_group).units i ≡ true }
    requires last { (i : ℕ) → i < 64 → has inside i ≡ true → names_at (drop (index + 1) groups.old.items) i ≡ None }
    ensures within { IfOk result (λ r. (index ≤ r) × (r ≤ length groups.new.items)) }
    ensures first { OnOk result (take index groups.new.items ≡ take index groups.old.items) }
    ensures names { OnOk result ((i : ℕ) → i < 64 → names_at (drop index groups.new.items) i
        ≡ (if has inside i then Some names else names_at (drop index groups.old.items) i)) }
    ensures err { OnErr result (groups.new.items ≡ groups.old.items) }
{
    let units = groups[index].units;
    if inside != units {
        put(
            groups,
            from,
            Group {
                units: inside,
                names,
            },
        )?;
        groups[index].units = units & !inside;
        return Ok(from);
    }
    match alike(groups, from, names) {
        Some(at) => {
            groups[at].units |= inside;
            groups.remove(index);
            Ok(from - 1)
        }
        None => {
            groups[index].names = names;
            Ok(index)
        }
    }
}

/// Takes an access to these units, which the groups have, and answers from where on there may be groups with the names
/// that it makes.
fn follow(
    groups: &mut Vec<Group>,
    bags: &Bags,
    kind: Kind,
    step: Step,
    units: u64,
) -> Result<usize, NoMemory>
    requires executes { Executes bags.now step.procedure }
    requires known { (i : ℕ) → i < 64 → ForSome (names_at groups.old.items i) (AreKnown bags.now.count) }
    ensures within { IfOk result (λ r. r ≤ length groups.new.items) }
    ensures names { OnOk result ((i : ℕ) → i < 64 → names_at groups.new.items i
        ≡ names_at_touched bags.now.active kind step (has units i) (names_at groups.old.items i)) }
    ensures some { (i : ℕ) → i < 64
        → is_some (names_at groups.new.items i) ≡ is_some (names_at groups.old.items i) }
    ensures partly { IsPartly bags.now.active kind step units groups.old.items groups.new.items }
{
    let mut rest = units;
    let mut index = groups.len();
    let mut from = index;
    while rest != 0 && index > 0 {
        index -= 1;
        let Group { units, names } = groups[index];
        let inside = units & rest;
        if inside != 0 {
            rest &= !inside;
            if !names.stay(bags, step.procedure, kind) {
                let names = names.touched(kind, step);
                from = rename(groups, index, inside, names, from)?;
            }
        }
    }
    Ok(from)
}

/// Takes an access to the step's units by the executing procedure. Of these the groups have the `touched` ones.
pub fn touch(
    groups: &mut Vec<Group>,
    bags: &Bags,
    kind: Kind,
    step: Step,
    touched: u64,
) -> Result<(), NoMemory>
    requires executes { Executes bags.now step.procedure }
    requires known { (i : ℕ) → i < 64 → ForSome (names_at groups.old.items i) (AreKnown bags.now.count) }
    requires touched { IsTouched touched groups.old.items }
    ensures kept { OnOk result ((i : ℕ) → i < 64 → names_of groups.new.items i
        ≡ names_of_touched bags.now.active kind step i (names_of groups.old.items i)) }
    ensures partly { IsPartly bags.now.active kind step step.units groups.old.items groups.new.items }
    ensures touched { OnOk result (IsTouched (bit_or touched step.units) groups.new.items) }
    ensures untouched { OnErr result (IsTouched touched groups.new.items) }
{
    let from = follow(groups, bags, kind, step, step.units & touched)?;
    let new = without(step.units, touched);
    if new != 0 {
        let names = NO_NAMES.touched(kind, step);
        put(groups, from, Group { units: new, names })?;
    }
    Ok(())
}

/// Takes these units out of all groups. A group that has none left goes.
pub fn forget(groups: &mut Vec<Group>, units: u64)
    ensures { (i : ℕ) → i < 64
        → names_at groups.new.items i ≡ (if has units i then None else names_at groups.old.items i) }
{
    let mut index = groups.len();
    while index > 0 {
        index -= 1;
        let left = without(groups[index].units, units);
        if left == 0 {
            groups.remove(index);
        } else {
            groups[index].units = left;
        }
    }
}
