//! The report of a short trace, its races, its measure, and the first fault of a list of records that isn't a trace,
//! by their definitions: the code builds the edges of the dag, and walks them from each place. Nothing here uses bags
//! or active procedures.
//!
//! Places count from 0 here, and from 1 in what is reported.

use audit::Measure;
use trace::{Access, Kind, NestFault, NestKind, Record};

/// How many records a list has at most.
pub const MOST: usize = 7;

/// For each two places, whether something leads from the first to the second.
pub type Between = [[bool; MOST]; MOST];

/// The race that is reported of a location.
#[derive(Clone, Copy, Debug, PartialEq, Eq)]
pub struct ReportedRace {
    pub location: u64,
    pub first: Access,
    pub second: Access,
}

/// Whether the last record is the root's return, no earlier one is, and no place is deeper than the limit.
pub fn is_well_nested(records: &[Record], depth_limit: usize) -> bool {
    let Some(last) = records.len().checked_sub(1) else {
        return false;
    };
    for i in 0..last {
        if is_root_return(records, i) || depth(records, i) > depth_limit {
            return false;
        }
    }
    is_root_return(records, last) && depth(records, last) <= depth_limit
}

/// The first record that follows the root's return or opens a procedure too deep; otherwise, if the root hasn't
/// returned, the place behind the records.
pub fn first_fault(records: &[Record], depth_limit: usize) -> Option<NestFault> {
    for i in 0..records.len() {
        if let Some(kind) = fault_at(records, i, depth_limit) {
            let place = place_at(i);
            return Some(NestFault { place, kind });
        }
    }
    if has_returned(records, records.len()) {
        return None;
    }
    Some(NestFault {
        place: place_at(records.len()),
        kind: NestKind::Unfinished,
    })
}

fn fault_at(records: &[Record], i: usize, depth_limit: usize) -> Option<NestKind> {
    if has_returned(records, i) {
        return Some(NestKind::AfterEnd);
    }
    if opens(records, i) && depth(records, i) >= depth_limit {
        return Some(NestKind::TooDeep);
    }
    None
}

/// A place that opens a procedure.
fn opens(records: &[Record], i: usize) -> bool {
    let record = at(records, i);
    record == Some(Record::Spawn) || record == Some(Record::Call)
}

/// Whether the root has returned at a place before this one.
fn has_returned(records: &[Record], i: usize) -> bool {
    for k in 0..i {
        if is_root_return(records, k) {
            return true;
        }
    }
    false
}

fn is_root_return(records: &[Record], i: usize) -> bool {
    at(records, i) == Some(Record::Return) && depth(records, i) == 0
}

/// The spawns and calls before the place, less the returns before it.
fn depth(records: &[Record], i: usize) -> usize {
    let mut opened: usize = 0;
    let mut returns: usize = 0;
    for record in records.iter().take(i) {
        match record {
            Record::Spawn | Record::Call => opened = opened.saturating_add(1),
            Record::Return => returns = returns.saturating_add(1),
            _ => {}
        }
    }
    opened.saturating_sub(returns)
}

fn at(records: &[Record], i: usize) -> Option<Record> {
    records.get(i).copied()
}

fn place_at(i: usize) -> u64 {
    (i as u64).saturating_add(1)
}

/// How the location is accessed at the place, if it is.
fn kind_at(records: &[Record], location: u64, i: usize) -> Option<Kind> {
    match at(records, i) {
        Some(Record::Read(accessed)) if accessed == location => Some(Kind::Read),
        Some(Record::Write(accessed)) if accessed == location => Some(Kind::Write),
        _ => None,
    }
}

fn access_at(records: &[Record], location: u64, i: usize) -> Option<Access> {
    Some(Access {
        kind: kind_at(records, location, i)?,
        place: place_at(i),
    })
}

/// Whether the place waits for the procedure's children.
pub fn joins(records: &[Record], i: usize) -> bool {
    let record = at(records, i);
    record == Some(Record::Sync) || record == Some(Record::Return)
}

fn is_edge(records: &[Record], i: usize, j: usize) -> bool {
    i < j
        && j < records.len()
        && (is_continuation(records, i, j)
            || is_opening(records, i, j)
            || is_comeback(records, i, j)
            || is_join(records, i, j))
}

/// From a record that isn't a return to the next place of the same procedure.
fn is_continuation(records: &[Record], i: usize, j: usize) -> bool {
    for k in i..j {
        if k > i && depth(records, k) <= depth(records, i) {
            return false;
        }
    }
    at(records, i) != Some(Record::Return) && depth(records, j) == depth(records, i)
}

/// From a spawn or a call to the child's first place.
fn is_opening(records: &[Record], i: usize, j: usize) -> bool {
    opens(records, i) && i.checked_add(1) == Some(j)
}

/// The record that opened the procedure which executes the place: that of the last earlier place that is one less
/// deep.
fn opener(records: &[Record], i: usize) -> Option<Record> {
    let above = depth(records, i).checked_sub(1)?;
    let mut opener = None;
    for k in 0..i {
        if depth(records, k) == above {
            opener = at(records, k);
        }
    }
    opener
}

/// Whether a procedure returns at the place that this record opened.
fn returns_from(records: &[Record], i: usize, opened: Record) -> bool {
    at(records, i) == Some(Record::Return) && opener(records, i) == Some(opened)
}

/// From a called procedure's return to the next place.
fn is_comeback(records: &[Record], i: usize, j: usize) -> bool {
    returns_from(records, i, Record::Call) && i.checked_add(1) == Some(j)
}

/// From a spawned child's return to the first later place of its parent that waits for it.
fn is_join(records: &[Record], i: usize, j: usize) -> bool {
    for k in i..j {
        if k > i && depth(records, k) == depth(records, j) && joins(records, k) {
            return false;
        }
    }
    returns_from(records, i, Record::Spawn)
        && depth(records, i).checked_sub(1) == Some(depth(records, j))
        && joins(records, j)
}

fn edges(records: &[Record]) -> Between {
    let mut edges = [[false; MOST]; MOST];
    for i in 0..MOST {
        for j in 0..MOST {
            edges[i][j] = is_edge(records, i, j);
        }
    }
    edges
}

/// The places that paths lead to from a place.
fn reached_from(edges: &Between, start: usize) -> [bool; MOST] {
    let mut reached = [false; MOST];
    for i in 0..MOST {
        reached[i] = i == start;
    }
    for _ in 0..MOST {
        reached = with_next(edges, reached);
    }
    reached
}

/// These places, and those that one edge leads to from them.
fn with_next(edges: &Between, reached: [bool; MOST]) -> [bool; MOST] {
    let mut next = reached;
    for i in 0..MOST {
        for j in 0..MOST {
            if reached[i] && edges[i][j] {
                next[j] = true;
            }
        }
    }
    next
}

/// From which place to which a path leads.
pub fn paths(records: &[Record]) -> Between {
    let edges = edges(records);
    let mut paths = [[false; MOST]; MOST];
    for i in 0..MOST {
        paths[i] = reached_from(&edges, i);
    }
    paths
}

fn leads(paths: &Between, i: usize, j: usize) -> bool {
    i < MOST && j < MOST && paths[i][j]
}

/// Whether no path leads from the first of two places to the second, nor back.
pub fn are_parallel(paths: &Between, i: usize, j: usize) -> bool {
    i != j && !leads(paths, i, j) && !leads(paths, j, i)
}

/// The accesses of the location at two places, the first before the second, if at least one writes.
pub fn accesses_at(
    records: &[Record],
    location: u64,
    i: usize,
    j: usize,
) -> Option<(Access, Access)> {
    let first = access_at(records, location, i)?;
    let second = access_at(records, location, j)?;
    let one_writes = first.kind == Kind::Write || second.kind == Kind::Write;
    if i < j && one_writes {
        Some((first, second))
    } else {
        None
    }
}

/// The accesses at two places, if they race on the location.
pub fn race_at(
    records: &[Record],
    paths: &Between,
    location: u64,
    i: usize,
    j: usize,
) -> Option<(Access, Access)> {
    if are_parallel(paths, i, j) {
        accesses_at(records, location, i, j)
    } else {
        None
    }
}

/// The least place at which a race on the location ends.
pub fn second_place(records: &[Record], paths: &Between, location: u64) -> Option<usize> {
    for j in 0..records.len() {
        for i in 0..j {
            if race_at(records, paths, location, i, j).is_some() {
                return Some(j);
            }
        }
    }
    None
}

fn last_write(records: &[Record], location: u64, j: usize) -> Option<usize> {
    let mut last = None;
    for i in 0..j {
        if kind_at(records, location, i) == Some(Kind::Write) {
            last = Some(i);
        }
    }
    last
}

/// The first read, and then each later one that a path leads to from the kept one.
fn kept_reader(records: &[Record], paths: &Between, location: u64, j: usize) -> Option<usize> {
    let mut kept = None;
    for i in 0..j {
        if kind_at(records, location, i) == Some(Kind::Read) {
            kept = match kept {
                Some(reader) if !leads(paths, reader, i) => Some(reader),
                _ => Some(i),
            };
        }
    }
    kept
}

/// The race with this second place: its first place is the last write if that is parallel, otherwise the kept reader.
pub fn race_ending_at(
    records: &[Record],
    paths: &Between,
    location: u64,
    j: usize,
) -> Option<ReportedRace> {
    let i = match last_write(records, location, j) {
        Some(writer) if are_parallel(paths, writer, j) => writer,
        _ => kept_reader(records, paths, location, j)?,
    };
    Some(ReportedRace {
        location,
        first: access_at(records, location, i)?,
        second: access_at(records, location, j)?,
    })
}

/// The greatest number of places on a path that ends at each place.
fn longest(records: &[Record]) -> [u64; MOST] {
    let edges = edges(records);
    let mut longest = [0u64; MOST];
    for j in 0..MOST {
        let mut before = 0;
        for i in 0..j {
            if edges[i][j] {
                before = longest[i].max(before);
            }
        }
        if j < records.len() {
            longest[j] = before.saturating_add(1);
        }
    }
    longest
}

pub fn measure(records: &[Record]) -> Measure {
    let mut measure = Measure {
        work: records.len() as u64,
        span: 0,
        spawns: 0,
        depth: 0,
    };
    for length in longest(records) {
        measure.span = measure.span.max(length);
    }
    for i in 0..records.len() {
        if at(records, i) == Some(Record::Spawn) {
            measure.spawns = measure.spawns.saturating_add(1);
        }
        measure.depth = measure.depth.max(depth(records, i).min(MOST) as u32);
    }
    measure
}
