//! The reader of a report's text.
ghost use Rattle.std.specs.Prelude.{◌≡◌, ◌≢◌, ◌↔◌, ℕ, ◌+◌, ◌<◌, ◌≤◌, ◌^◌, List, [], ◌∷◌, ◌++◌, length, decimal};
ghost use Rattle.std.specs.Prelude.{slice_index, IsTrue, IfSome, IfNone, IfOk, IfErr, MatchResult};
ghost use Rattle.dag.specs.declared.records.Kind.{Kind};
ghost use Rattle.dag.specs.declared.records.Access.{Access};
ghost use Rattle.dag.specs.Accesses.{RaceAt, IsRaceShape};
ghost use Rattle.collect.specs.Reports.{IsEntry, IsReportList};
ghost use Rattle.collect.specs.Keyed.{may_follow};
ghost use Rattle.collect.specs.ReportText.{space, word, access_text, head, race_line, rtext};
ghost use Rattle.collect.specs.ReportFaults.{IsReportFault};
ghost use Rattle.collect.specs.declared.readers.ReportFault.{ReportFault};
ghost use Rattle.collect.specs.declared.readers.ReportFault.TheVariants as reports;

use crate::reports::Report;
use std::alloc::{AllocFailed, Global};
use trace::{Access, Kind, Race, decimal_of};

/// Why the bytes are no report.
#[derive(Clone, Copy, Debug, PartialEq, Eq)]
pub enum ReportFault {
    /// The first line that may not be where it is. The first line is line 1.
    Bad { line: u64 },
    /// The allocator refused a growth.
    NoMemory,
}

impl<T: Drop> From<AllocFailed<T>> for ReportFault {
    ghost from_gives = { λ _ fault. fault ≡ reports.NoMemory };

    fn from(_: AllocFailed<T>) -> ReportFault {
        ReportFault::NoMemory
    }
}

/// Reads the text of a report.
pub fn read_report(alloc: Global, bytes: &[u8]) -> Result<Report, ReportFault>
    ensures ok { IfOk result (λ r. bytes.now ≡ rtext r) }
    ensures err { IfErr result (λ e. IsReportFault bytes.now e) }
    ensures exact { (r : List RaceAt) → IsReportList r → bytes.now ≡ rtext r
        → MatchResult result (λ s. s ≡ r) (λ e. e ≡ ReportFault.NoMemory) }
{
    let size = bytes.len();
    let Some((count, first)) = head_of(bytes) else {
        return Err(ReportFault::Bad { line: 1 });
    };
    let mut races: Vec<Race> = Vec::new(alloc);
    let mut rest = first;
    while (races.len() as u64) < count {
        let Some((race, after)) = next_race(races.as_slice(), rest) else {
            return Err(ReportFault::Bad {
                line: line_after(races.as_slice(), size),
            });
        };
        races.push(race)?;
        rest = after;
    }
    if rest.is_empty() {
        Ok(Report { races })
    } else {
        Err(ReportFault::Bad {
            line: line_after(races.as_slice(), size),
        })
    }
}

// The number of the line behind the head and the lines of these races, which all fit into `size` bytes.
fn line_after(races: &[Race], size: usize) -> u64
    requires { length races.now + 2 ≤ size }
    ensures { result ≡ length races.now + 2 }
{
    races.len() as u64 + 2
}

// The number of races in the head line, and the bytes behind that line.
fn head_of(bytes: &[u8]) -> Option<(u64, &[u8])>
    ensures found { IfSome result (λ p. bytes.now ≡ head p.0 ++ p.1.now) }
    ensures fits { IfSome result (λ p. p.0 < 2 ^ 64) }
    ensures none { IfNone result ((n : ℕ) (more : List ℕ) → n < 2 ^ 64 → bytes.now ≢ head n ++ more) }
{
    let Some(rest) = after_word(bytes, b"races ") else {
        return None;
    };
    number_until(rest, b'\n')
}

// The race of the first line, if it may follow these races, and the bytes behind that line.
fn next_race<'a>(races: &[Race], bytes: &'a [u8]) -> Option<(Race, &'a [u8])>
    requires { IsReportList races.now }
    ensures found { IfSome result (λ p. bytes.now ≡ race_line p.0 ++ p.1.now) }
    ensures follows { IfSome result (λ p. IsReportList (races.now ++ p.0 ∷ [])) }
    ensures none { IfNone result ((r : RaceAt) (more : List ℕ)
        → IsReportList (races.now ++ r ∷ []) → bytes.now ≢ race_line r ++ more) }
{
    let Some(found) = race_in_front(bytes) else {
        return None;
    };
    if !may_follow(races, &found.0) {
        return None;
    }
    Some(found)
}

// Whether the race's location is above that of the last of these races.
fn may_follow(races: &[Race], race: &Race) -> bool
    ensures { result ≡ may_follow races.now race.now }
{
    match races.last() {
        Some(highest) => highest.location < race.location,
        None => true,
    }
}

// The race of the line in front, and the bytes behind that line.
fn race_in_front(bytes: &[u8]) -> Option<(Race, &[u8])>
    ensures found { IfSome result (λ p. bytes.now ≡ race_line p.0 ++ p.1.now) }
    ensures entry { IfSome result (λ p. IsEntry p.0) }
    ensures none { IfNone result ((r : RaceAt) (more : List ℕ) → IsEntry r → bytes.now ≢ race_line r ++ more) }
{
    let Some(rest) = after_word(bytes, b"race ") else {
        return None;
    };
    let Some((location, rest)) = number_until(rest, b' ') else {
        return None;
    };
    let Some((first, rest)) = access_until(rest, b' ') else {
        return None;
    };
    let Some((second, rest)) = access_until(rest, b'\n') else {
        return None;
    };
    if !are_raced(first, second) {
        return None;
    }
    Some((
        Race {
            location,
            first,
            second,
        },
        rest,
    ))
}

// The greatest place of a trace.
const LAST_PLACE: u64 = 281_474_976_710_656;

// Whether the accesses stand in order, on places of a trace, and one of them writes.
fn are_raced(first: Access, second: Access) -> bool
    ensures { IsTrue result ↔ IsRaceShape first second }
{
    let in_order = 0 < first.place && first.place < second.place && second.place <= LAST_PLACE;
    let one_writes = first.kind == Kind::Write || second.kind == Kind::Write;
    in_order && one_writes
}

// The access in front of the stop, and the bytes behind it.
fn access_until(bytes: &[u8], stop: u8) -> Option<(Access, &[u8])>
    requires { stop < 48 }
    ensures found { IfSome result (λ p. bytes.now ≡ access_text p.0 ++ stop ∷ p.1.now) }
    ensures fits { IfSome result (λ p. p.0.place < 2 ^ 64) }
    ensures none { IfNone result ((a : Access) (more : List ℕ) → a.place < 2 ^ 64
        → bytes.now ≢ access_text a ++ stop ∷ more) }
{
    let Some((kind, rest)) = kind_of(bytes) else {
        return None;
    };
    let Some((place, rest)) = number_until(rest, stop) else {
        return None;
    };
    Some((Access { kind, place }, rest))
}

// The kind of access whose word and a space stand in front, and the bytes behind them.
fn kind_of(bytes: &[u8]) -> Option<(Kind, &[u8])>
    ensures found { IfSome result (λ p. bytes.now ≡ word p.0 ++ space ∷ p.1.now) }
    ensures none { IfNone result ((k : Kind) (more : List ℕ) → bytes.now ≢ word k ++ space ∷ more) }
{
    if let Some(rest) = after_word(bytes, b"read ") {
        return Some((Kind::Read, rest));
    }
    if let Some(rest) = after_word(bytes, b"write ") {
        return Some((Kind::Write, rest));
    }
    None
}

// The number in front of the stop, and the bytes behind it.
fn number_until(bytes: &[u8], stop: u8) -> Option<(u64, &[u8])>
    requires { stop < 48 }
    ensures found { IfSome result (λ p. bytes.now ≡ decimal p.0 ++ stop ∷ p.1.now) }
    ensures fits { IfSome result (λ p. p.0 < 2 ^ 64) }
    ensures none { IfNone result ((n : ℕ) (more : List ℕ) → n < 2 ^ 64
        → bytes.now ≢ decimal n ++ stop ∷ more) }
{
    let Some(end) = place_of(bytes, stop) else {
        return None;
    };
    let Some(number) = decimal_of(&bytes[..end]) else {
        return None;
    };
    Some((number, &bytes[end + 1..]))
}

// Where the byte stands first.
fn place_of(bytes: &[u8], byte: u8) -> Option<usize>
    ensures within { IfSome result (λ i. i < length bytes.now) }
    ensures here { IfSome result (λ i. slice_index bytes.now i ≡ byte) }
    ensures before { IfSome result (λ i. (k : ℕ) → k < i → slice_index bytes.now k ≢ byte) }
    ensures none { IfNone result ((k : ℕ) → k < length bytes.now → slice_index bytes.now k ≢ byte) }
{
    for (place, found) in bytes.iter().enumerate() {
        if *found == byte {
            return Some(place);
        }
    }
    None
}

// The bytes behind the word, if the bytes begin with it.
fn after_word<'a>(bytes: &'a [u8], word: &[u8]) -> Option<&'a [u8]>
    ensures found { IfSome result (λ rest. bytes.now ≡ word.now ++ rest.now) }
    ensures none { IfNone result ((more : List ℕ) → bytes.now ≢ word.now ++ more) }
{
    bytes.strip_prefix(word)
}
