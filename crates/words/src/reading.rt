//! The command line: what its words ask for.
ghost use Rattle.std.specs.Prelude.{◌≡◌, ◌<◌, codes, decimal, map, option_map, string_bytes, IfOk, IfSome};
ghost use Rattle.dag.specs.Bounds.{IsShardCount, IsCapacity, IsDepth};
ghost use Rattle.words.specs.Asked.{IsInRange};
ghost use Rattle.words.specs.Meaning.{IsDepthAsked, IsLocationAsked, IsNamedBy, IsNumberAsked, Means, MeansOf};
ghost use Rattle.words.specs.Meaning.{MeansCheck, MeansLocation, MeansMeasure, MeansConfirm, MeansMerge};
ghost use Rattle.words.specs.Names.{IsName, IsPartAsked, part_text};
ghost use Rattle.words.specs.Matched.{rows_in};
ghost use Rattle.clap.specs.Walk.{first_of, all_of};
ghost use Rattle.clap.specs.Simple.{subcommand_rows_of};

use crate::asking::{
    Asked, CheckWords, ConfirmWords, LocationWords, MeasureWords, MergeWords, Question,
};
use crate::commands::program;
use clap::error::ErrorKind;
use clap::{ArgMatches, Error};
use std::alloc::{AllocError, Global};
use thiserror::Error as ErrorTexts;
use trace::{Part, decimal_of};

/// Why the words ask for nothing that the program can answer.
#[derive(Debug, Drop, ErrorTexts)]
pub enum WordsFault {
    /// They aren't a command line of the program.
    #[error("bad command line")]
    Bad,
    /// They ask for a text of the program's own: help, or its version.
    #[error("{0}")]
    Help(String),
    /// The allocator refused a growth.
    #[error("out of memory")]
    NoMemory,
}

impl From<AllocError> for WordsFault {
    fn from(_: AllocError) -> WordsFault {
        WordsFault::NoMemory
    }
}

/// The greatest number of shards.
pub const MOST_SHARDS: u64 = 64;

/// The number of shards if the words give none.
pub const USUAL_SHARDS: u32 = 4;

/// The greatest capacity.
pub const GREATEST_CAPACITY: u64 = 65_536;

/// The capacity if the words give none.
pub const USUAL_CAPACITY: u32 = 1024;

/// The greatest depth.
pub const GREATEST_DEPTH: u64 = 1_000_000;

/// The depth if the words give none.
pub const USUAL_DEPTH: u32 = 65_536;

/// The greatest number of parts.
pub const MOST_PARTS: u64 = 65_536;

/// Reads the words of a command line, without the program's name.
pub fn read_words(alloc: Global, words: &[String]) -> Result<Asked, WordsFault>
    ensures asked { IfOk result (Means (map string_bytes words.now)) }
    ensures within { IfOk result IsInRange }
{
    let program = program(alloc)?;
    let matches = match program.try_get_matches_from(words) {
        Ok(matches) => matches,
        Err(error) => return Err(fault_of(alloc, &error)),
    };
    asked_of(alloc, &matches)
}

// What is asked by the command that was found.
fn asked_of(alloc: Global, matches: &ArgMatches<'_>) -> Result<Asked, WordsFault>
    ensures { IfOk result (MeansOf (subcommand_rows_of matches.now)) }
{
    if let Some(found) = entered(matches, "check") {
        return Ok(Asked::Question(Question::Check(check_of(alloc, found)?)));
    }
    if let Some(found) = entered(matches, "pairs") {
        return Ok(Asked::Question(Question::Pairs(of_location(alloc, found)?)));
    }
    if let Some(found) = entered(matches, "explain") {
        return Ok(Asked::Question(Question::Explain(of_location(alloc, found)?)));
    }
    if let Some(found) = entered(matches, "measure") {
        return Ok(Asked::Question(Question::Measure(measure_of(alloc, found)?)));
    }
    if let Some(found) = entered(matches, "merge") {
        return Ok(Asked::Merge(merge_of(alloc, found)?));
    }
    match entered(matches, "confirm") {
        Some(found) => Ok(Asked::Confirm(confirm_of(alloc, found)?)),
        None => Err(WordsFault::Bad),
    }
}

// What was found of the command, if that one was entered.
fn entered<'m, 'a>(matches: &'m ArgMatches<'a>, command: &str) -> Option<&'m ArgMatches<'a>>
    ensures { IfSome result (λ found. subcommand_rows_of matches.now ≡ Some (command.now, rows_in found.now)) }
{
    matches.subcommand_matches(command)
}

// What a parse that gave nothing says: a text that was asked for, or that the words are bad.
fn fault_of(alloc: Global, error: &Error) -> WordsFault {
    match error.kind() {
        ErrorKind::DisplayHelp | ErrorKind::DisplayVersion => match error.to_string(alloc) {
            Ok(text) => WordsFault::Help(text),
            Err(_) => WordsFault::NoMemory,
        },
        ErrorKind::OutOfMemory => WordsFault::NoMemory,
        _ => WordsFault::Bad,
    }
}

// What `check` is asked.
fn check_of(alloc: Global, found: &ArgMatches<'_>) -> Result<CheckWords, WordsFault>
    ensures { IfOk result (λ check. MeansCheck check (rows_in found.now)) }
{
    let shards = shards_of(found)?;
    let capacity = capacity_of(found)?;
    let depth = depth_of(found)?;
    let part = part_of(found)?;
    let trace = name_of(alloc, found, "FILE")?;
    Ok(CheckWords {
        shards,
        capacity,
        depth,
        part,
        trace,
    })
}

// What `pairs` or `explain` is asked.
fn of_location(alloc: Global, found: &ArgMatches<'_>) -> Result<LocationWords, WordsFault>
    ensures { IfOk result (λ asked. MeansLocation asked (rows_in found.now)) }
{
    let depth = depth_of(found)?;
    let trace = name_of(alloc, found, "FILE")?;
    let location = location_of(found)?;
    Ok(LocationWords {
        depth,
        trace,
        location,
    })
}

fn measure_of(alloc: Global, found: &ArgMatches<'_>) -> Result<MeasureWords, WordsFault>
    ensures { IfOk result (λ measure. MeansMeasure measure (rows_in found.now)) }
{
    let depth = depth_of(found)?;
    let trace = name_of(alloc, found, "FILE")?;
    Ok(MeasureWords { depth, trace })
}

// What `confirm` is asked. Standard input can't be both of its files.
fn confirm_of(alloc: Global, found: &ArgMatches<'_>) -> Result<ConfirmWords, WordsFault>
    ensures { IfOk result (λ confirm. MeansConfirm confirm (rows_in found.now)) }
{
    let depth = depth_of(found)?;
    let trace = name_of(alloc, found, "TRACE")?;
    let report = name_of(alloc, found, "REPORT")?;
    if trace.as_str() == "-" && report.as_str() == "-" {
        return Err(WordsFault::Bad);
    }
    Ok(ConfirmWords {
        depth,
        trace,
        report,
    })
}

// What `merge` is asked. Standard input can be one of its files, and not two.
fn merge_of(alloc: Global, found: &ArgMatches<'_>) -> Result<MergeWords, WordsFault>
    ensures { IfOk result (λ merge. MeansMerge merge (rows_in found.now)) }
{
    let names = values_of(found, "REPORT").ok_or(WordsFault::Bad)?;
    let mut reports = Vec::new(alloc);
    let mut has_standard = false;
    for name in names {
        let name = named(alloc, name)?;
        if name.as_str() == "-" {
            if has_standard {
                return Err(WordsFault::Bad);
            }
            has_standard = true;
        }
        reports.push(name).map_err(|_| WordsFault::NoMemory)?;
    }
    if reports.is_empty() {
        return Err(WordsFault::Bad);
    }
    Ok(MergeWords { reports })
}

// The name of a file.
fn name_of(alloc: Global, found: &ArgMatches<'_>, argument: &str) -> Result<String, WordsFault>
    ensures name { IfOk result IsName }
    ensures given { IfOk result (IsNamedBy argument.now (rows_in found.now)) }
{
    let name = value_of(found, argument).ok_or(WordsFault::Bad)?;
    named(alloc, name)
}

// The name of a file that a word gives. An empty name is no name.
fn named(alloc: Global, word: &str) -> Result<String, WordsFault>
    ensures { IfOk result (λ name. IsName name × (string_bytes name ≡ word.now)) }
{
    if word.is_empty() {
        return Err(WordsFault::Bad);
    }
    let name = String::from_str(alloc, word)?;
    Ok(name)
}

// The part of the locations that the report covers.
fn part_of(found: &ArgMatches<'_>) -> Result<Part, WordsFault>
    ensures { IfOk result (IsPartAsked (first_of (codes "part") (rows_in found.now))) }
{
    match value_of(found, "part") {
        None => Ok(Part::whole()),
        Some(word) => part_from(word).ok_or(WordsFault::Bad),
    }
}

// The part that a word spells, as `2/16`.
fn part_from(word: &str) -> Option<Part>
    ensures { IfSome result (λ part. word.now ≡ part_text part) }
{
    let (index, count) = word.split_once('/')?;
    let index = decimal_of(index.as_bytes())?;
    let count = decimal_of(count.as_bytes())?;
    if count <= MOST_PARTS && index < count {
        Some(Part {
            index: index as u32,
            count: count as u32,
        })
    } else {
        None
    }
}

// A location, spelled as a trace spells it.
fn location_of(found: &ArgMatches<'_>) -> Result<u64, WordsFault>
    ensures { IfOk result (IsLocationAsked (rows_in found.now)) }
{
    let digits = value_of(found, "L").ok_or(WordsFault::Bad)?;
    decimal_of(digits.as_bytes()).ok_or(WordsFault::Bad)
}

// The number of threads that share the locations.
fn shards_of(found: &ArgMatches<'_>) -> Result<u32, WordsFault>
    ensures within { IfOk result IsShardCount }
    ensures asked { IfOk result (IsNumberAsked 4 (first_of (codes "shards") (rows_in found.now))) }
{
    match option_number(found, "shards")? {
        None => Ok(USUAL_SHARDS),
        Some(shards) if 1 <= shards && shards <= MOST_SHARDS => Ok(shards as u32),
        Some(_) => Err(WordsFault::Bad),
    }
}

// The number of records queued per shard.
fn capacity_of(found: &ArgMatches<'_>) -> Result<u32, WordsFault>
    ensures within { IfOk result IsCapacity }
    ensures asked { IfOk result (IsNumberAsked 1024 (first_of (codes "capacity") (rows_in found.now))) }
{
    match option_number(found, "capacity")? {
        None => Ok(USUAL_CAPACITY),
        Some(capacity) if 1 <= capacity && capacity <= GREATEST_CAPACITY => Ok(capacity as u32),
        Some(_) => Err(WordsFault::Bad),
    }
}

// The maximum nesting of spawns and calls.
fn depth_of(found: &ArgMatches<'_>) -> Result<u32, WordsFault>
    ensures within { IfOk result IsDepth }
    ensures asked { IfOk result (IsDepthAsked (rows_in found.now)) }
{
    match option_number(found, "depth")? {
        None => Ok(USUAL_DEPTH),
        Some(depth) if depth <= GREATEST_DEPTH => Ok(depth as u32),
        Some(_) => Err(WordsFault::Bad),
    }
}

// The number that an option gives, spelled as a trace spells its numbers; `None` without the option.
fn option_number(found: &ArgMatches<'_>, option: &str) -> Result<Option<u64>, WordsFault>
    ensures { IfOk result (λ number. first_of option.now (rows_in found.now) ≡ option_map decimal number) }
{
    let Some(digits) = value_of(found, option) else {
        return Ok(None);
    };
    let number = decimal_of(digits.as_bytes()).ok_or(WordsFault::Bad)?;
    Ok(Some(number))
}

// The word that an argument got.
#[tactic(auto, using(crate::proofs::Matches::value_matched))]
fn value_of<'a>(found: &ArgMatches<'a>, argument: &str) -> Option<&'a str>
    ensures { option_map (λ word. word.now) result ≡ first_of argument.now (rows_in found.now) }
{
    found.get_str(argument)
}

// All words that an argument got, in their order.
#[tactic(auto, using(crate::proofs::Matches::values_matched))]
fn values_of<'m, 'a>(found: &'m ArgMatches<'a>, argument: &str) -> Option<&'m [&'a str]>
    ensures { option_map (λ words. map (λ word. word.now) words.now) result ≡ all_of argument.now (rows_in found.now) }
{
    found.get_strs(argument)
}
