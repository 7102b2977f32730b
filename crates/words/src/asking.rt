//! What the program is asked: a command with its numbers and file names, each in its range.
ghost use Rattle.std.specs.Prelude.{◌≡◌, ◌<◌, All, AllPairs, string_len, string_bytes, codes, vec_len};
ghost use Rattle.dag.specs.Bounds.{IsShardCount, IsCapacity, IsDepth};
ghost use Rattle.words.specs.Names.{IsName, IsOneStandard};

use trace::Part;

/// What the words ask for.
#[derive(Debug, Drop, PartialEq, Eq)]
pub enum Asked {
    /// What a trace alone answers.
    Question(Question),
    /// Whether the entries of a report are races.
    Confirm(ConfirmWords),
    /// One report made of many.
    Merge(MergeWords),
}

/// What is asked of a trace alone.
#[derive(Debug, Drop, PartialEq, Eq)]
pub enum Question {
    /// The races of a trace.
    Check(CheckWords),
    /// All races of one location.
    Pairs(LocationWords),
    /// Why one location is racy.
    Explain(LocationWords),
    /// The numbers of a trace.
    Measure(MeasureWords),
}

/// `check`: the races of a trace.
#[derive(Debug, Drop, PartialEq, Eq)]
pub struct CheckWords {
    /// The number of threads that share the locations.
    pub shards: u32,
    /// The number of records queued per shard.
    pub capacity: u32,
    /// The maximum nesting of spawns and calls.
    pub depth: u32,
    /// The part of the locations that the report covers; the whole if the words name no part.
    pub part: Part,
    /// The name of the trace's file; `-` is standard input.
    pub trace: String,
    ghost shards_within: { IsShardCount shards },
    ghost capacity_within: { IsCapacity capacity },
    ghost depth_within: { IsDepth depth },
    ghost trace_named: { 0 < string_len trace },
}

/// `pairs` and `explain`: what is asked of one location.
#[derive(Debug, Drop, PartialEq, Eq)]
pub struct LocationWords {
    /// The maximum nesting of spawns and calls.
    pub depth: u32,
    /// The name of the trace's file; `-` is standard input.
    pub trace: String,
    /// The location.
    pub location: u64,
    ghost depth_within: { IsDepth depth },
    ghost trace_named: { 0 < string_len trace },
}

/// `measure`: the numbers of a trace.
#[derive(Debug, Drop, PartialEq, Eq)]
pub struct MeasureWords {
    /// The maximum nesting of spawns and calls.
    pub depth: u32,
    /// The name of the trace's file; `-` is standard input.
    pub trace: String,
    ghost depth_within: { IsDepth depth },
    ghost trace_named: { 0 < string_len trace },
}

/// `confirm`: whether the entries of a report are races.
#[derive(Debug, Drop, PartialEq, Eq)]
pub struct ConfirmWords {
    /// The maximum nesting of spawns and calls.
    pub depth: u32,
    /// The name of the trace's file; `-` is standard input.
    pub trace: String,
    /// The name of the report's file; `-` is standard input, if the trace's name isn't `-`.
    pub report: String,
    ghost depth_within: { IsDepth depth },
    ghost trace_named: { 0 < string_len trace },
    ghost report_named: { 0 < string_len report },
    ghost one_standard: { string_bytes trace ≡ codes "-" → string_bytes report ≡ codes "-" → ⊥ },
}

/// `merge`: one report made of many.
#[derive(Debug, Drop, PartialEq, Eq)]
pub struct MergeWords {
    /// The names of the reports' files, in their order; at most one is `-`, standard input.
    pub reports: Vec<String>,
    ghost some: { 0 < vec_len reports },
    ghost named: { All IsName reports.items },
    ghost one_standard: { AllPairs IsOneStandard reports.items },
}

impl Question {
    ghost use Rattle.words.specs.Asked.{trace_name};

    /// The name of the trace's file.
    pub fn trace(&self) -> &str
        ensures { result.now ≡ trace_name self.now }
    {
        match self {
            Question::Check(check) => check.trace.as_str(),
            Question::Pairs(pairs) => pairs.trace.as_str(),
            Question::Explain(explain) => explain.trace.as_str(),
            Question::Measure(measure) => measure.trace.as_str(),
        }
    }
}
