//! The program's commands, for `clap`, and the texts of its help.
ghost use Rattle.std.specs.Prelude.{◌≡◌, [], true, IfOk, map};
ghost use Rattle.clap.specs.Simple.{app_of, new_shape};
ghost use Rattle.words.specs.CommandLine as line;
ghost use Rattle.words.specs.Building.{IsArgument, IsCommand, rule_for};

use clap::{Arg, ArgAction, Command};
use std::alloc::{AllocError, Global};

/// The program's version: that of the newest release in CHANGELOG.md.
pub const VERSION: &str = "0.1.0";

const ABOUT: &str = "\
Finds determinacy races in a fork-join program, such as one in Cilk or OpenMP, from a trace of one serial run.";

const NOTES: &str = "\
Examples:
  spbags check run.trace
  spbags explain run.trace 5
  spbags pairs run.trace 5
  spbags measure run.trace
  spbags confirm run.trace run.report
  spbags merge part-0.report part-1.report

Exit status:
  0  success: no race, the trace was measured, the report is confirmed, or help
  1  a race, or an entry of the report is no race
  2  no answer; standard error says why

A program compiled with `spbags-cc` or `spbags-c++` writes its trace to the file that SPBAGS_TRACE names.
`spbags-run ./program` runs such a program and shows its races with source lines.

A trace is text. Its first line is `trace 1` or `trace 2`. Then each record has a line, in the order of the run:
`spawn`, `sync`, `return`, `read L` or `write L`, where L is a location, 0 to 18446744073709551615. After `trace 2` a
line may also be `call`, an ordinary call of a procedure that may spawn. The root procedure's `return` is the last
line.
A file named `-` is standard input. Each command has its own help, such as `spbags check --help`.";

const CHECK_ABOUT: &str = "Reports one race for each racy location.";

const CHECK_NOTES: &str = "\
The command reads the trace from FILE, or from standard input if FILE is `-`. The first line of the report is the
number of races. Then each race has a line, such as `race 5 write 2 write 6`: the location, and the kinds and places
of its two accesses. Place k is on line k + 1 of the trace. `spbags explain run.trace 5` says why it is a race.

For a trace of a program that was compiled with `spbags-cc` use --shards 1: more are no faster there. One thread reads
the trace, and each shard is a further thread, so give at most as many shards as processors are idle. With
--capacity 16384 the threads wait for each other less often; it takes a megabyte for each shard. Neither --shards nor
--capacity changes the report.

With --part K/N the report has only the locations l with l mod N = K. `spbags merge` makes the whole report from those
of all parts. For a trace that takes minutes, `pv run.trace | spbags check -` shows the progress (pv is a Debian
package).

Examples:
  spbags check run.trace
  pv run.trace | spbags check --shards 1 --capacity 16384 -
  spbags check --shards 8 --depth 1000 run.trace
  spbags check --part 0/2 run.trace

Exit status:
  0  no race
  1  a race; the report is on standard output
  2  no answer; standard error says why";

const PAIRS_ABOUT: &str = "Lists all races of one location.";

const PAIRS_NOTES: &str = "\
The command reads the trace from FILE, or from standard input if FILE is `-`. The first line of the answer is the
number of races. Then each race has a line, such as `pair write 2 write 6`: the kinds and places of its two accesses.
The lines are sorted by the second place, then by the first. Place k is on line k + 1 of the trace.

The answer comes when the whole trace has been read. The command compares every access to L with each earlier one of L,
even if L has no race: twice as many accesses take four times as long. It keeps these accesses and their races in
memory.

Example:
  spbags pairs run.trace 5

Exit status:
  0  no race of the location
  1  a race; the pairs are on standard output
  2  no answer; standard error says why";

const EXPLAIN_ABOUT: &str =
    "Explains why the two accesses of a reported race can run in either order.";

const EXPLAIN_NOTES: &str = "\
The command reads the trace from FILE, or from standard input if FILE is `-`. If L has no race, the answer is
`no race`. Otherwise it is the race that `check` reports for L, and why another schedule may run its accesses in the
other order:

  race 5 write 2 write 6   the race: its location, and the kinds and places of its two accesses
  meet 0                   the innermost procedure that contains both accesses: its opening place; the root is 0
  first spawn 1 write 2    the way from there down to the first access: what opened each procedure, and the access
  second write 6           the way down to the second access
  joined 7                 the place where the meeting procedure next waits for its children: a sync, or its return

The line `first` begins with a spawn, and from there to the second access the meeting procedure doesn't sync.
Place k is on line k + 1 of the trace.

Example:
  spbags explain run.trace 5

Exit status:
  0  no race of the location
  1  a race; the reason is on standard output
  2  no answer; standard error says why";

const MEASURE_ABOUT: &str = "Reports how long, how parallel and how deep the run was.";

const MEASURE_NOTES: &str = "\
The command reads the trace from FILE, or from standard input if FILE is `-`. The answer has four lines:

  work 8     the number of records
  span 6     the number of records on the longest path: every schedule runs them one after another
  spawns 2   the number of spawns
  depth 1    the depth of the deepest record

The parallelism is work divided by span.

Example:
  spbags measure run.trace

Exit status:
  0  the numbers are on standard output
  2  no answer; standard error says why";

const CONFIRM_ABOUT: &str = "Says whether every entry of a report is a race of a trace.";

const CONFIRM_NOTES: &str = "\
One of TRACE and REPORT may be `-`, which is standard input. The command reads the report first; a report has at most
67108864 bytes. The answer is `yes`, or `no N` if entry N is the first that isn't a race. The command doesn't look for
missing entries, or for an earlier race of a location.

Example:
  spbags check run.trace | spbags confirm run.trace -

Exit status:
  0  yes
  1  no
  2  no answer; standard error says why";

const MERGE_ABOUT: &str = "Merges reports, such as those of all parts of a trace.";

const MERGE_NOTES: &str = "\
The command reads the reports one after another, each as a whole. One of them may be `-`, which is standard input. A
report has at most 67108864 bytes. The answer has one race of each location that any of them has. If several reports
have a race of a location, the answer has the one with the earliest second place; if several of these have the same
second place, it has that of the report named first. From the reports of parts 0 to N - 1 of a trace it makes the
report of the trace.

Example:
  spbags check --part 0/2 run.trace > part-0.report
  spbags check --part 1/2 run.trace > part-1.report
  spbags merge part-0.report part-1.report

Exit status:
  0  no report has a race
  1  a race; the report is on standard output
  2  no answer; standard error says why";

// What a command can take.
#[derive(Clone, Copy)]
enum Argument {
    Shards,
    Capacity,
    Depth,
    Part,
    // The trace of a command that reads no other file.
    File,
    // The trace and the report of a command that reads both.
    Trace,
    Report,
    // One report or more.
    Reports,
    Location,
}

/// The program with its commands, in the order of its help.
pub fn program<'a>(alloc: Global) -> Result<Command<'a>, AllocError>
    ensures { IfOk result (λ c. app_of c ≡ line.program) }
{
    bare_program(alloc)?
        .subcommand(check(alloc)?)?
        .subcommand(explain(alloc)?)?
        .subcommand(pairs(alloc)?)?
        .subcommand(measure(alloc)?)?
        .subcommand(confirm(alloc)?)?
        .subcommand(merge(alloc)?)
}

// The program without its commands.
fn bare_program<'a>(alloc: Global) -> Result<Command<'a>, AllocError>
    ensures { IfOk result (λ c. app_of c ≡ record { top = record line.program.top { is_leaf = true }; subs = [] }) }
{
    described(alloc, "spbags", ABOUT, NOTES)
        .no_binary_name(true)
        .version(VERSION)
        .subcommand_required(true)
        .disable_help_subcommand(true)
        .bin_name("spbags")
}

fn check<'a>(alloc: Global) -> Result<Command<'a>, AllocError>
    ensures { IfOk result (IsCommand line.check) }
{
    taking(
        alloc,
        "check",
        CHECK_ABOUT,
        CHECK_NOTES,
        &[
            Argument::Shards,
            Argument::Capacity,
            Argument::Depth,
            Argument::Part,
            Argument::File,
        ],
    )
}

fn explain<'a>(alloc: Global) -> Result<Command<'a>, AllocError>
    ensures { IfOk result (IsCommand line.explain) }
{
    taking(
        alloc,
        "explain",
        EXPLAIN_ABOUT,
        EXPLAIN_NOTES,
        &[Argument::Depth, Argument::File, Argument::Location],
    )
}

fn pairs<'a>(alloc: Global) -> Result<Command<'a>, AllocError>
    ensures { IfOk result (IsCommand line.pairs) }
{
    taking(
        alloc,
        "pairs",
        PAIRS_ABOUT,
        PAIRS_NOTES,
        &[Argument::Depth, Argument::File, Argument::Location],
    )
}

fn measure<'a>(alloc: Global) -> Result<Command<'a>, AllocError>
    ensures { IfOk result (IsCommand line.measure) }
{
    taking(
        alloc,
        "measure",
        MEASURE_ABOUT,
        MEASURE_NOTES,
        &[Argument::Depth, Argument::File],
    )
}

fn confirm<'a>(alloc: Global) -> Result<Command<'a>, AllocError>
    ensures { IfOk result (IsCommand line.confirm) }
{
    taking(
        alloc,
        "confirm",
        CONFIRM_ABOUT,
        CONFIRM_NOTES,
        &[Argument::Depth, Argument::Trace, Argument::Report],
    )
}

fn merge<'a>(alloc: Global) -> Result<Command<'a>, AllocError>
    ensures { IfOk result (IsCommand line.merge) }
{
    taking(
        alloc,
        "merge",
        MERGE_ABOUT,
        MERGE_NOTES,
        &[Argument::Reports],
    )
}

// A command that takes these arguments, in this order; its help shows them in the same order.
fn taking<'a>(
    alloc: Global,
    name: &'a str,
    about: &'a str,
    notes: &'a str,
    arguments: &[Argument],
) -> Result<Command<'a>, AllocError>
    ensures { IfOk result (IsCommand (line.taking name.entry.now (map rule_for arguments.now))) }
{
    let mut command = described(alloc, name, about, notes);
    for argument in arguments {
        command = command.arg(argument_of(alloc, *argument))?;
    }
    Ok(command)
}

// A command with the texts of its help, and without arguments.
fn described<'a>(alloc: Global, name: &'a str, about: &'a str, notes: &'a str) -> Command<'a>
    ensures { IsCommand (new_shape name.entry.now) result }
{
    Command::new(alloc, name).about(about).after_help(notes)
}

fn argument_of<'a>(alloc: Global, argument: Argument) -> Arg<'a>
    ensures { IsArgument (rule_for argument) result }
{
    match argument {
        Argument::Shards => number(
            alloc,
            "shards",
            "Threads that share the locations: 1 to 64, by default 4",
        ),
        Argument::Capacity => number(
            alloc,
            "capacity",
            "Records queued per shard: 1 to 65536, by default 1024",
        ),
        Argument::Depth => number(
            alloc,
            "depth",
            "Maximum nesting of spawns and calls: 0 to 1000000, by default 65536",
        ),
        Argument::Part => option(
            alloc,
            "part",
            "K/N",
            "Only the locations l with l mod N = K; N is 1 to 65536, K below N",
        ),
        Argument::File => needed(alloc, "FILE", "The trace; `-` is standard input"),
        Argument::Trace => needed(alloc, "TRACE", "The trace; `-` is standard input"),
        Argument::Report => needed(alloc, "REPORT", "The report; `-` is standard input"),
        Argument::Reports => needed(alloc, "REPORT", "A report; `-` is standard input").num_args(
            1..,
        ),
        Argument::Location => needed(alloc, "L", "The location: 0 to 18446744073709551615"),
    }
}

// An option that takes a number.
fn number<'a>(alloc: Global, name: &'a str, help: &'a str) -> Arg<'a>
    ensures { IsArgument (line.option name.entry.now) result }
{
    option(alloc, name, "N", help)
}

// An option, and what help calls its value.
fn option<'a>(alloc: Global, name: &'a str, value: &'a str, help: &'a str) -> Arg<'a>
    ensures { IsArgument (line.option name.entry.now) result }
{
    Arg::new(alloc, name)
        .long(name)
        .value_name(value)
        .action(ArgAction::Set)
        .help(help)
}

// A word that has to be there.
fn needed<'a>(alloc: Global, name: &'a str, help: &'a str) -> Arg<'a>
    ensures { IsArgument (line.needed name.entry.now) result }
{
    Arg::new(alloc, name)
        .required(true)
        .action(ArgAction::Set)
        .help(help)
}
