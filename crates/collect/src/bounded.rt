//! How a report of bounded size is read: all its bytes first, and then its entries.
ghost use Rattle.std.specs.Prelude.{◌≡◌, ℕ, ◌+◌, ◌<◌, ◌≤◌, List, ◌++◌, length, Ok};
ghost use Rattle.std.specs.Prelude.{true, false, ◌⊎◌, IfErr, OnOk, MatchResult};
ghost use Rattle.std.specs.Io.KnownBytes.{Keeps};
ghost use Rattle.trace.specs.Devices.{◌⇝◌, Gave, IsUsedUp, IsSteady, HasFailed};
ghost use Rattle.collect.specs.declared.bounded.ReportRefusal.TheVariants as refusals;
ghost use Rattle.collect.specs.ReportBytes.{GivesReport, GivesAll, IsRefusal, most_report_bytes, refusal_of};

use crate::readers::{ReportFault, read_report};
use crate::reports::Report;
use std::alloc::{AllocError, Global};
use trace::{Failed, Source};

/// The greatest number of bytes of a report.
pub const MOST_BYTES: usize = 67_108_864;

/// Why there is no report.
#[derive(Clone, Copy, Debug, PartialEq, Eq)]
pub enum ReportRefusal {
    /// The source failed.
    Read,
    /// It has more bytes than a report may have.
    TooLarge,
    /// The first line that may not be where it is. The first line is line 1.
    Bad { line: u64 },
    /// The allocator refused a growth.
    NoMemory,
}

impl From<ReportFault> for ReportRefusal {
    ghost from_gives = { λ fault refusal. refusal ≡ refusal_of fault };

    fn from(fault: ReportFault) -> ReportRefusal {
        match fault {
            ReportFault::Bad { line } => ReportRefusal::Bad { line },
            ReportFault::NoMemory => ReportRefusal::NoMemory,
        }
    }
}

impl From<Failed> for ReportRefusal {
    ghost from_gives = { λ _ refusal. refusal ≡ refusals.Read };

    fn from(_: Failed) -> ReportRefusal {
        ReportRefusal::Read
    }
}

impl From<AllocError> for ReportRefusal {
    ghost from_gives = { λ _ refusal. refusal ≡ refusals.NoMemory };

    fn from(_: AllocError) -> ReportRefusal {
        ReportRefusal::NoMemory
    }
}

/// Reads a report to its end. If it is too long, it reads one byte more than the limit and stops.
pub fn report_from<Q: Source>(alloc: Global, source: &mut Q) -> Result<Report, ReportRefusal>
    ensures { MatchResult result (GivesReport (Q.state source.old ⇝ Q.state source.new))
        (IsRefusal (Q.state source.old ⇝ Q.state source.new)) }
{
    let bytes = bytes_from(alloc, source)?;
    let report = read_report(alloc, bytes.as_slice())?;
    Ok(report)
}

// All bytes of a source.
fn bytes_from<Q: Source>(alloc: Global, source: &mut Q) -> Result<Vec<u8>, ReportRefusal>
    ensures { MatchResult result (λ bytes. GivesAll (Q.state source.old ⇝ Q.state source.new) bytes.items)
        (IsRefusal (Q.state source.old ⇝ Q.state source.new)) }
{
    let mut bytes = Vec::new(alloc);
    while bytes.len() <= MOST_BYTES {
        if !read_more(&mut bytes, source)? {
            return Ok(bytes);
        }
    }
    Err(ReportRefusal::TooLarge)
}

// Appends the next bytes of a source, and no more than one above the most. Whether there were any.
fn read_more<Q: Source>(bytes: &mut Vec<u8>, source: &mut Q) -> Result<bool, ReportRefusal>
    requires { length bytes.old.items ≤ most_report_bytes }
    ensures came { OnOk result ((came : List ℕ) × Gave (Q.state source.old ⇝ Q.state source.new) came
        × (bytes.new.items ≡ bytes.old.items ++ came)) }
    ensures within { OnOk result (length bytes.new.items ≤ most_report_bytes + 1) }
    ensures some { result ≡ Ok true → length bytes.old.items < length bytes.new.items }
    ensures none { result ≡ Ok false → (bytes.new.items ≡ bytes.old.items) × IsUsedUp (Q.state source.new) }
    ensures steady { OnOk result (IsSteady (Q.state source.old ⇝ Q.state source.new)) }
    ensures refused { IfErr result
        (λ e. ((e ≡ ReportRefusal.Read) × Keeps (Q.state source.old).bytes (Q.state source.new).bytes
        × HasFailed (Q.state source.old ⇝ Q.state source.new)) ⊎ (e ≡ ReportRefusal.NoMemory)) }
{
    let mut buffer = [0; 4096];
    let room = buffer.len().min(MOST_BYTES + 1 - bytes.len());
    let count = source.get(&mut buffer[..room])?;
    bytes.extend_from_slice(&buffer[..count])?;
    Ok(count > 0)
}
