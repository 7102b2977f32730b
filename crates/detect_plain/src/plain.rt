//! Detection in one thread.
ghost use Rattle.trace.specs.Devices.{◌⇝◌};
ghost use Rattle.trace.specs.Endings.{EndsReading, IsWantOfMemory};
ghost use Rattle.verdict.specs.Reported.{IsReportOf, IsPartReportOf};

use crate::detector::{PartDetector, PlainDetector};
use collect::Report;
use std::alloc::Global;
use std::hash::BuildHasher;
use trace::{Fault, Limits, Part, Source, read_to_end};

/// Reads a trace to its end and reports one race of each location that has any. It is the SP-bags algorithm of Feng
/// and Leiserson, "Efficient Detection of Determinacy Races in Cilk Programs" (SPAA 1997).
///
/// A fault is the whole answer: no race comes with it. The bags, the shadow memory and the races take memory; a
/// record itself takes none.
pub fn detect_plain<R: Source, S: BuildHasher + Drop>(
    alloc: Global,
    limits: Limits,
    source: &mut R,
    hasher: S,
) -> Result<Report, Fault>
    // All bytes of the source are the text of a trace that is well nested within the limits. The report is the
    // verdict on it and its report by the dag.
    // Otherwise no memory was left, or the fault is the first. If the source holds such a trace and doesn't fail, no
    // memory was left.
    ensures { EndsReading IsWantOfMemory limits.records limits.depth (R.state source.old ⇝ R.state source.new)
        (λ report w. IsReportOf w report) result }
{
    let mut detector = PlainDetector::new(alloc, hasher)?;
    read_to_end(limits, source, &mut detector)?;
    Ok(detector.finish()?)
}

/// Reads a trace to its end and reports the races of a part of its locations. It drops an access to any other
/// location as soon as it has read it, so this access takes no memory.
pub fn detect_plain_part<R: Source, S: BuildHasher + Drop>(
    alloc: Global,
    limits: Limits,
    part: Part,
    source: &mut R,
    hasher: S,
) -> Result<Report, Fault>
    // As `detect_plain`, but that the report is what the part has of the verdict.
    ensures { EndsReading IsWantOfMemory limits.records limits.depth (R.state source.old ⇝ R.state source.new)
        (λ report w. IsPartReportOf part w report) result }
{
    let detector = PlainDetector::new(alloc, hasher)?;
    let mut watch = PartDetector { part, detector };
    read_to_end(limits, source, &mut watch)?;
    let numbered = watch.detector.finish()?;
    Ok(numbered.at_locations_of(part))
}
