//! What version or record a line of a trace's text spells.
ghost use Rattle.std.specs.Prelude.{◌≡◌, IfSome, IfNone};
ghost use Rattle.dag.specs.declared.records.Version.{Version};
ghost use Rattle.trace.specs.Text.{spell, header, Fits};
ghost use Rattle.trace.specs.Faults.{IsNoHeader, IsNoRecord};

use crate::numbers::decimal_of;
use dag::{Record, Version};

/// The record that a line without its end spells in a version.
pub fn record_of(version: Version, line: &[u8]) -> Option<Record>
    ensures found { IfSome result (λ r. line.now ≡ spell r) }
    ensures fits { IfSome result (Fits version) }
    ensures none { IfNone result (IsNoRecord version line.now) }
{
    match line {
        b"spawn" => Some(Record::Spawn),
        b"return" => Some(Record::Return),
        b"sync" => Some(Record::Sync),
        b"call" => match version {
            Version::One => None,
            Version::Two => Some(Record::Call),
        },
        [b'r', b'e', b'a', b'd', b' ', digits @ ..] => match decimal_of(digits) {
            Some(location) => Some(Record::Read(location)),
            None => None,
        },
        [b'w', b'r', b'i', b't', b'e', b' ', digits @ ..] => match decimal_of(digits) {
            Some(location) => Some(Record::Write(location)),
            None => None,
        },
        _ => None,
    }
}

/// The version whose header a line without its end is.
pub fn version_of(line: &[u8]) -> Option<Version>
    ensures found { IfSome result (λ v. line.now ≡ header v) }
    ensures none { IfNone result (IsNoHeader line.now) }
{
    match line {
        b"trace 1" => Some(Version::One),
        b"trace 2" => Some(Version::Two),
        _ => None,
    }
}
