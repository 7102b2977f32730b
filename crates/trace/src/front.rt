//! The record at the front of a piece of a trace's text, if its line is of an easy form.
ghost use Rattle.std.specs.Prelude.{◌≡◌, ◌<◌, ◌≤◌, true, length, take, slice_index, IfSome, Some};
ghost use Rattle.std.specs.Int.{w32, from_le_bytes};
ghost use Rattle.dag.specs.Bounds.{longest_line};
ghost use Rattle.trace.specs.Fronts.{IsFront};
ghost use Rattle.dag.specs.declared.records.Version.{Version};

use crate::numbers::number_in_front;
use dag::{Record, Version};

/// A record at the front of a piece, and the number of bytes of its line with its end.
#[derive(Clone, Copy)]
pub struct Front {
    /// The record that the line spells.
    pub record: Record,
    /// The bytes of the line with its end: 5 to 22.
    pub used: usize,
}

/// The record at the front of a piece, if its whole line is there and is of an easy form; the answer `None` says
/// nothing. The version matters only if the line is a call's.
#[inline(always)]
pub fn front_of(version: Option<Version>, piece: &[u8]) -> Option<Front>
    requires { longest_line < length piece.now }
    ensures { IfSome result (λ f. (v : Version) → version ≡ Some v → IsFront v piece.now f) }
{
    if begins_with(piece, b"read ") {
        let number = number_in_front(&piece[5..21])?;
        Some(Front {
            record: Record::Read(number.value),
            used: number.digits + 6,
        })
    } else if begins_with(piece, b"write ") {
        let number = number_in_front(&piece[6..22])?;
        Some(Front {
            record: Record::Write(number.value),
            used: number.digits + 7,
        })
    } else if begins_with(piece, b"spawn\n") {
        Some(Front {
            record: Record::Spawn,
            used: 6,
        })
    } else if begins_with(piece, b"return\n") {
        Some(Front {
            record: Record::Return,
            used: 7,
        })
    } else if begins_with(piece, b"sync\n") {
        Some(Front {
            record: Record::Sync,
            used: 5,
        })
    } else {
        call_of(version, piece)
    }
}

// The call whose line is at the front, in the version that has calls.
#[inline(always)]
fn call_of(version: Option<Version>, piece: &[u8]) -> Option<Front>
    requires { longest_line < length piece.now }
    ensures { IfSome result (λ f. (v : Version) → version ≡ Some v → IsFront v piece.now f) }
{
    match version {
        Some(Version::Two) if begins_with(piece, b"call\n") => Some(Front {
            record: Record::Call,
            used: 5,
        }),
        _ => None,
    }
}

// Whether a text of four to seven bytes is at the front. The first four are compared at once, and the others one by
// one: `==` of slices is a loop.
#[inline(always)]
fn begins_with(piece: &[u8], text: &[u8]) -> bool
    requires some { 4 ≤ length text.now }
    requires few { length text.now ≤ 7 }
    requires whole { longest_line < length piece.now }
    ensures { result ≡ true → take (length text.now) piece.now ≡ text.now }
{
    word_of(piece) == word_of(text)
        && is_same_at(piece, text, 4)
        && is_same_at(piece, text, 5)
        && is_same_at(piece, text, 6)
}

// The first four bytes as one number.
#[inline(always)]
fn word_of(bytes: &[u8]) -> u32
    requires { 4 ≤ length bytes.now }
    ensures { result ≡ from_le_bytes w32 bytes.now }
{
    u32::from_le_bytes([bytes[0], bytes[1], bytes[2], bytes[3]])
}

// Whether the byte there is the text's, if that has one.
#[inline(always)]
fn is_same_at(piece: &[u8], text: &[u8], at: usize) -> bool
    requires { at < length piece.now }
    ensures { result ≡ true → at < length text.now → slice_index piece.now at ≡ slice_index text.now at }
{
    at >= text.len() || piece[at] == text[at]
}
