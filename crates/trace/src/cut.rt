//! Where a line of a trace's text ends.
ghost use Rattle.std.specs.Prelude.{◌≤◌};
ghost use Rattle.trace.specs.Cuts.{IsCut};

use memchr::memchr;

/// The number of bytes of the longest line, without its end.
pub const LONGEST: usize = 26;

/// Where a line ends. Some bytes of it came before, and a piece follows them.
pub enum Cut {
    /// At this byte of the piece.
    LineEnd(usize),
    /// Not before its 27th byte, so it is no line of a trace.
    Long,
    /// Not in this piece. With the piece the line has at most 26 bytes.
    Open,
}

/// Looks for the end of a line; `held` bytes of it came before the piece.
pub fn cut_of(held: usize, piece: &[u8]) -> Cut
    requires { held ≤ LONGEST }
    ensures { IsCut held piece.now result }
{
    let missing = LONGEST + 1 - held;
    let window = missing.min(piece.len());
    match memchr(b'\n', &piece[..window]) {
        Some(end) => Cut::LineEnd(end),
        None if window == missing => Cut::Long,
        None => Cut::Open,
    }
}
