//! A source that hands out its bytes in pieces, and fails in between.

use std::io::{self, ErrorKind, Read};

/// Hands out the first bytes in pieces of the size, and then the others. If asked to, it fails once in between; the
/// calls after that go on as if that one hadn't been made.
#[derive(Clone, Copy)]
pub struct Parts<'a> {
    first: &'a [u8],
    second: &'a [u8],
    size: usize,
    fails: bool,
}

impl<'a> Parts<'a> {
    /// All bytes in pieces of the size, with a failure at their end or without one.
    pub fn of(bytes: &'a [u8], size: usize, fails: bool) -> Parts<'a> {
        Parts {
            first: bytes,
            second: b"",
            size,
            fails,
        }
    }

    /// The bytes up to this one, and then the others, with a failure in between or without one.
    pub fn cut(bytes: &'a [u8], place: usize, size: usize, fails: bool) -> Parts<'a> {
        let (first, second) = bytes.split_at(place.min(bytes.len()));
        Parts {
            first,
            second,
            size,
            fails,
        }
    }
}

impl Read for Parts<'_> {
    fn read(&mut self, buffer: &mut [u8]) -> io::Result<usize> {
        if self.first.is_empty() {
            if self.fails {
                self.fails = false;
                return Err(io::Error::from(ErrorKind::Interrupted));
            }
            self.first = self.second;
            self.second = b"";
        }
        let part: &[u8] = self.first;
        let count = self.size.min(part.len()).min(buffer.len());
        buffer[..count].copy_from_slice(&part[..count]);
        self.first = &part[count..];
        Ok(count)
    }
}
