//! A line of text in a buffer on the stack, built from its end.
ghost use Rattle.std.specs.Prelude.{◌≡◌, ◌+◌, ◌≤◌, [], ◌++◌, length, decimal};

use itoa::write_digits;
use std::marker::Model;

// The longest line is a number of 20 digits between texts of 20 and 32 bytes.
const ROOM: usize = 72;

/// A line of at most 72 bytes. Each call adds a text in front.
#[derive(Drop)]
pub struct Line {
    bytes: [u8; ROOM],
    start: usize,
}

impl Model for Line {
    ghost use Rattle.std.specs.Prelude.{List, ℕ, drop, ◌≤◌};

    ghost Value = { List ℕ };

    ghost view = { λ l. drop l.start l.bytes };

    ghost invariant = { λ l. l.start ≤ 72 };
}

impl Line {
    /// A line without bytes.
    pub fn new() -> Line
        ensures text { result ≡ [] }
        ensures len { length result ≡ 0 }
    {
        Line {
            bytes: [0; ROOM],
            start: ROOM,
        }
    }

    /// Adds a word in front.
    pub fn word(&mut self, word: &[u8])
        requires { length word.now + length self.old ≤ 72 }
        ensures text { self.new ≡ word.now ++ self.old }
        ensures len { length self.new ≡ length word.now + length self.old }
    {
        let after = self.start;
        self.start = after - word.len();
        self.bytes[self.start..after].copy_from_slice(word);
    }

    /// Adds a number in front.
    pub fn number(&mut self, number: u64)
        requires { length (decimal number) + length self.old ≤ 72 }
        ensures text { self.new ≡ decimal number ++ self.old }
        ensures len { length self.new ≡ length (decimal number) + length self.old }
    {
        self.start = write_digits(number, &mut self.bytes, self.start);
    }

    /// The bytes so far.
    pub fn as_bytes(&self) -> &[u8]
        ensures { result.now ≡ self.now }
    {
        let bytes: &[u8] = &self.bytes;
        &bytes[self.start..]
    }
}
