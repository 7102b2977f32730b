//! Sources of bytes for tests.
ghost use Rattle.std.specs.Prelude.{None, false};

use trace::{Failed, Source};

/// Hands out the bytes, so many at each call, and fails once they have all come, if that is asked. A call
/// after the failure would hand out the end of the input.
#[derive(Drop)]
pub struct Pieces<'a> {
    pub bytes: &'a [u8],
    pub size: usize,
    pub fails: bool,
    pub failed: u64,
}

impl<'a> Pieces<'a> {
    /// Pieces of this size, without a failure.
    pub fn of(bytes: &'a [u8], size: usize) -> Pieces<'a> {
        Pieces {
            bytes,
            size,
            fails: false,
            failed: 0,
        }
    }
}

impl<'a> Source for Pieces<'a> {
    ghost state = { λ s. record { bytes = None; failures = s.failed; holds_back = false } };

    fn get(&mut self, buffer: &mut [u8]) -> Result<usize, Failed> {
        if self.bytes.is_empty() && self.fails {
            self.fails = false;
            self.failed = self.failed.saturating_add(1);
            return Err(Failed);
        }
        let count = self.size.min(self.bytes.len()).min(buffer.len());
        let (front, back) = self.bytes.split_at(count);
        buffer[..count].copy_from_slice(front);
        self.bytes = back;
        Ok(count)
    }
}
