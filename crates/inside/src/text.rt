//! A text in memory, as a sink.
ghost use Rattle.std.specs.Prelude.{Some, false};

use std::io::Write;
use trace::{Failed, Sink};

/// The bytes that it got, and how often memory was refused.
#[derive(Drop)]
pub(crate) struct Text {
    pub(crate) bytes: Vec<u8>,
    pub(crate) failed: u64,
}

impl Sink for Text {
    ghost state = { λ s. record { bytes = Some s.bytes.items; failures = s.failed; holds_back = false } };

    fn put(&mut self, buffer: &[u8]) -> Result<usize, Failed> {
        match self.bytes.write(buffer) {
            Ok(count) => Ok(count),
            Err(_) => {
                self.failed = self.failed.saturating_add(1);
                Err(Failed)
            }
        }
    }

    fn flush(&mut self) -> Result<(), Failed> {
        Ok(())
    }
}
