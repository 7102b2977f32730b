//! Devices: the sources that a program reads texts from and the sinks that it writes them to. Each counts its
//! failures.
ghost use Rattle.std.specs.Prelude.{◌≡◌, ◌<◌, false, length, IfOk, OnOk};
ghost use Rattle.std.specs.Io.{ReadsAtMost, WritesAtMost};
ghost use Rattle.std.specs.Io.KnownBytes.{ReadConsumes, WriteAppends, Keeps};
ghost use Rattle.trace.specs.Devices.{Device, ◌⇝◌, Counts, HasPassedOn};

use std::io::{Read, Write};

/// A source or a sink failed in this call.
#[derive(Clone, Copy, Debug, PartialEq, Eq)]
pub struct Failed;

/// What a program reads bytes from.
pub trait Source {
    /// The bytes that are still to come, if the source shows them, and how often it has failed. That count stays at
    /// 2^64 - 1.
    ghost state: { Self → Device };

    /// Puts the next bytes at the front of the buffer, and returns their number. If the buffer isn't empty, 0 means
    /// the end of the input.
    fn get(&mut self, buffer: &mut [u8]) -> Result<usize, Failed>
        ensures bound { ReadsAtMost result buffer.new }
        ensures bytes { ReadConsumes (state self.old).bytes (state self.new).bytes result buffer.new }
        ensures count { Counts result (state self.old ⇝ state self.new) };
}

/// What a program writes bytes to.
pub trait Sink {
    /// The bytes that it has taken, if the sink shows them, how often it has failed, and whether it may hold back some.
    /// That count stays at 2^64 - 1.
    ghost state: { Self → Device };

    /// Takes bytes from the front of the buffer, and returns their number. A sink that takes no byte of a buffer that
    /// isn't empty has failed.
    fn put(&mut self, buffer: &[u8]) -> Result<usize, Failed>
        ensures bound { WritesAtMost result buffer.now }
        ensures some { IfOk result (λ n. 0 < length buffer.now → 0 < n) }
        ensures bytes { WriteAppends (state self.old).bytes (state self.new).bytes result buffer.now }
        ensures count { Counts result (state self.old ⇝ state self.new) };

    /// Passes on the bytes that it holds back.
    fn flush(&mut self) -> Result<(), Failed>
        ensures bytes { Keeps (state self.old).bytes (state self.new).bytes }
        ensures passed { OnOk result (HasPassedOn (state self.new)) }
        ensures count { Counts result (state self.old ⇝ state self.new) };
}

/// A reader or a writer with a count of its failures.
#[derive(Drop)]
pub struct Counted<D> {
    device: D,
    failed: u64,
    /// Whether bytes were put since the last flush.
    holds_back: bool,
}

impl<D> Counted<D> {
    /// Makes a source of a reader, or a sink of a writer. It hasn't failed yet.
    pub fn new(device: D) -> Self
        ensures device { result.device ≡ device }
        ensures none { result.failed ≡ 0 }
    {
        Counted {
            device,
            failed: 0,
            holds_back: false,
        }
    }
}

impl<D: Read> Source for Counted<D> {
    ghost state = { λ s. record { bytes = D.remaining s.device; failures = s.failed; holds_back = false } };

    fn get(&mut self, buffer: &mut [u8]) -> Result<usize, Failed> {
        match self.device.read(buffer) {
            Ok(count) => Ok(count),
            Err(_) => {
                self.failed = self.failed.saturating_add(1);
                Err(Failed)
            }
        }
    }
}

impl<D: Write> Sink for Counted<D> {
    ghost state = { λ s. record { bytes = D.contents s.device; failures = s.failed; holds_back = s.holds_back } };

    fn put(&mut self, buffer: &[u8]) -> Result<usize, Failed> {
        self.holds_back = true;
        match self.device.write(buffer) {
            Ok(count) if count > 0 || buffer.is_empty() => Ok(count),
            _ => {
                self.failed = self.failed.saturating_add(1);
                Err(Failed)
            }
        }
    }

    fn flush(&mut self) -> Result<(), Failed> {
        match self.device.flush() {
            Ok(()) => {
                self.holds_back = false;
                Ok(())
            }
            Err(_) => {
                self.failed = self.failed.saturating_add(1);
                Err(Failed)
            }
        }
    }
}

impl<S: Source> Source for &mut S {
    ghost state = { λ s. S.state s.now };

    fn get(&mut self, buffer: &mut [u8]) -> Result<usize, Failed> {
        (**self).get(buffer)
    }
}

impl<W: Sink> Sink for &mut W {
    ghost state = { λ s. W.state s.now };

    fn put(&mut self, buffer: &[u8]) -> Result<usize, Failed> {
        (**self).put(buffer)
    }

    fn flush(&mut self) -> Result<(), Failed> {
        (**self).flush()
    }
}
