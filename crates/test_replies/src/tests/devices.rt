//! Readers and writers that hand on little at a time, and that fail in one call.
use std::io;
use std::io::{ErrorKind, Read, Write};

/// Every kind of error.
pub const KINDS: [ErrorKind; 41] = [
    ErrorKind::NotFound,
    ErrorKind::PermissionDenied,
    ErrorKind::ConnectionRefused,
    ErrorKind::ConnectionReset,
    ErrorKind::HostUnreachable,
    ErrorKind::NetworkUnreachable,
    ErrorKind::ConnectionAborted,
    ErrorKind::NotConnected,
    ErrorKind::AddrInUse,
    ErrorKind::AddrNotAvailable,
    ErrorKind::NetworkDown,
    ErrorKind::BrokenPipe,
    ErrorKind::AlreadyExists,
    ErrorKind::WouldBlock,
    ErrorKind::NotADirectory,
    ErrorKind::IsADirectory,
    ErrorKind::DirectoryNotEmpty,
    ErrorKind::ReadOnlyFilesystem,
    ErrorKind::FilesystemLoop,
    ErrorKind::StaleNetworkFileHandle,
    ErrorKind::InvalidInput,
    ErrorKind::InvalidData,
    ErrorKind::TimedOut,
    ErrorKind::WriteZero,
    ErrorKind::StorageFull,
    ErrorKind::NotSeekable,
    ErrorKind::QuotaExceeded,
    ErrorKind::FileTooLarge,
    ErrorKind::ResourceBusy,
    ErrorKind::ExecutableFileBusy,
    ErrorKind::Deadlock,
    ErrorKind::CrossesDevices,
    ErrorKind::TooManyLinks,
    ErrorKind::InvalidFilename,
    ErrorKind::ArgumentListTooLong,
    ErrorKind::Interrupted,
    ErrorKind::Unsupported,
    ErrorKind::UnexpectedEof,
    ErrorKind::OutOfMemory,
    ErrorKind::InProgress,
    ErrorKind::Other,
];

/// A reader that hands at most some bytes a call.
#[derive(Drop)]
pub struct Slow<'a> {
    rest: &'a [u8],
    step: usize,
}

impl<'a> Slow<'a> {
    pub fn new(bytes: &'a [u8], step: usize) -> Slow<'a> {
        Slow { rest: bytes, step }
    }
}

impl Read for Slow<'_> {
    fn read(&mut self, buffer: &mut [u8]) -> io::Result<usize> {
        let count = self.step.min(self.rest.len()).min(buffer.len());
        let rest: &[u8] = self.rest;
        buffer[..count].copy_from_slice(&rest[..count]);
        self.rest = &rest[count..];
        Ok(count)
    }
}

/// A reader of many bytes. It keeps none: they are those that the buffers hold.
#[derive(Drop)]
pub struct Large {
    pub left: usize,
}

impl Read for Large {
    fn read(&mut self, buffer: &mut [u8]) -> io::Result<usize> {
        let count = self.left.min(buffer.len());
        self.left -= count;
        Ok(count)
    }
}

/// A reader that hands out one byte a call, and fails in one call. It goes on as if that call hadn't been made.
#[derive(Drop)]
pub struct Halting<'a> {
    rest: Slow<'a>,
    calls: usize,
    fails_at: usize,
    kind: ErrorKind,
}

impl<'a> Halting<'a> {
    pub fn new(bytes: &'a [u8], fails_at: usize, kind: ErrorKind) -> Halting<'a> {
        Halting {
            rest: Slow::new(bytes, 1),
            calls: 0,
            fails_at,
            kind,
        }
    }
}

impl Read for Halting<'_> {
    fn read(&mut self, buffer: &mut [u8]) -> io::Result<usize> {
        let call = self.calls;
        self.calls = call.saturating_add(1);
        if call == self.fails_at {
            return Err(io::Error::from(self.kind));
        }
        self.rest.read(buffer)
    }
}

/// How many bytes a writer takes before a call fails, and how the call fails: with the error, or by taking no byte if
/// there is no error.
#[derive(Clone, Copy)]
pub struct Room {
    pub bytes: usize,
    pub error: Option<ErrorKind>,
}

/// Room for every answer.
pub const ENDLESS: Room = Room {
    bytes: usize::MAX,
    error: None,
};

/// A writer that takes one byte a call. It fails in one call, and goes on as if that call hadn't been made.
#[derive(Drop)]
pub struct Full<'a> {
    held: &'a mut Vec<u8>,
    room: Room,
    failed: bool,
}

impl<'a> Full<'a> {
    pub fn new(held: &'a mut Vec<u8>, room: Room) -> Full<'a> {
        Full {
            held,
            room,
            failed: false,
        }
    }

    // Whether this is the call that fails.
    fn fails(&mut self) -> bool {
        if self.failed || self.held.len() < self.room.bytes {
            return false;
        }
        self.failed = true;
        true
    }
}

impl Write for Full<'_> {
    fn write(&mut self, buffer: &[u8]) -> io::Result<usize> {
        if buffer.is_empty() {
            return Ok(0);
        }
        if self.fails() {
            return match self.room.error {
                Some(kind) => Err(io::Error::from(kind)),
                None => Ok(0),
            };
        }
        self.held.push(buffer[0])?;
        Ok(1)
    }

    fn flush(&mut self) -> io::Result<()> {
        if self.fails() {
            return Err(io::Error::from(ErrorKind::StorageFull));
        }
        Ok(())
    }
}
