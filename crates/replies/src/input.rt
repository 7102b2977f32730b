//! Where the program reads a trace and a report from.
ghost use Rattle.std.specs.Prelude.{IfSome, IfNone};
ghost use Rattle.std.specs.Fn.{FnReturnsAt};
ghost use Rattle.std.specs.Io.{ReadsAtMost};
ghost use Rattle.std.specs.Io.KnownBytes.{ReadConsumes};
ghost use Rattle.replies.specs.Inputs.{CannotOpen, StandsFor, known_bytes};

use std::io;
use std::io::{Read, Stdin};

/// What a name on the command line stands for.
#[derive(Drop)]
pub enum Input<F> {
    /// A file.
    File(F),
    /// Standard input.
    Standard(Stdin),
}

impl<F> Input<F> {
    /// Opens what the name stands for: standard input if it is `-`, otherwise what `opener` gives for this name. It
    /// reads nothing yet.
    pub fn open<O: Fn(&str) -> io::Result<F>>(
        rt: &HostRuntime,
        name: &str,
        opener: &O,
    ) -> Option<Input<F>>
        requires { O.IsAlwaysCallable opener.now }
        ensures opened { IfSome result (StandsFor (FnReturnsAt O.Fn opener.now) name.now) }
        ensures cannot { IfNone result (CannotOpen (FnReturnsAt O.Fn opener.now) name.now) }
    {
        if name == "-" {
            return Some(Input::Standard(rt.stdin()));
        }
        match opener(name) {
            Ok(file) => Some(Input::File(file)),
            Err(_) => None,
        }
    }
}

impl<F: Read> Read for Input<F> {
    ghost remaining = { known_bytes F.remaining };

    fn read(&mut self, buffer: &mut [u8]) -> io::Result<usize>
        ensures bound { ReadsAtMost result buffer.new }
        ensures bytes { ReadConsumes (known_bytes F.remaining self.old) (known_bytes F.remaining self.new)
            result buffer.new }
    {
        match self {
            Input::File(file) => file.read(buffer),
            Input::Standard(stdin) => stdin.read(buffer),
        }
    }
}
