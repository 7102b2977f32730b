//! The program `spbags`: the races of a trace, and questions about it.
#![tactic(auto)]

use replies::{answer_asked, refuse};
use std::env;
use std::io::{BufWriter, ErrorKind};
use std::process::ExitCode;
use trace::Counted;
use words::{Asked, WordsFault, read_words};

fn main(rt: HostRuntime) -> ExitCode {
    let alloc = rt.alloc();
    let mut err = Counted::new(rt.stderr());
    // What is written waits in a buffer; without memory for one nothing can be answered.
    let buffered = match BufWriter::new(alloc, rt.stdout()) {
        Ok(buffered) => buffered,
        Err(_) => {
            let mut out = Counted::new(rt.stdout());
            return ExitCode::from(refuse(&WordsFault::NoMemory, &mut out, &mut err));
        }
    };
    let mut out = Counted::new(buffered);
    let status = match read_arguments(&rt) {
        Ok(asked) => answer_asked(&rt, &rt, &asked, &mut out, &mut err),
        Err(fault) => refuse(&fault, &mut out, &mut err),
    };
    ExitCode::from(status)
}

// Reads the program's own words. Words that aren't text ask for nothing.
fn read_arguments(rt: &HostRuntime) -> Result<Asked, WordsFault> {
    let arguments = match env::args(rt) {
        Ok(arguments) => arguments,
        Err(error) if error.kind() == ErrorKind::OutOfMemory => return Err(WordsFault::NoMemory),
        Err(_) => return Err(WordsFault::Bad),
    };
    let words = arguments.skip(1).collect::<Vec<String>>(rt.alloc())?;
    read_words(rt.alloc(), words.as_slice())
}
