//! Decides ground goals over whole numbers and fractions, and prints problems: the program over standard input and output.
#![tactic(auto)]

ghost use Rattle.hpilot.specs.Exit.{IsExit};

mod exit;
mod words;

use exit::exit;
use hp_io::{StreamSink, StreamSource};
use std::io;
use std::process::ExitCode;
use words::words;

/// The exit status over the real words and streams.
fn status(rt: &HostRuntime) -> u8
    ensures { IsExit result }
{
    let mut source = StreamSource::new(rt.reader());
    let mut sink = StreamSink::new(io::writer(rt));
    exit(rt.alloc(), words(rt), &mut source, &mut sink)
}

fn main(rt: HostRuntime) -> ExitCode {
    ExitCode::from(status(&rt))
}
