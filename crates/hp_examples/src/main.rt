//! Solves the files that it is given by name, and prints of each its name, the exit status and the first line of the
//! answer. The gate runs it on the examples.
#![tactic(auto)]

use hp_cli::run;
use hp_io::{SteadySink, SteadySource};
use std::alloc::{AllocError, Global};
use std::{env, fs, io};

/// The status of `solve` on a text, and what it writes.
fn solve(alloc: Global, text: Vec<u8>) -> Result<(u8, Vec<u8>), AllocError> {
    let mut words = Vec::new(alloc);
    words.push(String::from_str(alloc, "solve")?)?;
    let mut source = SteadySource::new(text);
    let mut sink = SteadySink::new(alloc);
    let status = run(alloc, words.as_slice(), &mut source, &mut sink);
    Ok((status, sink.bytes().to_vec(alloc)?))
}

fn main(rt: HostRuntime) -> io::Result<()> {
    for name in env::args(&rt)?.skip(1) {
        let text = fs::read(&rt, name.as_str())?;
        let (status, written) = solve(rt.alloc(), text)?;
        let answer = String::from_utf8_lossy(rt.alloc(), written.as_slice())?;
        let first = answer.lines().next().unwrap_or("");
        println!(rt; "{name}: {status} {first}")?;
    }
    Ok(())
}
