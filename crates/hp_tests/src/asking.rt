//! A run over memory: words and a text in, status and text out.

ghost use Rattle.std.specs.Prelude.{None};

use hp_cli::run;
use hp_io::{Failed, MemorySink, MemorySource, Sink, Source, SteadySink, SteadySource, WriteErr};
use std::alloc::{AllocError, Global};

/// The words of a command line.
fn words(alloc: Global, line: &str) -> Result<Vec<String>, AllocError> {
    let mut words = Vec::new(alloc);
    for word in line.split_whitespace() {
        words.push(String::from_str(alloc, word)?)?;
    }
    Ok(words)
}

/// The status of a run on a text, and what it writes.
pub fn answer(alloc: Global, line: &str, text: &[u8]) -> Result<(u8, Vec<u8>), AllocError> {
    let words = words(alloc, line)?;
    let mut source = SteadySource::new(text.to_vec(alloc)?);
    let mut sink = SteadySink::new(alloc);
    let status = run(alloc, words.as_slice(), &mut source, &mut sink);
    Ok((status, sink.bytes().to_vec(alloc)?))
}

/// A source that gives at most so many bytes in a call.
#[derive(Drop)]
struct Drops {
    piece: usize,
    inner: MemorySource,
}

impl Source for Drops {
    ghost left = { λ s. None };

    ghost faults = { λ s. s.inner.faults };

    fn read(&mut self, buf: &mut [u8]) -> Result<usize, Failed> {
        let room = buf.len().min(self.piece);
        self.inner.read(&mut buf[..room])
    }
}

/// A sink that takes at most so many bytes in a call, and at least one.
#[derive(Drop)]
struct Sips {
    piece: usize,
    inner: MemorySink,
}

impl Sink for Sips {
    ghost written = { λ s. None };

    ghost faults = { λ s. s.inner.faults };

    fn write(&mut self, bytes: &[u8]) -> Result<usize, WriteErr> {
        let some = bytes.len().min(self.piece.max(1));
        self.inner.write(&bytes[..some])
    }
}

/// At most how many bytes a call passes on, and the number of the read and of the write that fails. Calls are counted
/// from 1, and none fails where the number is 0.
#[derive(Clone, Copy)]
pub struct Faults {
    pub piece: usize,
    pub read: u64,
    pub write: u64,
}

/// The same as `answer`, over a source and a sink that pass on a piece in a call, and fail.
pub fn answer_in_pieces(
    alloc: Global,
    line: &str,
    text: &[u8],
    faults: Faults,
) -> Result<(u8, Vec<u8>), AllocError> {
    let words = words(alloc, line)?;
    let mut source = Drops {
        piece: faults.piece,
        inner: MemorySource::new(text.to_vec(alloc)?, [faults.read].to_vec(alloc)?),
    };
    let mut sink = Sips {
        piece: faults.piece,
        inner: MemorySink::new(alloc, [faults.write].to_vec(alloc)?),
    };
    let status = run(alloc, words.as_slice(), &mut source, &mut sink);
    Ok((status, sink.inner.bytes().to_vec(alloc)?))
}
