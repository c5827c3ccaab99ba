//! Sources and sinks: what they give and take, and runs over short and failing ones.

use crate::asking::{Faults, answer_in_pieces};
use hp_io::{
    Failed, MemorySink, MemorySource, Sink, Source, SteadySink, SteadySource, StreamSink,
    StreamSource, WriteErr,
};
use std::test::Fail;

/// Words, a text, the bytes of a call, the read that fails, the write that fails, the status, and all that is written.
/// Calls are counted from 1, and none fails where the number is 0.
type Faulty = (
    &'static str,
    &'static str,
    usize,
    u64,
    u64,
    u8,
    &'static str,
);

const LATE: &str = "const i: idx;\nquery i <= i - 1;\n";

const REFUTATION: &str = "unsatisfiable\nline 1 clause 1: 0 <= -1\nsplit 1\nleaf idx +1\n";

const FAULTY: [Faulty; 12] = [
    ("solve", LATE, 1, 0, 0, 20, REFUTATION),
    ("solve", LATE, 7, 0, 0, 20, REFUTATION),
    ("solve", "", 1_000, 1, 0, 3, ""),
    ("solve", "query 1 < 0;", 1, 2, 0, 3, ""),
    ("solve", LATE, 7, 5, 0, 3, ""),
    ("print", "query 1 < 0;", 1_000, 2, 0, 3, ""),
    ("solve", "", 1_000, 0, 1, 4, ""),
    ("solve", "", 1, 0, 3, 4, "sa"),
    ("solve", LATE, 7, 0, 3, 4, "unsatisfiable\n"),
    ("check", "", 1_000, 1, 1, 4, ""),
    ("solve", "query 1 < ", 7, 0, 2, 4, "syntax "),
    ("print", "query 1<0;", 7, 0, 3, 4, "profile 1;\nque"),
];

#[test]
fn short_and_failing_streams(rt: HostRuntime) -> Result<(), Fail> {
    for (line, text, piece, read, write, status, wanted) in FAULTY {
        let faults = Faults { piece, read, write };
        let (found, written) = answer_in_pieces(rt.alloc(), line, text.as_bytes(), faults)?;
        assert_eq!(rt; found, status, "{line} on {text}");
        assert_eq!(rt; written.as_slice(), wanted.as_bytes(), "{line} on {text}");
    }
    Ok(())
}

#[test]
fn steady_ones_give_and_take(rt: HostRuntime) -> Result<(), Fail> {
    let mut source = SteadySource::new(b"abc".to_vec(rt.alloc())?);
    let mut sink = SteadySink::new(rt.alloc());
    let mut buf = [0u8; 2];
    assert_eq!(rt; source.read(&mut buf), Ok(2));
    assert_eq!(rt; buf.as_slice(), b"ab".as_slice());
    assert_eq!(rt; source.bytes(), b"c".as_slice());
    assert_eq!(rt; source.read(&mut buf), Ok(1));
    assert_eq!(rt; source.read(&mut buf), Ok(0));
    assert_eq!(rt; sink.write(b"xyz"), Ok(3));
    assert_eq!(rt; sink.bytes(), b"xyz".as_slice());
    Ok(())
}

#[test]
fn listed_calls_fail(rt: HostRuntime) -> Result<(), Fail> {
    let mut source = MemorySource::new(b"ab".to_vec(rt.alloc())?, [2].to_vec(rt.alloc())?);
    let mut sink = MemorySink::new(rt.alloc(), [1].to_vec(rt.alloc())?);
    let mut buf = [0u8; 1];
    assert_eq!(rt; source.read(&mut buf), Ok(1));
    assert_eq!(rt; source.read(&mut buf), Err(Failed));
    assert_eq!(rt; source.bytes(), b"b".as_slice());
    assert_eq!(rt; source.read(&mut buf), Ok(1));
    assert_eq!(rt; sink.write(b"x"), Err(WriteErr::Failed));
    assert_eq!(rt; sink.write(b"y"), Ok(1));
    assert_eq!(rt; sink.bytes(), b"y".as_slice());
    Ok(())
}

#[test]
fn streams_pass_bytes_on(rt: HostRuntime) -> Result<(), Fail> {
    let mut source = StreamSource::new(b"ab".as_slice());
    let mut sink = StreamSink::new(Vec::new(rt.alloc()));
    let mut buf = [0u8; 4];
    assert_eq!(rt; source.read(&mut buf), Ok(2));
    assert_eq!(rt; source.read(&mut buf), Ok(0));
    assert_eq!(rt; sink.write(b""), Ok(0));
    assert_eq!(rt; sink.write(b"xy"), Ok(2));
    Ok(())
}
