//! A script that comes byte by byte, and a text that is taken byte by byte, up to each fault.

ghost use Rattle.std.specs.Prelude.{◌≤◌, length};

use crate::program::test_runs::{Used, bytes_of, end, expect_text, sink_of, used_text};
use outside::{CutSource, FreeGate, ShortSink, SureSource};
use std::alloc::{AllocError, Global};
use std::process::Abort;
use std::sync::Wait;
use std::test::Fail;
use std::thread::Threads;

/// A script, with a slash for a line's end.
const SCRIPT: &str = "oak 1/thread/put 6b31 7631/get 6b31/end/";

/// The text of its run, up to the final map.
const SAYS: &str = "t1.1 new @1/t1.2 = 7631 @1/map 1/6b31 7631";

/// What is used at its end.
const USED: Used = [2, 0, 0, 0, 1, 1];

/// A one for each call, so that it gives or takes one byte.
fn ones(alloc: Global, calls: usize) -> Result<Vec<usize>, AllocError> {
    vec![in alloc; 1usize; calls]
}

/// The whole text of the run, with a slash for a line's end.
fn text_of_run(alloc: Global) -> Result<String, Fail> {
    let mut text = used_text(alloc, SAYS, USED)?;
    text.push_str("/")?;
    Ok(text)
}

/// A source that gives the script byte by byte, and fails at this read.
fn source_failing_at(alloc: Global, read: u64) -> Result<CutSource, Fail> {
    let bytes = bytes_of(alloc, SCRIPT)?;
    let cuts = ones(alloc, SCRIPT.len())?;
    Ok(CutSource::make(bytes, cuts, Vec::from_slice(alloc, &[read])?))
}

/// Asserts how the program ends and what it writes, on a source that fails at this read.
fn expect_reads<R: Threads + Wait + Clone + Drop + Send + Sync + AllocGlobal + Abort>(
    rt: &R,
    read: u64,
    status: u8,
    says: &str,
) -> Result<(), Fail> {
    let mut source = source_failing_at(rt.alloc(), read)?;
    let mut sink = sink_of(rt.alloc(), &[])?;
    end(rt, "run", &mut source, &mut sink, &FreeGate, status)?;
    let case = format!(in rt.alloc(); "{read}")?;
    expect_text(rt, rt.alloc(), sink.written(), says, case.as_str())
}

#[test]
fn reads_a_script_byte_by_byte_up_to_a_fault(rt: HostRuntime) -> Result<(), Fail> {
    // each byte takes a read, and its end one more
    let reads = SCRIPT.len() as u64 + 1;
    for read in 1..reads + 1 {
        expect_reads(&rt, read, 4, "oakmap: read fault/")?;
    }
    let says = text_of_run(rt.alloc())?;
    expect_reads(&rt, reads + 1, 0, says.as_str())
}

/// A sink with room for so many bytes that takes one byte a write, and fails at this one.
fn sink_failing_at(alloc: Global, room: usize, write: u64) -> Result<ShortSink, Fail> {
    let bytes = vec![in alloc; 0u8; room]?;
    let takes = ones(alloc, room)?;
    Ok(ShortSink::make(bytes, takes, Vec::from_slice(alloc, &[write])?))
}

/// Asserts that so many bytes of the text are written where the write of the next byte fails.
fn expect_writes<R: Threads + Wait + Clone + Drop + Send + Sync + AllocGlobal + Abort>(
    rt: &R,
    text: &[u8],
    taken: usize,
) -> Result<(), Fail>
    requires { taken ≤ length text.now }
{
    let mut source = SureSource::make(bytes_of(rt.alloc(), SCRIPT)?);
    let mut sink = sink_failing_at(rt.alloc(), text.len(), taken as u64 + 1)?;
    let status = if taken < text.len() { 5 } else { 0 };
    end(rt, "run", &mut source, &mut sink, &FreeGate, status)?;
    assert_eq!(rt; sink.written(), &text[..taken], "{taken}");
    Ok(())
}

#[test]
fn writes_a_text_byte_by_byte_up_to_a_fault(rt: HostRuntime) -> Result<(), Fail> {
    let text = bytes_of(rt.alloc(), text_of_run(rt.alloc())?.as_str())?;
    for taken in 0..text.len() + 1 {
        expect_writes(&rt, &text, taken)?;
    }
    Ok(())
}
