//! Tests of sources and sinks in memory.
use crate::{
    CutSource, Failed, FreeGate, Gate, MemorySink, MemorySource, ReadStop, ShortSink, Sink, Source,
    SureSource, read_whole, write_whole,
};
use std::alloc::{AllocError, Global};
use std::process::Abort;
use std::test::Fail;

/// Reads into the piece, and asserts the answer.
pub(crate) fn expect_read<S: Source>(
    rt: &impl Abort,
    source: &mut S,
    piece: &mut [u8],
    answer: Result<usize, Failed>,
) {
    assert_eq!(rt; source.read(piece), answer);
}

/// Writes the piece, and asserts the answer.
pub(crate) fn expect_write<K: Sink>(
    rt: &impl Abort,
    sink: &mut K,
    piece: &str,
    answer: Result<usize, Failed>,
) {
    assert_eq!(rt; sink.write(piece.as_bytes()), answer);
}

/// What a read answers, and a piece of three bytes behind it.
type Read = (Result<usize, Failed>, &'static [u8; 3]);

/// Reads into a piece of three points, and asserts each answer and the bytes of the piece behind it.
fn expect_reads<S: Source>(rt: &impl Abort, source: &mut S, reads: &[Read]) {
    let mut piece = [b'.'; 3];
    for (answer, bytes) in reads {
        expect_read(rt, source, &mut piece, *answer);
        assert!(rt; piece == **bytes);
    }
}

/// A sink that shows the bytes that were written so far.
trait Shows: Sink {
    fn shown(&self) -> &[u8];
}

impl Shows for MemorySink {
    fn shown(&self) -> &[u8] {
        self.written()
    }
}

impl Shows for ShortSink {
    fn shown(&self) -> &[u8] {
        self.written()
    }
}

/// Asserts that these bytes were written.
fn expect_shown<K: Shows>(rt: &impl Abort, sink: &K, written: &str) {
    assert_eq!(rt; sink.shown(), written.as_bytes());
}

/// A piece that is written, what the write answers, and the bytes that were written so far.
type Write = (&'static str, Result<usize, Failed>, &'static str);

/// Writes the pieces, and asserts each answer and the bytes that were written so far.
fn expect_writes<K: Shows>(rt: &impl Abort, sink: &mut K, writes: &[Write]) {
    for (piece, answer, written) in writes {
        expect_write(rt, sink, piece, *answer);
        expect_shown(rt, sink, written);
    }
}

/// Which write fails, a text, what writing all of it answers, and the bytes that were written.
type WholeWrite = (u64, &'static str, Result<(), Failed>, &'static str);

/// Writes all of the row's text, and asserts the answer and the bytes that were written.
fn expect_whole<K: Shows>(rt: &impl Abort, sink: &mut K, row: &WholeWrite) {
    let (_, text, answer, written) = row;
    assert_eq!(rt; write_whole(sink, text.as_bytes()), *answer);
    expect_shown(rt, sink, written);
}

/// Asserts that a source was read whole, to these bytes.
fn expect_all(rt: &impl Abort, got: Result<Vec<u8>, ReadStop>, bytes: Vec<u8>) {
    assert_eq!(rt; got.ok(), Some(bytes));
}

/// Asserts that a source was not read whole, since a read failed.
fn expect_failed(rt: &impl Abort, got: Result<Vec<u8>, ReadStop>) {
    assert_eq!(rt; got.err(), Some(ReadStop::Failed));
}

/// A source of the text that fails at these reads.
fn memory_source(alloc: Global, text: &str, fails: &[u64]) -> Result<MemorySource, AllocError> {
    let bytes = Vec::from_slice(alloc, text.as_bytes())?;
    Ok(MemorySource::make(bytes, Vec::from_slice(alloc, fails)?))
}

/// A source of the text in pieces that fails at these reads.
fn cut_source(
    alloc: Global,
    text: &str,
    cuts: &[usize],
    fails: &[u64],
) -> Result<CutSource, AllocError> {
    let bytes = Vec::from_slice(alloc, text.as_bytes())?;
    let cuts = Vec::from_slice(alloc, cuts)?;
    Ok(CutSource::make(bytes, cuts, Vec::from_slice(alloc, fails)?))
}

/// A sink with room for so many bytes that fails at these writes.
fn memory_sink(alloc: Global, room: usize, fails: &[u64]) -> Result<MemorySink, AllocError> {
    let room = vec![in alloc; b'.'; room]?;
    Ok(MemorySink::make(room, Vec::from_slice(alloc, fails)?))
}

/// A sink with room for so many bytes that takes pieces and fails at these writes.
fn short_sink(
    alloc: Global,
    room: usize,
    takes: &[usize],
    fails: &[u64],
) -> Result<ShortSink, AllocError> {
    let room = vec![in alloc; b'.'; room]?;
    let takes = Vec::from_slice(alloc, takes)?;
    Ok(ShortSink::make(room, takes, Vec::from_slice(alloc, fails)?))
}

const FAILING_READS: [Read; 6] = [
    (Ok(3), b"abc"),
    (Err(Failed), b"abc"),
    (Ok(2), b"dec"),
    (Ok(0), b"dec"),
    (Err(Failed), b"dec"),
    (Ok(0), b"dec"),
];

#[test]
fn a_memory_source_fails_at_the_listed_reads(rt: HostRuntime) -> Result<(), Fail> {
    let mut source = memory_source(rt.alloc(), "abcde", &[2, 5])?;
    expect_reads(&rt, &mut source, &FAILING_READS);
    Ok(())
}

const CUT_READS: [Read; 7] = [
    (Ok(2), b"ab."),
    // the read that fails uses up its cut
    (Err(Failed), b"ab."),
    // a cut of 0 counts as 1
    (Ok(1), b"cb."),
    (Ok(1), b"db."),
    // past the cuts all that fits is given
    (Ok(3), b"efg"),
    (Ok(1), b"hfg"),
    (Ok(0), b"hfg"),
];

#[test]
fn a_cut_source_gives_its_bytes_in_pieces(rt: HostRuntime) -> Result<(), Fail> {
    let mut source = cut_source(rt.alloc(), "abcdefgh", &[2, 9, 0, 1], &[2])?;
    expect_reads(&rt, &mut source, &CUT_READS);
    Ok(())
}

const SHORT_WRITES: [Write; 7] = [
    ("abc", Ok(2), "ab"),
    ("cde", Err(Failed), "ab"),
    ("cde", Ok(1), "abc"),
    ("de", Ok(1), "abcd"),
    ("", Ok(0), "abcd"),
    ("efgh", Ok(3), "abcdefg"),
    ("h", Err(Failed), "abcdefg"),
];

#[test]
fn a_short_sink_takes_pieces(rt: HostRuntime) -> Result<(), Fail> {
    let mut sink = short_sink(rt.alloc(), 7, &[2, 9, 0, 1], &[2])?;
    expect_writes(&rt, &mut sink, &SHORT_WRITES);
    Ok(())
}

/// Reads a text of six bytes whole by a source that gives one byte a read, and fails at this one.
fn read_by_ones(alloc: Global, fails: u64) -> Result<Result<Vec<u8>, ReadStop>, AllocError> {
    let mut source = cut_source(alloc, "abcdef", &[1; 8], &[fails])?;
    Ok(read_whole(alloc, &mut source, 6))
}

#[test]
fn a_source_in_pieces_of_one_byte_is_read_whole(rt: HostRuntime) -> Result<(), Fail> {
    for fails in 1..8 {
        // six reads give a byte each, and the seventh finds the end
        expect_failed(&rt, read_by_ones(rt.alloc(), fails)?);
    }
    let bytes = b"abcdef".to_vec(rt.alloc())?;
    expect_all(&rt, read_by_ones(rt.alloc(), 8)?, bytes);
    Ok(())
}

const WRITES_BY_ONES: [WholeWrite; 3] = [
    (1, "abcde", Err(Failed), ""),
    (3, "abcde", Err(Failed), "ab"),
    (6, "abcde", Ok(()), "abcde"),
];

/// Writes by a sink that has room for five bytes and takes one byte a write.
fn expect_by_ones(rt: &impl Abort, alloc: Global, row: &WholeWrite) -> Result<(), AllocError> {
    let mut sink = short_sink(alloc, 5, &[1; 8], &[row.0])?;
    expect_whole(rt, &mut sink, row);
    Ok(())
}

#[test]
fn a_sink_that_takes_one_byte_is_written_up_to_its_fault(rt: HostRuntime) -> Result<(), Fail> {
    for row in &WRITES_BY_ONES {
        expect_by_ones(&rt, rt.alloc(), row)?;
    }
    Ok(())
}

const SURE_READS: [Read; 3] = [(Ok(3), b"abc"), (Ok(1), b"dbc"), (Ok(0), b"dbc")];

#[test]
fn a_sure_source_gives_its_bytes(rt: HostRuntime) -> Result<(), Fail> {
    let mut source = SureSource::make(b"abcd".to_vec(rt.alloc())?);
    expect_reads(&rt, &mut source, &SURE_READS);
    Ok(())
}

const FAILING_WRITES: [Write; 7] = [
    ("abc", Ok(3), "abc"),
    ("de", Err(Failed), "abc"),
    ("de", Ok(2), "abcde"),
    ("fgh", Ok(1), "abcdef"),
    ("g", Err(Failed), "abcdef"),
    ("", Err(Failed), "abcdef"),
    ("", Ok(0), "abcdef"),
];

#[test]
fn a_memory_sink_fails_at_the_listed_writes_and_when_full(rt: HostRuntime) -> Result<(), Fail> {
    let mut sink = memory_sink(rt.alloc(), 6, &[2, 6])?;
    expect_writes(&rt, &mut sink, &FAILING_WRITES);
    Ok(())
}

/// Which read of `abcde` fails, the most bytes that may come, and the bytes or why they are not given.
const WHOLE_READS: [(u64, usize, Result<&str, ReadStop>); 8] = [
    (0, 5, Ok("abcde")),
    (0, 6, Ok("abcde")),
    (0, usize::MAX, Ok("abcde")),
    (0, 4, Err(ReadStop::TooLong)),
    (0, 0, Err(ReadStop::TooLong)),
    (1, 5, Err(ReadStop::Failed)),
    // the first read gives all bytes, and the second fails at the end
    (2, 5, Err(ReadStop::Failed)),
    // the first read gives a byte too many, so the second is not met
    (2, 4, Err(ReadStop::TooLong)),
];

/// Asserts that a source was read whole to this text, or stopped so.
fn expect_bytes(rt: &impl Abort, got: &Result<Vec<u8>, ReadStop>, answer: Result<&str, ReadStop>) {
    match got {
        Ok(all) => assert!(rt; answer.is_ok_and(|text| text.as_bytes() == all.as_slice())),
        Err(stop) => assert_eq!(rt; answer, Err(*stop)),
    }
}

#[test]
fn a_source_is_read_to_its_end_or_past_the_limit(rt: HostRuntime) -> Result<(), Fail> {
    for (fails, most, answer) in &WHOLE_READS {
        let mut source = memory_source(rt.alloc(), "abcde", &[*fails])?;
        let got = read_whole(rt.alloc(), &mut source, *most);
        expect_bytes(&rt, &got, *answer);
    }
    Ok(())
}

/// Asserts that the fourth read of a long source is met, by its fault.
fn expect_fourth_read(rt: &impl Abort, alloc: Global) -> Result<(), AllocError> {
    let bytes = vec![in alloc; 7u8; 20_000]?;
    let mut source = MemorySource::make(bytes, Vec::from_slice(alloc, &[4])?);
    expect_failed(rt, read_whole(alloc, &mut source, 20_000));
    Ok(())
}

#[test]
fn a_long_source_is_read_in_pieces(rt: HostRuntime) -> Result<(), Fail> {
    expect_fourth_read(&rt, rt.alloc())?;
    let bytes = vec![in rt.alloc(); 7u8; 20_000]?;
    let mut source = SureSource::make(bytes.clone()?);
    expect_all(&rt, read_whole(rt.alloc(), &mut source, 20_000), bytes);
    Ok(())
}

const WHOLE_WRITES: [WholeWrite; 4] = [
    (0, "abcde", Ok(()), "abcde"),
    (0, "abcdef", Err(Failed), "abcde"),
    (1, "abc", Err(Failed), ""),
    // no bytes take no write, so none fails
    (1, "", Ok(()), ""),
];

/// Writes by a sink that has room for five bytes.
fn expect_in_room(rt: &impl Abort, alloc: Global, row: &WholeWrite) -> Result<(), AllocError> {
    let mut sink = memory_sink(alloc, 5, &[row.0])?;
    expect_whole(rt, &mut sink, row);
    Ok(())
}

#[test]
fn bytes_are_written_whole_or_in_part(rt: HostRuntime) -> Result<(), Fail> {
    for row in &WHOLE_WRITES {
        expect_in_room(&rt, rt.alloc(), row)?;
    }
    Ok(())
}

/// Asks a gate as a thread of so many calls does. How often it was let by.
fn passed<G: Gate>(gate: &G, thread: u32, calls: u32) -> u32 {
    let mut count = 0;
    for call in 0..calls {
        gate.pass_by(thread, call + 1);
        count = call + 1;
    }
    count
}

/// A thread, and how many calls it has.
const PASSES: [(u32, u32); 3] = [(1, 1), (2, 3), (16, 1_000)];

#[test]
fn a_free_gate_lets_all_by(rt: HostRuntime) -> Result<(), Fail> {
    let gate = FreeGate;
    for (thread, calls) in &PASSES {
        assert_eq!(rt; passed(&gate, *thread, *calls), *calls);
    }
    gate.pass_by(u32::MAX, u32::MAX);
    assert_eq!(rt; gate, FreeGate);
    Ok(())
}
