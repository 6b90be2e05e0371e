//! Scripts that ask for a small table, each with the text of its run.

use crate::program::test_runs::expect;
use std::process::Abort;
use std::sync::Wait;
use std::test::Fail;
use std::thread::Threads;

/// A script without its first line and its last, and the text of its run; with a slash for a line's end.
const ROWS: [(&str, &str); 7] = [
    // A removed key's entry is dropped for want of entries, and its writes still count.
    (
        "shape 4 4 16 16 0 0 0/thread/put 6b 01/remove 6b/put 61 00/put 62 00/put 63 00/put 64 00/\
         put 6b 02/get 6b",
        "t1.1 new @1/t1.2 removed @2/t1.3 new @1/t1.4 new @1/t1.5 new @1/t1.6 new @1/t1.7 new @3/\
         t1.8 = 02 @3/map 5/61 00/62 00/63 00/64 00/6b 02/arena/b16 10 16/b64 0 0/b256 0 0/\
         b1024 0 0/headers 5 16/chunks 2 4",
    ),
    // Scans over four chunks.
    (
        "shape 8 4 16 32 0 0 0/thread/put 39 00/put 38 00/put 37 00/put 36 00/put 35 00/put 34 00/\
         put 33 00/put 32 00/put 31 00/scan - -/back - -",
        "t1.1 new @1/t1.2 new @1/t1.3 new @1/t1.4 new @1/t1.5 new @1/t1.6 new @1/t1.7 new @1/\
         t1.8 new @1/t1.9 new @1/t1.10 pairs 9/+ 31 00 @1/+ 32 00 @1/+ 33 00 @1/+ 34 00 @1/\
         + 35 00 @1/+ 36 00 @1/+ 37 00 @1/+ 38 00 @1/+ 39 00 @1/t1.11 pairs 9/+ 39 00 @1/\
         + 38 00 @1/+ 37 00 @1/+ 36 00 @1/+ 35 00 @1/+ 34 00 @1/+ 33 00 @1/+ 32 00 @1/+ 31 00 @1/\
         map 9/31 00/32 00/33 00/34 00/35 00/36 00/37 00/38 00/39 00/arena/b16 18 32/b64 0 0/\
         b256 0 0/b1024 0 0/headers 9 16/chunks 4 8",
    ),
    // No block is free.
    (
        "shape 4 4 16 2 0 0 0/thread/put 61 01/put 62 02/get 61/remove 61/put 62 02",
        "t1.1 new @1/t1.2 full b16/t1.3 = 01 @1/t1.4 removed @2/t1.5 new @1/map 1/62 02/arena/\
         b16 2 2/b64 0 0/b256 0 0/b1024 0 0/headers 1 16/chunks 1 4",
    ),
    // No room is free.
    (
        "shape 1 4 16 32 0 0 0/thread/put 61 00/put 62 00/put 63 00/put 64 00/put 65 00/remove 61/\
         put 65 00",
        "t1.1 new @1/t1.2 new @1/t1.3 new @1/t1.4 new @1/t1.5 full room/t1.6 removed @2/\
         t1.7 new @1/map 4/62 00/63 00/64 00/65 00/arena/b16 8 32/b64 0 0/b256 0 0/b1024 0 0/\
         headers 4 16/chunks 1 1",
    ),
    // No header is free.
    (
        "shape 4 4 1 8 0 0 0/thread/put 61 01/put 62 02/put 61 03",
        "t1.1 new @1/t1.2 full header/t1.3 over @2/map 1/61 03/arena/b16 2 8/b64 0 0/b256 0 0/\
         b1024 0 0/headers 1 1/chunks 1 4",
    ),
    // There is no block.
    (
        "shape 1 4 1 0 0 0 0/thread/put 61 01/get 61",
        "t1.1 full b16/t1.2 none @0/map 0/arena/b16 0 0/b64 0 0/b256 0 0/b1024 0 0/headers 0 1/\
         chunks 1 1",
    ),
    // Two chunks are merged at the end.
    (
        "shape 4 4 16 32 0 0 0/thread/put 61 00/put 62 00/put 63 00/put 64 00/put 65 00/remove 61/\
         remove 64/remove 65",
        "t1.1 new @1/t1.2 new @1/t1.3 new @1/t1.4 new @1/t1.5 new @1/t1.6 removed @2/\
         t1.7 removed @2/t1.8 removed @2/map 2/62 00/63 00/arena/b16 4 32/b64 0 0/b256 0 0/\
         b1024 0 0/headers 2 16/chunks 1 4",
    ),
];

/// Runs a script of these lines.
fn expect_lines<R: Threads + Wait + Clone + Drop + Send + Sync + AllocGlobal + Abort>(
    rt: &R,
    lines: &str,
    says: &str,
) -> Result<(), Fail> {
    let text = format!(in rt.alloc(); "oak 1/{lines}/end/")?;
    expect(rt, text.as_str(), 0, says)
}

#[test]
fn answers_on_small_shapes(rt: HostRuntime) -> Result<(), Fail> {
    for (lines, says) in &ROWS {
        expect_lines(&rt, lines, says)?;
    }
    Ok(())
}
