//! What is said where no run is printed whole.

use crate::program::test_runs::{bytes_of, expect, expect_end, repeated};
use outside::{MemorySource, SureSource};
use std::alloc::Global;
use std::test::Fail;

/// Texts that are no scripts, and the line that tells their first fault.
const FAULTS: [(&str, &str); 23] = [
    ("oak 1/thread/get 6b/", "oakmap: line 4: no end"),
    ("oak 1/thread/put 6b3 01/end/", "oakmap: line 3: hex"),
    ("", "oakmap: line 1: head"),
    (
        "oak 1/shape 4 3 16 2 0 0 0/thread/end/",
        "oakmap: line 2: shape",
    ),
    (
        "oak 1/thread/shape 4 4 16 2 0 0 0/end/",
        "oakmap: line 3: word",
    ),
    ("oak 1", "oakmap: line 2: no end"),
    ("oak 1\r", "oakmap: line 1: head"),
    ("oak 1/end", "oakmap: line 2: word"),
    ("oak 1/thread x/end", "oakmap: line 2: word"),
    ("oak 1/thread/end/end", "oakmap: line 4: after end"),
    (
        "oak 1/shape 0 4 16 2 0 0 0/thread/end",
        "oakmap: line 2: shape",
    ),
    (
        "oak 1/shape 04 4 16 2 0 0 0/thread/end",
        "oakmap: line 2: shape",
    ),
    (
        "oak 1/shape 4 4 16 2 0 0/thread/end",
        "oakmap: line 2: word",
    ),
    ("oak 1/thread/put 6B 01/end", "oakmap: line 3: hex"),
    ("oak 1/thread/put 6b  01/end", "oakmap: line 3: word"),
    ("oak 1/thread/get -/end", "oakmap: line 3: hex"),
    ("oak 1/thread/upsert 6b 01/end", "oakmap: line 3: word"),
    ("oak 1/thread/compute 6b add/end", "oakmap: line 3: recipe"),
    (
        "oak 1/thread/compute 6b rev 1/end",
        "oakmap: line 3: recipe",
    ),
    (
        "oak 1/thread/compute 6b xor 100/end",
        "oakmap: line 3: recipe",
    ),
    (
        "oak 1/thread/compute 6b add 18446744073709551616/end",
        "oakmap: line 3: recipe",
    ),
    ("oak 1/thread/hold A 6b/end", "oakmap: line 3: name"),
    (
        "oak 1/thread/look abcdefghijklmnopq/end",
        "oakmap: line 3: name",
    ),
];

#[test]
fn tells_the_first_fault(rt: HostRuntime) -> Result<(), Fail> {
    for (text, says) in &FAULTS {
        expect(&rt, text, 3, says)?;
    }
    let text = repeated(rt.alloc(), "oak 1/", "thread/", 17, "end/")?;
    expect(&rt, text.as_str(), 3, "oakmap: line 18: threads")?;
    let text = repeated(rt.alloc(), "oak 1/thread/", "scan - -/", 33, "end/")?;
    expect(&rt, text.as_str(), 3, "oakmap: line 35: scans")
}

/// Words with which the program is not to be called.
const WRONG_WORDS: [&str; 16] = [
    "run x",
    "ran",
    "Run",
    "",
    "gen",
    "gen 1 1",
    "gen 1 1 0 0",
    "gen 0 1 0",
    "gen 65537 1 0",
    "gen 1 0 0",
    "gen 1 17 0",
    "gen 65536 5 0",
    "gen 1 1 65536",
    "gen 01 1 0",
    "gen 1 1 -",
    "Gen 1 1 0",
];

#[test]
fn judges_the_words_first(rt: HostRuntime) -> Result<(), Fail> {
    let says = "oakmap: usage: oakmap run | gen N T S/";
    for words in &WRONG_WORDS {
        let mut source = SureSource::make(Vec::new(rt.alloc()));
        expect_end(&rt, words, &mut source, &[], 2, says)?;
    }
    Ok(())
}

/// A lawful script.
const SCRIPT: &str = "oak 1/thread/put 6b31 7631/get 6b31/end/";

/// A source of it that fails at the first read.
fn failing_source(alloc: Global) -> Result<MemorySource, Fail> {
    let bytes = bytes_of(alloc, SCRIPT)?;
    Ok(MemorySource::make(bytes, Vec::from_slice(alloc, &[1])?))
}

#[test]
fn counts_faults_of_the_outside(rt: HostRuntime) -> Result<(), Fail> {
    let mut source = failing_source(rt.alloc())?;
    expect_end(&rt, "run", &mut source, &[], 4, "oakmap: read fault/")?;

    let mut source = SureSource::make(bytes_of(rt.alloc(), SCRIPT)?);
    expect_end(&rt, "run", &mut source, &[1], 5, "")
}

#[test]
fn refuses_an_input_that_is_too_long(rt: HostRuntime) -> Result<(), Fail> {
    let mut source = SureSource::make(vec![in rt.alloc(); 97u8; 16_777_217]?);
    let says = "oakmap: input is longer than 16777216 bytes/";
    expect_end(&rt, "run", &mut source, &[], 3, says)
}
