//! The words with which the process is called.

use crate::program::test_runs::{bytes_of, expect_text, sink_of};
use oakmap::program;
use outside::{FreeGate, SureSource};
use std::env::{Env, FillError};
use std::process::{Abort, ExitCode};
use std::sync::Wait;
use std::test::Fail;
use std::thread::Threads;

/// The words with which a process was called, its name first.
#[derive(Clone, Copy)]
struct Called<R> {
    rt: R,
    words: &'static [&'static [u8]],
}

impl<R: Wait> Wait for Called<R> {}

impl<R: Threads> Threads for Called<R> {}

impl<R> Env for Called<R> {
    fn arg(&self, i: usize, buf: &mut [u8]) -> Result<usize, FillError> {
        let Some(word) = self.words.get(i) else {
            return Err(FillError::NotPresent);
        };
        if buf.len() < word.len() {
            return Err(FillError::TooLong);
        }
        buf[..word.len()].copy_from_slice(word);
        Ok(word.len())
    }

    fn var(&self, _name: &str, _buf: &mut [u8]) -> Result<usize, FillError> {
        Err(FillError::NotPresent)
    }

    fn var_at(&self, _i: usize, _buf: &mut [u8]) -> Result<usize, FillError> {
        Err(FillError::NotPresent)
    }
}

/// Each way to call the program on a script of no call, the status, and the text that it says, with a slash
/// for a line's end.
const CALLS: [(&[&[u8]], u8, &str); 9] = [
    (&[b"oakmap", b"run"], 0, EMPTY),
    (&[b"run", b"run"], 0, EMPTY),
    (&[b"run"], 2, USAGE),
    (&[b"oakmap", b"ran"], 2, USAGE),
    (&[b"oakmap", b"run", b"run"], 2, USAGE),
    (&[b"oakmap", b"run\xff"], 2, USAGE),
    (&[b"oakmap", b"gen", b"4", b"1", b"0"], 0, SUMMARY),
    (&[b"gen", b"4", b"1", b"0"], 2, USAGE),
    (&[b"oakmap", b"gen", b"65536", b"5", b"0"], 2, USAGE),
];

const EMPTY: &str = "map 0/arena/b16 0 16384/b64 0 4096/b256 0 1024/b1024 0 512/headers 0 8192/\
    chunks 1 256/";

const USAGE: &str = "oakmap: usage: oakmap run | gen N T S/";

const SUMMARY: &str = "gen 4 1 0/calls 4/full 0/keys 4/sum 4/b16 8/";

/// Calls the program with these words, and asserts the status and the text.
fn expect_called<R: Threads + Wait + Clone + Drop + Send + Sync + AllocGlobal + Abort>(
    rt: &R,
    words: &'static [&'static [u8]],
    status: u8,
    says: &str,
) -> Result<(), Fail> {
    let alloc = rt.alloc();
    let mut source = SureSource::make(bytes_of(alloc, "oak 1/thread/end/")?);
    let mut sink = sink_of(alloc, &[])?;
    let called = Called { rt, words };
    let ended = program(&(called, alloc), &mut source, &mut sink, &FreeGate);
    assert!(rt; ended == ExitCode::from(status));
    expect_text(rt, alloc, sink.written(), says, says)
}

#[test]
fn takes_the_words_behind_its_name(rt: HostRuntime) -> Result<(), Fail> {
    for (words, status, says) in &CALLS {
        expect_called(&rt, words, *status, says)?;
    }
    Ok(())
}
