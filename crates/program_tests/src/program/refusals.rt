//! Scripts of two threads over a table that is too small for both, run many times over: each text is a lawful one, and
//! what was refused lacked what it names.
ghost use Rattle.oak_core.specs.Closing.{FullsLacked};

use crate::program::test_runs::{lines_of, run_of};
use oak_core::Closed;
use outside::FreeGate;
use std::alloc::Global;
use std::process::Abort;
use std::sync::Wait;
use std::test::Fail;
use std::thread::Threads;

/// How often each script runs.
const ROUNDS: u32 = 100;

/// Takes a closed table in which each call that was noted as refused lacked what it names.
fn tells_causes(_closed: &Closed)
    requires { FullsLacked _closed.now }
{}

/// Whether the text is one of these.
fn is_among(alloc: Global, text: &[u8], lawful: &[&str]) -> Result<bool, Fail> {
    for says in lawful {
        if text == lines_of(alloc, says)?.as_slice() {
            return Ok(true);
        }
    }
    Ok(false)
}

/// Runs the script once, and asserts that its text is one of these.
fn expect_one_of<R: Threads + Wait + Clone + Drop + Send + Sync + AllocGlobal + Abort>(
    rt: &R,
    script: &str,
    lawful: &[&str],
) -> Result<(), Fail> {
    let (ran, text) = run_of(rt, script, &FreeGate)?;
    tells_causes(&ran.closed);
    let is_lawful = is_among(rt.alloc(), text.as_slice(), lawful)?;
    assert!(rt; is_lawful);
    Ok(())
}

/// Two keys, and a header for one.
const ONE_HEADER: &str = "oak 1/shape 4 4 1 8 0 0 0/thread/put 61 01/thread/put 62 02/end/";

/// The one key is put, or the other.
const ONE_OF_TWO: [&str; 2] = [
    "t1.1 new @1/t2.1 full header/map 1/61 01/arena/b16 2 8/b64 0 0/b256 0 0/b1024 0 0/\
     headers 1 1/chunks 1 4",
    "t1.1 full header/t2.1 new @1/map 1/62 02/arena/b16 2 8/b64 0 0/b256 0 0/b1024 0 0/\
     headers 1 1/chunks 1 4",
];

#[test]
fn two_threads_put_to_one_header(rt: HostRuntime) -> Result<(), Fail> {
    for _ in 0..ROUNDS {
        expect_one_of(&rt, ONE_HEADER, &ONE_OF_TWO)?;
    }
    Ok(())
}

/// Two keys that come and go, and blocks for one.
const TWO_BLOCKS: &str =
    "oak 1/shape 4 4 16 2 0 0 0/thread/put 61 01/remove 61/thread/put 62 02/remove 62/end/";

/// Each thread puts its key and removes it, or is refused; both may be, as each may hold one block.
const EACH_OR_NONE: [&str; 4] = [
    "t1.1 new @1/t1.2 removed @2/t2.1 new @1/t2.2 removed @2/map 0/arena/b16 0 2/b64 0 0/b256 0 0/\
     b1024 0 0/headers 0 16/chunks 1 4",
    "t1.1 new @1/t1.2 removed @2/t2.1 full b16/t2.2 none @0/map 0/arena/b16 0 2/b64 0 0/b256 0 0/\
     b1024 0 0/headers 0 16/chunks 1 4",
    "t1.1 full b16/t1.2 none @0/t2.1 new @1/t2.2 removed @2/map 0/arena/b16 0 2/b64 0 0/b256 0 0/\
     b1024 0 0/headers 0 16/chunks 1 4",
    "t1.1 full b16/t1.2 none @0/t2.1 full b16/t2.2 none @0/map 0/arena/b16 0 2/b64 0 0/b256 0 0/\
     b1024 0 0/headers 0 16/chunks 1 4",
];

#[test]
fn two_threads_put_and_remove_with_two_blocks(rt: HostRuntime) -> Result<(), Fail> {
    for _ in 0..ROUNDS {
        expect_one_of(&rt, TWO_BLOCKS, &EACH_OR_NONE)?;
    }
    Ok(())
}
