//! Works on a map by one thread or by several, and takes the time of the work alone: an example of threads that share a
//! map by calls that need no proof of their callers (`bench/peers.sh` compares it with other maps). Its WORK is one of these:
//!
//! - `add`: each thread adds 1 to one of 1,024 counters, KEYS times a round;
//! - `ingest`: the threads share out the puts of KEYS new keys of eight bytes, into a map of its own each round;
//! - `get`: each thread gets the values of KEYS keys a round, and adds up their bytes;
//! - `over`: the threads share out a put over each of KEYS values a round;
//! - `up`, `down`: each thread scans the map of KEYS keys a round, and reads the first eight bytes of each value.
//!
//! A value has BYTES bytes, or 100. Standard output has how many calls, or pairs, went through, and what they read, and then
//! the keys that the map has, and their values' numbers; standard error has the nanoseconds of the work.

mod beside;
mod keys;
mod told;
mod words;
mod worker;

use beside::{Measured, measure};
use std::sync::Wait;
use std::thread::Threads;
use std::time::Clock;
use words::Work;
pub use words::{Asked, asked_by};

/// Does what is asked for, and prints what it came to.
pub fn go<R: Threads + Wait + Clone + Drop + Send + Sync + AllocGlobal + Clock + Print + Eprint>(
    rt: &R,
    asked: &Asked,
) -> anyhow::Result<()> {
    let Measured {
        work,
        content,
        took,
    } = measure(rt, asked)?;
    println!(rt; "{} calls, sum {}", work.calls, work.sum)?;
    println!(rt; "{} keys, sum {}", content.calls, content.sum)?;
    eprintln!(rt; "{} ns", took.as_nanos())?;
    Ok(())
}

/// Has two threads get the values of a small map.
pub fn go_few<
    R: Threads + Wait + Clone + Drop + Send + Sync + AllocGlobal + Clock + Print + Eprint,
>(rt: &R) -> anyhow::Result<()> {
    let asked = Asked {
        work: Work::Get,
        keys: 300,
        rounds: 2,
        threads: 2,
        bytes: 100,
    };
    go(rt, &asked)
}
