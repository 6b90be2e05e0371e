//! Goes round and round through the calls of a layer, and tells what they came to: whole programs over the library's
//! layers, as examples, whose time the scripts of `bench/` measure.
//!
//! usage: rounds value ROUNDS
//!        rounds point GETS PUTS
//!        rounds point GETS FILLS ENTRIES KEYS
//!        rounds scan KEYS ROUNDS WORK [ENTRIES]
//!        rounds peer WORK KEYS ROUNDS THREADS [BYTES]
//!        rounds each
//!
//! The first words name a layer, and the others what is done there, as each module says; `each` has a few rounds of each.
#![tactic(auto)]

mod keys;
mod peer;
mod point;
mod scan;
mod used;
mod value;
mod words;

use std::env;
use std::process::ExitCode;
use std::sync::Wait;
use std::thread::Threads;
use std::time::Clock;
use words::{Asked, asked_by, print_usage};

/// A few rounds of each layer.
fn go_each<R: Threads + Wait + Clone + Drop + Send + Sync + AllocGlobal + Clock + Print + Eprint>(
    rt: &R,
) -> anyhow::Result<()> {
    value::go(rt, 1_000)?;
    point::go_few(rt)?;
    scan::go_few(rt)?;
    peer::go_few(rt)
}

fn main(rt: HostRuntime) -> anyhow::Result<ExitCode> {
    match asked_by(env::args(&rt)?) {
        Some(Asked::Value(count)) => value::go(&rt, count)?,
        Some(Asked::Point(asked)) => point::go(&rt, &asked)?,
        Some(Asked::Scan(asked)) => scan::go(&rt, &asked)?,
        Some(Asked::Peer(asked)) => peer::go(&rt, &asked)?,
        Some(Asked::Each) => go_each(&rt)?,
        None => {
            print_usage(&rt)?;
            return Ok(ExitCode::from(2));
        }
    }
    Ok(ExitCode::SUCCESS)
}
