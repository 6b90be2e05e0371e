//! Stores, reads and gives back one value after another: the calls that a value goes through, as an example
//! of the library, and as a round whose time is measured (`bench/compare_rounds.sh`).

mod rounds;

use crate::used::print_used;
use oak_core::OakTable;
use oak_model::{Shape, Usage};
use rounds::rounds;
use std::alloc::Global;

/// Makes a table, runs so many rounds on it, and closes it: what was read, added up, and what is in use.
fn run(alloc: Global, count: u64) -> anyhow::Result<(u64, Usage)> {
    let shape = Shape::make(1, 1, 4, 1024, [1024, 0, 0, 0])?;
    let (table, mut pass) = OakTable::create(alloc, &shape)?;
    let sum = rounds(&table, &mut pass, count);
    Ok((sum, table.close(pass).usage()))
}

/// Runs so many rounds, and prints what they read, and what is in use.
pub fn go<R: AllocGlobal + Print>(rt: &R, count: u64) -> anyhow::Result<()> {
    let (sum, used) = run(rt.alloc(), count)?;
    println!(rt; "{count} rounds, sum {sum}")?;
    print_used(rt, &used)?;
    Ok(())
}
