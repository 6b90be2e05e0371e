//! Puts a value, looks at its key again and again, and puts over it again and again; or fills a chunk by keys in a
//! scrambled order, in one table after the other, and looks at each key of the last one again and again: an example of
//! the calls on one key that wait for nobody, whose time is measured (`bench/time_calls.sh`).
ghost use Rattle.std.specs.Prelude.{◌≤◌};
ghost use Rattle.rounds.specs.declared.point.rounds.TheConstants.{MOST_PUTS};

mod chunks;
mod rounds;
mod words;

use crate::used::print_used;
use chunks::fill_again;
use oak_core::OakTable;
use oak_model::{Shape, Usage};
pub use rounds::MOST_PUTS;
use rounds::{get_again, put, put_again};
use std::alloc::Global;
pub use words::{Asked, asked_by};
use words::{Calls, Fills};

/// Makes a table, puts the key, makes so many calls on it, and closes the table: the numbers that the gets
/// told, added up, those of the puts, and what is in use.
fn run(alloc: Global, gets: u32, puts: u32) -> anyhow::Result<(u64, u64, Usage)>
    requires few { puts ≤ MOST_PUTS }
{
    let shape = Shape::make(1, 1, 4, 4, [4, 0, 0, 0])?;
    let (table, mut pass) = OakTable::create(alloc, &shape)?;
    put(&table, &mut pass, 1, 0);
    let got = get_again(&table, &mut pass, gets);
    let told = put_again(&table, &mut pass, puts);
    Ok((got, told, table.close(pass).usage()))
}

/// Makes the calls on one key, and prints what they told.
fn call_one<R: AllocGlobal + Print>(rt: &R, calls: &Calls) -> anyhow::Result<()> {
    let (got, told, used) = run(rt.alloc(), calls.gets, calls.puts)?;
    println!(rt; "{} gets, sum {got}", calls.gets)?;
    println!(rt; "{} puts, sum {told}", calls.puts)?;
    print_used(rt, &used)?;
    Ok(())
}

/// Fills the chunks, looks at the keys of the last one, and prints how many keys were new, and what the looks told.
fn fill_all<R: AllocGlobal + Print>(rt: &R, fills: &Fills) -> anyhow::Result<()> {
    let (new, sum) = fill_again(rt.alloc(), fills)?;
    println!(rt; "{} fills, {new} keys new", fills.fills)?;
    println!(rt; "{} gets of each key, sum {sum}", fills.gets)?;
    Ok(())
}

/// Does what is asked for.
pub fn go<R: AllocGlobal + Print>(rt: &R, asked: &Asked) -> anyhow::Result<()> {
    match asked {
        Asked::Key(calls) => call_one(rt, calls),
        Asked::Chunk(fills) => fill_all(rt, fills),
    }
}

/// Makes a few calls on one key.
pub fn go_few<R: AllocGlobal + Print>(rt: &R) -> anyhow::Result<()> {
    let calls = Calls {
        gets: 1_000,
        puts: 1_000,
    };
    call_one(rt, &calls)
}
