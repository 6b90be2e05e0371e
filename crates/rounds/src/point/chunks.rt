//! Chunks that are filled by keys in a scrambled order, and whose keys are looked at again and again.
ghost use Rattle.std.specs.Prelude.{◌≡◌, ◌<◌, ◌≤◌, ◌+◌};
ghost use Rattle.oak_model.specs.declared.limits.TheConstants.{GREATEST_ENTRIES};
ghost use Rattle.oak_core.specs.Passes.{IsPassOf, Stays, state, call_of};
ghost use Rattle.point_ops.specs.TestStates.{IsReady, IsReadyAgain};

use crate::keys::key_of;
use crate::point::rounds::{get, next_call};
use crate::point::words::Fills;
use oak_core::{OakTable, Pass};
use oak_model::{NO_HINT, Shape, Wrote};
use point_ops::try_put;
use std::alloc::Global;

/// Puts the number as the value of its key, by a call of its own: whether the key was new.
fn put_new(table: &OakTable, pass: &mut Pass, number: u32) -> bool
    requires own { IsPassOf table.now pass.old }
    requires few { number < GREATEST_ENTRIES }
    requires above { call_of pass.old ≤ number }
    requires ready { IsReady (call_of pass.old) (state pass.old) }
    ensures own { IsPassOf table.now pass.new }
    ensures call { call_of pass.new ≡ number + 1 }
    ensures ready { IsReadyAgain (number + 1) (state pass.old) (state pass.new) }
{
    next_call(pass, number + 1);
    let value = u64::from(number).to_be_bytes();
    match try_put(table, pass, NO_HINT, &key_of(number), &value) {
        Ok(Wrote::New { at: _ }) => true,
        _ => false,
    }
}

/// Puts so many numbers: how many of their keys were new.
fn fill(table: &OakTable, pass: &mut Pass, keys: u32) -> u32
    requires own { IsPassOf table.now pass.old }
    requires few { keys ≤ GREATEST_ENTRIES }
    requires first { call_of pass.old ≡ 0 }
    requires ready { IsReady 0 (state pass.old) }
    ensures own { IsPassOf table.now pass.new }
    ensures call { call_of pass.new ≡ keys }
    ensures ready { IsReadyAgain keys (state pass.old) (state pass.new) }
    ensures few { result ≤ keys }
{
    let mut new = 0;
    for number in 0..keys {
        if put_new(table, pass, number) {
            new += 1;
        }
    }
    new
}

/// Looks at the keys of so many numbers; the numbers that it tells, added up.
fn get_each(table: &OakTable, pass: &mut Pass, keys: u32) -> u64
    requires own { IsPassOf table.now pass.old }
    requires ready { IsReady (call_of pass.old) (state pass.old) }
    ensures own { Stays pass.old pass.new }
    ensures ready { IsReadyAgain (call_of pass.old) (state pass.old) (state pass.new) }
{
    let mut sum = 0u64;
    for number in 0..keys {
        sum = sum.wrapping_add(get(table, pass, &key_of(number)));
    }
    sum
}

/// Looks at the keys of so many numbers, so many times each; the numbers that it tells, added up.
fn get_rounds(table: &OakTable, pass: &mut Pass, keys: u32, rounds: u32) -> u64
    requires own { IsPassOf table.now pass.old }
    requires ready { IsReady (call_of pass.old) (state pass.old) }
    ensures own { Stays pass.old pass.new }
    ensures ready { IsReadyAgain (call_of pass.old) (state pass.old) (state pass.new) }
{
    let mut sum = 0u64;
    for _ in 0..rounds {
        sum = sum.wrapping_add(get_each(table, pass, keys));
    }
    sum
}

/// Makes a table, fills its chunk, looks at each key so many times, and closes the table: how many keys were new, and the
/// numbers that the looks told, added up.
fn fill_one(alloc: Global, asked: &Fills, gets: u32) -> anyhow::Result<(u32, u64)> {
    let Fills { entries, keys, .. } = *asked;
    let shape = Shape::make(1, 1, entries, entries, [2 * entries, 0, 0, 0])?;
    let (table, mut pass) = OakTable::create(alloc, &shape)?;
    let new = fill(&table, &mut pass, keys);
    let sum = get_rounds(&table, &mut pass, keys, gets);
    table.close(pass);
    Ok((new, sum))
}

/// Fills a chunk in so many tables, one after the other, and looks at each key of the last one so many times: how many keys
/// were new in all, and the numbers that the looks told, added up.
pub fn fill_again(alloc: Global, asked: &Fills) -> anyhow::Result<(u64, u64)> {
    let mut new = 0u64;
    for _ in 1..asked.fills {
        let (more, _) = fill_one(alloc, asked, 0)?;
        new = new.wrapping_add(u64::from(more));
    }
    let (more, sum) = fill_one(alloc, asked, asked.gets)?;
    Ok((new.wrapping_add(u64::from(more)), sum))
}
