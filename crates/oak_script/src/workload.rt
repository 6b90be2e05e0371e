//! Workloads that are drawn by a recurrence.
ghost use Rattle.std.specs.Prelude.{◌≡◌, ◌<◌, ◌≤◌, map, IfOk};
ghost use Rattle.oak_script.specs.declared.limits.TheConstants.{DRAWN_NUMBERS, GREATEST_DRAWS, GREATEST_THREADS};
ghost use Rattle.oak_script.specs.Grammar.{IsScript};
ghost use Rattle.oak_script.specs.Workload.{IsWorkload, next_number, drawn_call, drawn_calls, drawn_threads, workload};

use crate::limits::DRAWN_NUMBERS;
use crate::reader::default_shape;
use crate::scripts::{Call, Script, Threads};
use oak_model::{Key, OutOfMemory, RecipeKind, Value};
use std::alloc::Global;

/// The number that is drawn behind `x`.
fn next_number(x: u32) -> u32
    requires { x < DRAWN_NUMBERS }
    ensures next { result ≡ next_number x }
    ensures small { result < DRAWN_NUMBERS }
{
    (25_173 * x + 13_849) % DRAWN_NUMBERS
}

/// The call whose key is the two bytes, highest first, of the number divided by 64.
fn drawn_call(alloc: Global, x: u32) -> Result<Call, OutOfMemory>
    requires { x < DRAWN_NUMBERS }
    ensures { IfOk result (λ call. call ≡ drawn_call x) }
{
    let number = x / 64;
    let key = Key::make(alloc, &[(number / 256) as u8, (number % 256) as u8])?;
    let value = Value::make(alloc, &[0, 0, 0, 0, 0, 0, 0, 1])?;
    Ok(Call::Upsert {
        key,
        value,
        recipe: RecipeKind::Add,
        argument: 1,
    })
}

/// The calls of one thread.
fn drawn_calls(alloc: Global, start: u32, calls: u32) -> Result<Vec<Call>, OutOfMemory>
    requires { start < DRAWN_NUMBERS }
    ensures { IfOk result (λ v. v.items ≡ drawn_calls start calls) }
{
    let mut x = start;
    let mut drawn = Vec::with_capacity(alloc, calls as usize)?;
    for i in 0..calls {
        x = next_number(x);
        let call = drawn_call(alloc, x)?;
        drawn.push(call)?;
    }
    Ok(drawn)
}

/// The calls of all threads.
fn drawn_threads(
    alloc: Global,
    calls: u32,
    threads: u32,
    start: u32,
) -> Result<Vec<Vec<Call>>, OutOfMemory>
    requires few { threads ≤ GREATEST_THREADS }
    requires begins { start < DRAWN_NUMBERS }
    ensures { IfOk result (λ v. map (λ c. c.items) v.items ≡ drawn_threads calls start threads) }
{
    let mut drawn = Vec::new(alloc);
    for i in 0..threads {
        let of_thread = drawn_calls(alloc, (start + i) % DRAWN_NUMBERS, calls)?;
        drawn.push(of_thread)?;
    }
    Ok(drawn)
}

/// A script of `threads` threads with `calls` calls each, over a map of the default shape. Thread t, from 1 on,
/// begins with the number `start + t - 1`, modulo 65,536. Before each of its calls it draws the next number by
/// the recurrence x -> 25173 x + 13849, modulo 65,536, and the call counts how often the key of that number, of which
/// there are 1,024, was drawn.
pub fn gen_script(
    alloc: Global,
    calls: u32,
    threads: u32,
    start: u32,
) -> Result<Script, OutOfMemory>
    requires { IsWorkload calls threads start }
    ensures drawn { IfOk result (λ s. s ≡ workload calls threads start) }
    ensures script { IfOk result IsScript }
{
    let drawn = drawn_threads(alloc, calls, threads, start)?;
    Ok(Script {
        shape: default_shape(threads),
        threads: Threads::of(drawn),
    })
}
