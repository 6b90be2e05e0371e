//! Recipes that are lent to a run, and stand in their places behind it.

use crate::program::test_runs::{bytes_of, recipes_of, script_of, sink_of, words_in};
use oak_run::run_script_lent;
use oakmap::top_lent;
use outside::{FreeGate, SureSource};
use std::process::Abort;
use std::sync::Wait;
use std::test::Fail;
use std::thread::Threads;
use value_ops::Recipe;

/// Asserts how often the first three recipes were called.
fn expect_calls<R: Abort>(rt: &R, recipes: &[Box<dyn Recipe + Send>], calls: [u64; 3]) {
    for (i, calls) in calls.into_iter().enumerate() {
        let counted = recipes.get(i).map(|recipe| recipe.calls());
        assert_eq!(rt; counted, Some(calls));
    }
}

/// Asserts how often the recipes were called by what a run tells.
fn expect_told<R: Abort>(rt: &R, told: &[u64], calls: [u64; 3]) {
    for (i, told) in told.iter().enumerate() {
        assert_eq!(rt; calls.get(i), Some(told));
    }
}

/// Runs the text's script by recipes that are lent, and asserts how often they were called.
fn expect_script_lent<R: Threads + Wait + Clone + Drop + Send + Sync + AllocGlobal + Abort>(
    rt: &R,
    text: &str,
    calls: [u64; 3],
) -> Result<(), Fail> {
    let alloc = rt.alloc();
    let script = script_of(alloc, text)?;
    let mut recipes = recipes_of(alloc)?;
    let ran = run_script_lent(rt, &script, &FreeGate, &mut recipes)?;
    expect_calls(rt, &recipes, calls);
    expect_told(rt, &ran.recipe_calls, calls);
    Ok(())
}

/// Runs the program on the text by recipes that are lent, and asserts how often they were called.
fn expect_top_lent<R: Threads + Wait + Clone + Drop + Send + Sync + AllocGlobal + Abort>(
    rt: &R,
    text: &str,
    calls: [u64; 3],
) -> Result<(), Fail> {
    let alloc = rt.alloc();
    let words = words_in(alloc, "run")?;
    let mut source = SureSource::make(bytes_of(alloc, text)?);
    let mut sink = sink_of(alloc, &[])?;
    let mut recipes = recipes_of(alloc)?;
    let ended = top_lent(rt, &words, &mut source, &mut sink, &FreeGate, &mut recipes);
    assert_eq!(rt; ended.status, 0);
    expect_calls(rt, &recipes, calls);
    Ok(())
}

/// Both, of one text.
fn expect_lent<R: Threads + Wait + Clone + Drop + Send + Sync + AllocGlobal + Abort>(
    rt: &R,
    text: &str,
    calls: [u64; 3],
) -> Result<(), Fail> {
    expect_script_lent(rt, text, calls)?;
    expect_top_lent(rt, text, calls)
}

#[test]
fn each_thread_computes_by_the_recipe_at_its_place(rt: HostRuntime) -> Result<(), Fail> {
    let one = "oak 1/thread/put 61 01/compute 61 rev/compute 61 xor ff/compute 62 rev/end/";
    expect_lent(&rt, one, [2, 0, 0])?;
    let three = "oak 1/thread/put 61 01/compute 61 rev/thread/thread/put 62 02/compute 62 rev/\
        upsert 62 03 xor 01/upsert 63 04 rev/end/";
    expect_lent(&rt, three, [1, 0, 2])
}
