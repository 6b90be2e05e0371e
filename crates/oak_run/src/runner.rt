//! A run of a script over a map.
ghost use Rattle.std.specs.Prelude.{◌≡◌, ◌<◌, ◌≤◌, ◌^◌, IfOk, drop, length, map as mapped};
ghost use Rattle.std.specs.List.{AllByRecursion};
ghost use Rattle.oak_script.specs.Grammar.{IsScript};
ghost use Rattle.oak_run.specs.LentRecipes.{risen};
ghost use Rattle.oak_run.specs.ScriptRun.{RunsScript, RunsThreads};

use crate::lone::run_one;
use crate::several::run_several;
use crate::worker::Answered;
use oak_core::Closed;
use oak_model::{OutOfMemory, Pair, Reply};
use oak_script::{Call, Script};
use outside::Gate;
use std::alloc::Global;
use std::sync::Wait;
use std::thread::Threads;
use value_ops::Recipe;

/// What a run answered: for each thread the reply to each of its calls; the keys that are present at the
/// end with their values, in the order of the keys; for each thread how often its recipe computed; and the
/// closed map.
#[derive(Drop)]
pub struct Ran {
    pub replies: Vec<Vec<Reply>>,
    pub finals: Vec<Pair>,
    pub recipe_calls: Vec<u64>,
    pub closed: Closed,
}

/// Runs a script of one to sixteen threads beside each other over a map of its shape, the first calls on a map
/// without keys. Each thread has the pass with its number, from 1 on, and computes by the recipe at its place.
/// The gate is asked before each call, and once behind each thread's last. A thread that finds no memory for a
/// reply stops; then nothing is answered but that.
pub fn run_script<R: Threads + Wait + Clone + Drop + Send + Sync + AllocGlobal, G: Gate>(
    rt: &R,
    script: &Script,
    gate: &G,
    mut recipes: Vec<Box<dyn Recipe + Send>>,
) -> Result<Ran, OutOfMemory>
    requires script { IsScript script.now }
    requires enough { length script.now.threads ≤ length recipes.items }
    requires counts { AllByRecursion (λ r. calls r < 2 ^ 63) recipes.items }
    ensures runs { IfOk result (λ r. RunsScript script.now (mapped (λ v. v.items) r.replies.items) r.finals.items r.recipe_calls.items r.closed) }
{
    run_script_lent(rt, script, gate, &mut recipes)
}

/// [`run_script`] by recipes that are lent, as many as there are threads or more. Behind the run each stands
/// where it stood, and the count of the i-th has risen by `recipe_calls[i]`; those of no thread are as they were.
/// Where memory was lacking the recipes of threads may have been called.
pub fn run_script_lent<R: Threads + Wait + Clone + Drop + Send + Sync + AllocGlobal, G: Gate>(
    rt: &R,
    script: &Script,
    gate: &G,
    recipes: &mut Vec<Box<dyn Recipe + Send>>,
) -> Result<Ran, OutOfMemory>
    requires script { IsScript script.now }
    requires enough { length script.now.threads ≤ length recipes.old.items }
    requires counts { AllByRecursion (λ r. calls r < 2 ^ 63) recipes.old.items }
    ensures runs { IfOk result (λ r. RunsScript script.now (mapped (λ v. v.items) r.replies.items) r.finals.items r.recipe_calls.items r.closed) }

    // Each thread computed by the recipe at its place: its count rose as often as the thread's replies tell.
    ensures rose { IfOk result (λ r. mapped (λ c. calls c) recipes.new.items ≡ risen (mapped (λ c. calls c) recipes.old.items) r.recipe_calls.items) }

    // However the run ends, as many are there as before, and those of no thread are the same.
    ensures long { length recipes.new.items ≡ length recipes.old.items }
    ensures others { drop (length script.now.threads) recipes.new.items ≡ drop (length script.now.threads) recipes.old.items }
{
    let (answers, finals, closed) = run_threads(rt, script, gate, recipes)?;
    let (replies, recipe_calls) = parted(rt.alloc(), answers)?;
    Ok(Ran {
        replies,
        finals,
        recipe_calls,
        closed,
    })
}

/// Runs the threads of a script, a single one by a pass that is alone.
fn run_threads<R: Threads + Wait + Clone + Drop + Send + Sync + AllocGlobal, G: Gate>(
    rt: &R,
    script: &Script,
    gate: &G,
    recipes: &mut Vec<Box<dyn Recipe + Send>>,
) -> Result<(Vec<Answered>, Vec<Pair>, Closed), OutOfMemory>
    requires script { IsScript script.now }
    requires enough { length script.now.threads ≤ length recipes.old.items }
    requires counts { AllByRecursion (λ r. calls r < 2 ^ 63) recipes.old.items }
    ensures runs { IfOk result (λ r. RunsThreads script.now.shape script.now.threads r.0.items r.1.items r.2) }
    ensures rose { IfOk result (λ r. mapped (λ c. calls c) recipes.new.items ≡ risen
        (mapped (λ c. calls c) recipes.old.items) (mapped (λ a. a.computed) r.0.items)) }
    ensures long { length recipes.new.items ≡ length recipes.old.items }
    ensures others { drop (length script.now.threads) recipes.new.items ≡ drop (length script.now.threads) recipes.old.items }
{
    let threads = script.threads.as_slice();
    if threads.len() != 1 {
        return run_several(rt, &script.shape, gate, threads, recipes);
    }
    let (answered, finals, closed) = run_one(
        rt,
        &script.shape,
        gate,
        &threads[0],
        &mut recipes[0],
    )?;
    let mut answers = Vec::new(rt.alloc());
    answers.push(answered)?;
    Ok((answers, finals, closed))
}

/// The replies of each thread, and how often its recipe computed.
fn parted(alloc: Global, answers: Vec<Answered>) -> Result<(Vec<Vec<Reply>>, Vec<u64>), OutOfMemory>
    ensures { IfOk result (λ r. (r.0.items ≡ mapped (λ a. a.replies) answers.items) × (r.1.items ≡ mapped (λ a. a.computed) answers.items)) }
{
    let mut replies = Vec::with_capacity(alloc, answers.len())?;
    let mut recipe_calls = Vec::with_capacity(alloc, answers.len())?;
    for answered in answers {
        let Answered {
            replies: of_thread,
            computed,
        } = answered;
        replies.push(of_thread)?;
        recipe_calls.push(computed)?;
    }
    Ok((replies, recipe_calls))
}
