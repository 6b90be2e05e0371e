//! A run of several threads: a pass is split off for each, and joined again behind them all.
ghost use Rattle.std.specs.Prelude.{◌≡◌, ◌+◌, ◌<◌, ◌≤◌, ◌≢◌, ◌^◌, [], ⊤, IfOk, MatchBool, drop, length, map as mapped};
ghost use Rattle.std.specs.List.{AllByRecursion};
ghost use Rattle.oak_core.specs.PassState.{IsAlone};
ghost use Rattle.oak_map.specs.Maps.{IsReady, sizes, state};
ghost use Rattle.oak_script.specs.declared.limits.TheConstants.{GREATEST_THREADS};
ghost use Rattle.oak_run.specs.LentRecipes.{AllRose, risen};
ghost use Rattle.oak_run.specs.ScriptRun.{RunsThreads};
ghost use Rattle.oak_run.specs.SplitPasses.{HasSplit};
ghost use Rattle.oak_run.specs.ThreadsRun.{AllCame};
ghost use Rattle.oak_run.specs.Workers.{AllRan, CanRun, IsFresh};

use crate::ends::end;
use crate::joins::join_all;
use crate::splits::split_workers;
use crate::threads::{Worker, run_workers};
use crate::worker::Answered;
use oak_core::Closed;
use oak_map::{MapPass, OakMap};
use oak_model::{OutOfMemory, Pair, Shape};
use oak_script::Call;
use outside::Gate;
use std::sync::Wait;
use std::thread::Threads;
use value_ops::Recipe;

/// Runs the threads beside each other: what they answered, in their order, the last pairs, and the closed
/// map. Each thread computes by the recipe at its place.
pub fn run_several<R: Threads + Wait + Clone + Drop + Send + Sync + AllocGlobal, G: Gate>(
    rt: &R,
    shape: &Shape,
    gate: &G,
    threads: &[Vec<Call>],
    recipes: &mut Vec<Box<dyn Recipe + Send>>,
) -> Result<(Vec<Answered>, Vec<Pair>, Closed), OutOfMemory>
    requires passes { shape.now.passes ≡ length threads.now + 1 }
    requires few { length threads.now ≤ GREATEST_THREADS }
    requires several { length threads.now ≢ 1 }
    requires recipes { length threads.now ≤ length recipes.old.items }
    requires counts { AllByRecursion (λ r. calls r < 2 ^ 63) recipes.old.items }
    requires threads { AllByRecursion (λ v. CanRun v.items) threads.now }
    ensures runs { IfOk result (λ r. RunsThreads shape.now (mapped (λ v. v.items) threads.now) r.0.items r.1.items r.2) }
    ensures rose { IfOk result (λ r. mapped (λ c. calls c) recipes.new.items ≡ risen
        (mapped (λ c. calls c) recipes.old.items) (mapped (λ a. a.computed) r.0.items)) }
    ensures long { length recipes.new.items ≡ length recipes.old.items }
    ensures others { drop (length threads.now) recipes.new.items ≡ drop (length threads.now) recipes.old.items }
{
    let (map, mut first) = match OakMap::create(rt, shape) {
        Ok(made) => made,
        Err(e) => return Err(e),
    };
    let answered = run_threads(rt, &map, &mut first, gate, threads, recipes);
    let ended = end(rt, map, first);
    let answers = answered?;
    let (finals, closed) = ended?;
    Ok((answers, finals, closed))
}

/// Splits off a pass for each thread, runs all threads and joins all passes, which it does in any case.
fn run_threads<R: Threads + Wait + Drop + Send + Sync + AllocGlobal, G: Gate>(
    rt: &R,
    map: &OakMap<R>,
    first: &mut MapPass,
    gate: &G,
    threads: &[Vec<Call>],
    recipes: &mut Vec<Box<dyn Recipe + Send>>,
) -> Result<Vec<Answered>, OutOfMemory>
    requires ready { IsReady map.now first.old }
    requires first { HasSplit (sizes map.now) (state first.old) [] }
    requires passes { (sizes map.now).passes ≡ length threads.now + 1 }
    requires few { length threads.now ≤ GREATEST_THREADS }
    requires recipes { length threads.now ≤ length recipes.old.items }
    requires counts { AllByRecursion (λ r. calls r < 2 ^ 63) recipes.old.items }
    requires threads { AllByRecursion (λ v. CanRun v.items) threads.now }
    ensures ready { IsReady map.now first.new }
    ensures alone { IsAlone (state first.new) }
    ensures came { IfOk result (λ a. AllCame (sizes map.now) (state first.new) (mapped (λ v. v.items) threads.now) a.items) }
    ensures rose { IfOk result (λ v. mapped (λ c. calls c) recipes.new.items ≡ risen
        (mapped (λ c. calls c) recipes.old.items) (mapped (λ a. a.computed) v.items)) }
    ensures long { length recipes.new.items ≡ length recipes.old.items }
    ensures others { drop (length threads.now) recipes.new.items ≡ drop (length threads.now) recipes.old.items }
{
    let mut workers = match Vec::with_capacity(rt.alloc(), threads.len()) {
        Ok(workers) => workers,
        Err(_) => return Err(OutOfMemory),
    };
    let whole = split_workers(rt, map, first, recipes, threads.len(), &mut workers);
    run_split(rt, map, gate, threads, &mut workers, whole);
    let answers = join_all(rt.alloc(), map, first, recipes, workers);
    if whole { answers } else { Err(OutOfMemory) }
}

/// Runs the threads where each has its worker.
fn run_split<R: Threads + Wait + Drop + Send + Sync + AllocGlobal, G: Gate>(
    rt: &R,
    map: &OakMap<R>,
    gate: &G,
    threads: &[Vec<Call>],
    workers: &mut Vec<Worker>,
    whole: bool,
)
    requires few { length threads.now ≤ GREATEST_THREADS }
    requires each { MatchBool whole (length workers.old.items ≡ length threads.now) ⊤ }
    requires fresh { AllByRecursion (λ w. IsFresh map.now w.pass) workers.old.items }
    requires counts { AllByRecursion (λ w. calls w.recipe < 2 ^ 63) workers.old.items }
    requires threads { AllByRecursion (λ v. CanRun v.items) threads.now }
    ensures numbers { mapped (λ w. (state w.pass).numbers) workers.new.items ≡ mapped (λ w. (state w.pass).numbers) workers.old.items }
    ensures ready { AllByRecursion (λ w. IsReady map.now w.pass) workers.new.items }
    ensures rose { MatchBool whole (AllRose (mapped (λ w. calls w.recipe) workers.old.items)
        (mapped (λ w. calls w.recipe) workers.new.items) (mapped (λ w. w.answered) workers.new.items)) ⊤ }
    ensures ran { MatchBool whole (AllRan map.now (mapped (λ v. v.items) threads.now)
        (mapped (λ w. w.pass) workers.old.items) (mapped (λ w. w.pass) workers.new.items)
        (mapped (λ w. w.answered) workers.new.items)) ⊤ }
{
    if whole {
        run_workers(rt, map, gate, threads, workers.as_mut_slice());
    }
}
