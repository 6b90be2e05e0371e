//! The passes that a run splits off, one for each of its threads.
ghost use Rattle.std.specs.Prelude.{◌≡◌, ◌++◌, ◌∷◌, ◌<◌, ◌≤◌, ◌^◌, [], ⊤, IfNone, IfSome, MatchBool, length, map as mapped, vec_capacity, vec_len};
ghost use Rattle.std.specs.List.{AllByRecursion};
ghost use Rattle.oak_core.specs.Splitting.{SplitsOff};
ghost use Rattle.oak_map.specs.Maps.{IsReady, call_of, sizes, state};
ghost use Rattle.oak_run.specs.SplitPasses.{HasSplit};
ghost use Rattle.oak_run.specs.Workers.{IsFresh};

use crate::threads::Worker;
use oak_map::{MapPass, OakMap};
use std::sync::Wait;
use value_ops::Recipe;

/// A pass that is split off, unless memory or numbers are lacking.
fn split_pass<R: Wait + Drop + Send + AllocGlobal>(
    rt: &R,
    map: &OakMap<R>,
    first: &mut MapPass,
) -> Option<MapPass>
    requires ready { IsReady map.now first.old }
    requires unwritten { (state first.old).knowledge.mine ≡ [] }
    ensures ready { IsReady map.now first.new }
    ensures split { IfSome result (λ p. SplitsOff (sizes map.now) (call_of first.old) (state first.old) (state first.new) (state p)) }
    ensures fresh { IfSome result (λ p. IsFresh map.now p) }
    ensures numbers { IfNone result ((state first.new).numbers ≡ (state first.old).numbers) }
    ensures unwritten { (state first.new).knowledge.mine ≡ [] }
{
    match map.split(rt, first) {
        Ok(pass) => Some(pass),
        Err(_) => None,
    }
}

/// A worker with this pass and this recipe, before its thread runs.
fn worker_of(pass: MapPass, recipe: Box<dyn Recipe + Send>) -> Worker
    ensures pass { result.pass ≡ pass }
    ensures recipe { result.recipe ≡ recipe }
{
    Worker {
        pass,
        recipe,
        answered: None,
    }
}

/// Adds a worker where there is room for it.
fn add_worker(workers: &mut Vec<Worker>, worker: Worker)
    requires room { vec_len workers.old < vec_capacity workers.old }
    ensures items { workers.new.items ≡ workers.old.items ++ worker ∷ [] }
    ensures capacity { vec_capacity workers.old ≤ vec_capacity workers.new }
{
    match workers.push(worker) {
        Ok(()) => {}
        Err(_failed) => unreachable!(),
    }
}

/// Splits off a pass for each thread, and moves the first recipes over to the workers, one to each. Where it
/// answers false memory was lacking, and the passes that were split off stand in the workers.
pub fn split_workers<R: Wait + Drop + Send + AllocGlobal>(
    rt: &R,
    map: &OakMap<R>,
    first: &mut MapPass,
    recipes: &mut Vec<Box<dyn Recipe + Send>>,
    threads: usize,
    workers: &mut Vec<Worker>,
) -> bool
    requires ready { IsReady map.now first.old }
    requires first { HasSplit (sizes map.now) (state first.old) [] }
    requires empty { workers.old.items ≡ [] }
    requires room { threads ≤ vec_capacity workers.old }
    requires recipes { threads ≤ length recipes.old.items }
    requires counts { AllByRecursion (λ r. calls r < 2 ^ 63) recipes.old.items }
    ensures ready { IsReady map.now first.new }
    ensures split { HasSplit (sizes map.now) (state first.new) (mapped (λ w. (state w.pass).numbers) workers.new.items) }
    ensures fresh { AllByRecursion (λ w. IsFresh map.now w.pass) workers.new.items }
    ensures counts { AllByRecursion (λ w. calls w.recipe < 2 ^ 63) workers.new.items }
    ensures few { length workers.new.items ≤ threads }
    ensures moved { mapped (λ w. w.recipe) workers.new.items ++ recipes.new.items ≡ recipes.old.items }
    ensures capacity { vec_capacity recipes.new ≡ vec_capacity recipes.old }
    ensures whole { MatchBool result (length workers.new.items ≡ threads) ⊤ }
{
    for _i in 0..threads {
        let Some(pass) = split_pass(rt, map, first) else {
            return false;
        };
        let recipe = recipes.remove(0);
        let worker = worker_of(pass, recipe);
        add_worker(workers, worker);
    }
    true
}
