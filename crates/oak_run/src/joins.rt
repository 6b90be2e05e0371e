//! The workers' passes, joined again behind their threads.
ghost use Rattle.std.specs.Prelude.{◌≡◌, ◌+◌, ◌<◌, ◌≤◌, ◌++◌, ◌∷◌, ◌&&◌, [], ⊤, IfOk, MatchBool, Some, length, map as mapped, vec_capacity, vec_len};
ghost use Rattle.std.specs.List.{AllByRecursion, insert};
ghost use Rattle.oak_core.specs.PassState.{both_state};
ghost use Rattle.oak_map.specs.Maps.{IsReady, state};
ghost use Rattle.oak_run.specs.SplitPasses.{joined_passes};

use crate::threads::Worker;
use crate::worker::Answered;
use oak_map::{MapPass, OakMap};
use oak_model::OutOfMemory;
use std::alloc::Global;
use std::sync::Wait;
use value_ops::Recipe;

/// Puts a recipe in at the place, where there is room for it.
fn put_back(recipes: &mut Vec<Box<dyn Recipe + Send>>, place: usize, recipe: Box<dyn Recipe + Send>)
    requires place { place ≤ vec_len recipes.old }
    requires room { vec_len recipes.old < vec_capacity recipes.old }
    ensures items { recipes.new.items ≡ insert recipes.old.items place recipe }
    ensures capacity { vec_capacity recipes.old ≤ vec_capacity recipes.new }
{
    match recipes.insert(place, recipe) {
        Ok(()) => {}
        Err(_failed) => unreachable!(),
    }
}

/// Joins a worker's pass into the first, puts its recipe in at the place, and hands on what the worker answered.
fn join_worker<R: Wait + Drop + Send>(
    map: &OakMap<R>,
    first: &mut MapPass,
    recipes: &mut Vec<Box<dyn Recipe + Send>>,
    place: usize,
    worker: Worker,
) -> Option<Answered>
    requires ready { IsReady map.now first.old }
    requires other { IsReady map.now worker.pass }
    requires place { place ≤ vec_len recipes.old }
    requires room { vec_len recipes.old < vec_capacity recipes.old }
    ensures ready { IsReady map.now first.new }
    ensures joined { state first.new ≡ both_state (state first.old) (state worker.pass) }
    ensures answered { result ≡ worker.answered }
    ensures recipes { recipes.new.items ≡ insert recipes.old.items place worker.recipe }
    ensures capacity { vec_capacity recipes.old ≤ vec_capacity recipes.new }
{
    let Worker {
        pass,
        recipe,
        answered,
    } = worker;
    map.join(first, pass);
    put_back(recipes, place, recipe);
    answered
}

/// Adds what a worker answered to the answers. It is false where there is nothing, or no memory for it.
fn keep(answers: &mut Vec<Answered>, answered: Option<Answered>) -> bool
    ensures { MatchBool result (mapped (λ a. Some a) answers.new.items ≡ mapped (λ a. Some a) answers.old.items ++ answered ∷ []) ⊤ }
{
    match answered {
        Some(answered) => answers.push(answered).is_ok(),
        None => false,
    }
}

fn both(a: bool, b: bool) -> bool
    ensures { result ≡ a && b }
{
    a && b
}

/// Joins the passes of all workers, in their order, into the first, however the threads ended. The answers are
/// those of all workers, in their order, and their recipes stand in front of the others again.
pub fn join_all<R: Wait + Drop + Send>(
    alloc: Global,
    map: &OakMap<R>,
    first: &mut MapPass,
    recipes: &mut Vec<Box<dyn Recipe + Send>>,
    mut workers: Vec<Worker>,
) -> Result<Vec<Answered>, OutOfMemory>
    requires ready { IsReady map.now first.old }
    requires each { AllByRecursion (λ w. IsReady map.now w.pass) workers.items }
    requires room { length workers.items + length recipes.old.items ≤ vec_capacity recipes.old }
    ensures ready { IsReady map.now first.new }
    ensures joined { state first.new ≡ joined_passes (state first.old) (mapped (λ w. state w.pass) workers.items) }
    ensures recipes { recipes.new.items ≡ mapped (λ w. w.recipe) workers.items ++ recipes.old.items }
    ensures answers { IfOk result (λ v. mapped (λ w. w.answered) workers.items ≡ mapped (λ a. Some a) v.items) }
{
    let mut answers = Vec::new(alloc);
    let mut whole = true;
    let count = workers.len();
    for i in 0..count {
        let worker = workers.remove(0);
        let answered = join_worker(map, first, recipes, i, worker);
        let kept = keep(&mut answers, answered);
        whole = both(kept, whole);
    }
    workers.destroy_empty();
    if whole { Ok(answers) } else { Err(OutOfMemory) }
}
