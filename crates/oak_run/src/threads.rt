//! The workers of a run, and their threads, which run beside each other.
ghost use Rattle.std.specs.Prelude.{◌≡◌, ◌<◌, ◌≤◌, ◌^◌, ℕ, All, length, slice_index_or};
ghost use Rattle.oak_script.specs.declared.limits.TheConstants.{GREATEST_THREADS};
ghost use Rattle.oak_run.specs.LentRecipes.{RoseBy};
ghost use Rattle.oak_run.specs.Workers.{CanRun, HasRun, IsFresh, calls_at};

use crate::worker::{Answered, run_calls};
use oak_map::{MapPass, OakMap};
use oak_script::Call;
use outside::Gate;
use std::sync::Wait;
use std::thread::{Threads, for_each_mut};
use value_ops::Recipe;

/// A thread of a run, with what it owns: its pass, its recipe, and what it answered, which is nothing before
/// it ran and where memory was lacking. It can't be dropped, since a pass can't.
pub struct Worker {
    pub pass: MapPass,
    pub recipe: Box<dyn Recipe + Send>,
    pub answered: Option<Answered>,
}

/// Runs the calls of the thread at the place. Its number is one more.
fn run_worker<R: Wait + Drop + Send + AllocGlobal, G: Gate>(
    rt: &R,
    map: &OakMap<R>,
    gate: &G,
    threads: &[Vec<Call>],
    place: usize,
    worker: &mut Worker,
)
    requires place { place < length threads.now }
    requires few { length threads.now ≤ GREATEST_THREADS }
    requires fresh { IsFresh map.now worker.old.pass }
    requires counts { calls worker.old.recipe < 2 ^ 63 }
    requires threads { All (λ v. CanRun v.items) threads.now }
    ensures ran { HasRun map.now (calls_at threads.now place) worker.old.pass worker.new.pass worker.new.answered }
    ensures rose { RoseBy (calls worker.old.recipe) (calls worker.new.recipe) worker.new.answered }
{
    let answered = run_calls(
        rt,
        rt.alloc(),
        map,
        &mut worker.pass,
        &mut worker.recipe,
        gate,
        place as u32 + 1,
        threads[place].as_slice(),
    );
    worker.answered = answered.ok();
}

/// Runs the calls of all threads beside each other, each by the worker at its place.
pub fn run_workers<R: Threads + Wait + Drop + Send + Sync + AllocGlobal, G: Gate>(
    rt: &R,
    map: &OakMap<R>,
    gate: &G,
    threads: &[Vec<Call>],
    workers: &mut [Worker],
)
    requires each { length workers.old ≡ length threads.now }
    requires few { length threads.now ≤ GREATEST_THREADS }
    requires fresh { All (λ w. IsFresh map.now w.pass) workers.old }
    requires counts { All (λ w. calls w.recipe < 2 ^ 63) workers.old }
    requires threads { All (λ v. CanRun v.items) threads.now }
    ensures long { length workers.new ≡ length workers.old }
    ensures ran { (i : ℕ) (d : _) → i < length workers.old → HasRun map.now (calls_at threads.now i)
        (slice_index_or workers.old i d).pass (slice_index_or workers.new i d).pass
        (slice_index_or workers.new i d).answered }
    ensures rose { (i : ℕ) (d : _) → i < length workers.old → RoseBy (calls (slice_index_or workers.old i d).recipe)
        (calls (slice_index_or workers.new i d).recipe) (slice_index_or workers.new i d).answered }
{
    if workers.is_empty() {
        return;
    }
    let count = workers.len();
    let run = |i: usize, worker: &mut Worker|
        requires { (i < length threads.now) × (length threads.now ≤ GREATEST_THREADS)
            × IsFresh map.now worker.now.pass × (calls worker.now.recipe < 2 ^ 63)
            × All (λ v. CanRun v.items) threads.now }
        ensures { HasRun map.entry.now (calls_at threads.entry.now i) worker.entry.now.pass worker.exit.now.pass
            worker.exit.now.answered × RoseBy (calls worker.entry.now.recipe)
            (calls worker.exit.now.recipe) worker.exit.now.answered }
    { run_worker(rt, map, gate, threads, i, worker) };
    for_each_mut(rt, workers, count, &run);
}
