//! Runs of generated workloads.
ghost use Rattle.std.specs.Prelude.{◌≡◌, ◌<◌, ◌≤◌, ◌^◌, map, length, IfOk};
ghost use Rattle.std.specs.List.{AllByRecursion};
ghost use Rattle.oak_script.specs.declared.limits.TheConstants.{GREATEST_THREADS};
ghost use Rattle.oak_script.specs.Workload.{IsWorkload, workload};
ghost use Rattle.oak_run.specs.ScriptRun.{RunsScript};
ghost use Rattle.oakmap.specs.LentRun.{GenEndsLent, SummaryCounts, SummaryLent};

use crate::commands::Workload;
use crate::status::Status;
use oak_core::Closed;
use oak_model::OutOfMemory;
use oak_run::{Ran, run_script_lent};
use oak_script::{gen_script, print_summary};
use outside::{Gate, Sink, write_whole};
use std::alloc::Global;
use std::sync::Wait;
use std::thread::Threads;
use value_ops::Recipe;

/// Runs a workload, and writes the summary of the run.
pub fn put_workload<R: Threads + Wait + Clone + Drop + Send + Sync + AllocGlobal, K: Sink, G: Gate>(
    rt: &R,
    asked: Workload,
    sink: &mut K,
    gate: &G,
    recipes: &mut Vec<Box<dyn Recipe + Send>>,
) -> Status
    requires workload { IsWorkload asked.calls asked.threads asked.start }
    requires enough { GREATEST_THREADS ≤ length recipes.old.items }
    requires counts { AllByRecursion (λ r. calls r < 2 ^ 63) recipes.old.items }
    ensures { GenEndsLent result asked
        (record { written = K.written sink.old; faults = K.faults sink.old }) (record { written = K.written sink.new; faults = K.faults sink.new })
        (map (λ c. calls c) recipes.old.items) (map (λ c. calls c) recipes.new.items) }
{
    let (text, closed) = match summary_text(rt, asked, gate, recipes) {
        Ok(made) => made,
        Err(_) => return Status::NoMemory,
    };
    match write_whole(sink, &text) {
        Ok(()) => Status::Done(closed),
        Err(_) => Status::WriteFault(closed),
    }
}

/// The summary of a run of the workload, and the map of the run, which was closed behind it.
fn summary_text<R: Threads + Wait + Clone + Drop + Send + Sync + AllocGlobal, G: Gate>(
    rt: &R,
    asked: Workload,
    gate: &G,
    recipes: &mut Vec<Box<dyn Recipe + Send>>,
) -> Result<(Vec<u8>, Closed), OutOfMemory>
    requires workload { IsWorkload asked.calls asked.threads asked.start }
    requires enough { GREATEST_THREADS ≤ length recipes.old.items }
    requires counts { AllByRecursion (λ r. calls r < 2 ^ 63) recipes.old.items }
    ensures printed { IfOk result (λ t. SummaryLent asked t.1 t.0.items (map (λ c. calls c) recipes.old.items)
        (map (λ c. calls c) recipes.new.items)) }
    ensures long { length recipes.new.items ≡ length recipes.old.items }
{
    let script = gen_script(rt.alloc(), asked.calls, asked.threads, asked.start)?;
    let ran = run_script_lent(rt, &script, gate, recipes)?;
    let text = summary_of(rt.alloc(), asked, &ran)?;
    Ok((text, ran.closed))
}

/// The summary of a run that came to an end.
fn summary_of(alloc: Global, asked: Workload, ran: &Ran) -> Result<Vec<u8>, OutOfMemory>
    requires workload { IsWorkload asked.calls asked.threads asked.start }
    requires run { RunsScript (workload asked.calls asked.threads asked.start)
        (map (λ v. v.items) ran.now.replies.items) ran.now.finals.items ran.now.recipe_calls.items ran.now.closed }
    ensures { IfOk result (λ v. SummaryCounts asked ran.now.closed v.items ran.now.recipe_calls.items) }
{
    print_summary(
        alloc,
        asked.calls,
        asked.threads,
        asked.start,
        &ran.replies,
        &ran.finals,
        &ran.closed.usage(),
    )
}
