//! The program as one call: it reads an input, runs its script, prints the text, and answers with a status.
ghost use Rattle.std.specs.Prelude.{◌≡◌, ◌<◌, ◌≤◌, ◌⊎◌, ◌^◌, ℕ, List, map, length, IfOk, Some};
ghost use Rattle.std.specs.List.{AllByRecursion};
ghost use Rattle.std.specs.String.{string_bytes};
ghost use Rattle.oak_core.specs.declared.closing.Closed.{Closed};
ghost use Rattle.oak_script.specs.declared.limits.TheConstants.{GREATEST_THREADS};
ghost use Rattle.oak_script.specs.declared.scripts.Script.{Script};
ghost use Rattle.oak_script.specs.Faults.{IsFirstFault};
ghost use Rattle.oak_script.specs.Grammar.{IsScript, Spells};
ghost use Rattle.oak_run.specs.ScriptRun.{RunsScript};
ghost use Rattle.oakmap.specs.declared.commands.Command.TheVariants.{Gen, Run};
ghost use Rattle.oakmap.specs.declared.commands.Workload.{Workload};
ghost use Rattle.oakmap.specs.declared.status.Status.{Status};
ghost use Rattle.oakmap.specs.Commands.{command_of};
ghost use Rattle.oakmap.specs.Messages.{script_fault_line};
ghost use Rattle.oakmap.specs.LentRun.{AnsweredLent, EndsLent, RunEndsLent, PrintsCounts, PrintsLent};
ghost use Rattle.oakmap.specs.Ends.{Input, Output, Unrisen, Ends, Says, closed_of, code_of};

use crate::commands::{Command, command_of};
use crate::ended::Ended;
use crate::status::{GREATEST_INPUT, Status};
use crate::workloads::put_workload;
use oak_core::Closed;
use oak_model::OutOfMemory;
use oak_run::{Ran, run_script_lent};
use oak_script::{NoScript, Script, ScriptFault, print_run, read_script};
use outside::{Gate, ReadStop, Sink, Source, read_whole, write_whole};
use std::alloc::{AllocError, Global};
use std::sync::Wait;
use std::thread::Threads;
use value_ops::Recipe;

/// Runs the command that the words name. `run`: the threads of the script that came, beside each other over one map
/// of its shape. Thread i, from 1 on, computes by the i-th recipe, and asks the gate before each of its calls
/// and once behind the last. `gen N T S`: the same for the workload that the three numbers name, over a map of the default
/// shape, and nothing is read from the source. The answer has the status of the process:
///
/// - 0: the run's text was written, or its summary. With `run` the replies, with their places, and the final map fit the
///   closed map, which is answered too, and so do the used numbers. With `gen` what is counted are the replies, the
///   final pairs and the used blocks of a run that fits the closed map; the sum of the values is the number of the calls
///   that were not refused, each key takes two blocks, and where no call was refused the keys are all that were drawn.
/// - 2: exactly where the words are neither the one word `run` nor `gen` with the three numbers of a workload.
/// - 3: exactly where the words are `run` and the input is no script, or longer than 16,777,216 bytes.
/// - 4: only where the source counted a fault, and no more than 16,777,216 bytes came.
/// - 5: only where the sink counted a fault while the text was written. Of a text as with 0, some first bytes
///   or none were written, and the closed map is answered too.
/// - 6: no memory was found, and nothing was written.
///
/// With 2, 3 and 4 one line says why.
pub fn top<
    R: Threads + Wait + Clone + Drop + Send + Sync + AllocGlobal,
    S: Source,
    K: Sink,
    G: Gate,
>(
    rt: &R,
    words: &[String],
    source: &mut S,
    sink: &mut K,
    gate: &G,
    mut recipes: Vec<Box<dyn Recipe + Send>>,
) -> Ended
    requires enough { GREATEST_THREADS ≤ length recipes.items }
    requires counts { AllByRecursion (λ r. calls r < 2 ^ 63) recipes.items }
    ensures { (s : Status) × (result.status ≡ code_of s) × (result.closed ≡ closed_of s) × Ends s (command_of (map (λ w. string_bytes w) words.now))
        (record { left = S.left source.old; faults = S.faults source.old }) (record { left = S.left source.new; faults = S.faults source.new })
        (record { written = K.written sink.old; faults = K.faults sink.old }) (record { written = K.written sink.new; faults = K.faults sink.new }) }
{
    top_lent(rt, words, source, sink, gate, &mut recipes)
}

/// [`top`] by recipes that are lent, sixteen or more. Behind the run each stands where it stood. With 0 and 5 the count of
/// the i-th rose as often as the i-th thread's replies, which the text tells, are `done`, and the others are as they
/// were, as all are with 2, 3 and 4; with 6 they may have been called.
pub fn top_lent<
    R: Threads + Wait + Clone + Drop + Send + Sync + AllocGlobal,
    S: Source,
    K: Sink,
    G: Gate,
>(
    rt: &R,
    words: &[String],
    source: &mut S,
    sink: &mut K,
    gate: &G,
    recipes: &mut Vec<Box<dyn Recipe + Send>>,
) -> Ended
    requires enough { GREATEST_THREADS ≤ length recipes.old.items }
    requires counts { AllByRecursion (λ r. calls r < 2 ^ 63) recipes.old.items }
    ensures { (s : Status) × (result.status ≡ code_of s) × (result.closed ≡ closed_of s)
        × EndsLent s (command_of (map (λ w. string_bytes w) words.now))
        (record { left = S.left source.old; faults = S.faults source.old }) (record { left = S.left source.new; faults = S.faults source.new })
        (record { written = K.written sink.old; faults = K.faults sink.old }) (record { written = K.written sink.new; faults = K.faults sink.new })
        (map (λ c. calls c) recipes.old.items) (map (λ c. calls c) recipes.new.items) }
{
    run(rt, words, source, sink, gate, recipes).told()
}

fn run<R: Threads + Wait + Clone + Drop + Send + Sync + AllocGlobal, S: Source, K: Sink, G: Gate>(
    rt: &R,
    words: &[String],
    source: &mut S,
    sink: &mut K,
    gate: &G,
    recipes: &mut Vec<Box<dyn Recipe + Send>>,
) -> Status
    requires enough { GREATEST_THREADS ≤ length recipes.old.items }
    requires counts { AllByRecursion (λ r. calls r < 2 ^ 63) recipes.old.items }
    ensures { EndsLent result (command_of (map (λ w. string_bytes w) words.now))
        (record { left = S.left source.old; faults = S.faults source.old }) (record { left = S.left source.new; faults = S.faults source.new })
        (record { written = K.written sink.old; faults = K.faults sink.old }) (record { written = K.written sink.new; faults = K.faults sink.new })
        (map (λ c. calls c) recipes.old.items) (map (λ c. calls c) recipes.new.items) }
{
    match command_of(words) {
        None => {
            say(sink, b"oakmap: usage: oakmap run | gen N T S\n");
            Status::Usage
        }
        Some(Command::Run) => run_input(rt, source, sink, gate, recipes),
        Some(Command::Gen(asked)) => put_workload(rt, asked, sink, gate, recipes),
    }
}

/// Reads the input to its end, and answers it.
fn run_input<
    R: Threads + Wait + Clone + Drop + Send + Sync + AllocGlobal,
    S: Source,
    K: Sink,
    G: Gate,
>(
    rt: &R,
    source: &mut S,
    sink: &mut K,
    gate: &G,
    recipes: &mut Vec<Box<dyn Recipe + Send>>,
) -> Status
    requires enough { GREATEST_THREADS ≤ length recipes.old.items }
    requires counts { AllByRecursion (λ r. calls r < 2 ^ 63) recipes.old.items }
    ensures { RunEndsLent result
        (record { left = S.left source.old; faults = S.faults source.old }) (record { left = S.left source.new; faults = S.faults source.new })
        (record { written = K.written sink.old; faults = K.faults sink.old }) (record { written = K.written sink.new; faults = K.faults sink.new })
        (map (λ c. calls c) recipes.old.items) (map (λ c. calls c) recipes.new.items) }
{
    let text = match read_whole(rt.alloc(), source, GREATEST_INPUT) {
        Ok(text) => text,
        Err(ReadStop::Failed) => {
            say(sink, b"oakmap: read fault\n");
            return Status::ReadFault;
        }
        Err(ReadStop::TooLong) => {
            say(sink, b"oakmap: input is longer than 16777216 bytes\n");
            return Status::NoScript;
        }
        Err(ReadStop::OutOfMemory) => return Status::NoMemory,
    };
    answer(rt, &text, sink, gate, recipes)
}

/// Says one line; that the sink fails changes no status.
fn say<K: Sink>(sink: &mut K, line: &[u8])
    ensures { Says (record { written = K.written sink.old; faults = K.faults sink.old })
        (record { written = K.written sink.new; faults = K.faults sink.new }) line.now }
{
    let _said = write_whole(sink, line);
}

/// Answers an input that was read to its end.
fn answer<R: Threads + Wait + Clone + Drop + Send + Sync + AllocGlobal, K: Sink, G: Gate>(
    rt: &R,
    text: &[u8],
    sink: &mut K,
    gate: &G,
    recipes: &mut Vec<Box<dyn Recipe + Send>>,
) -> Status
    requires enough { GREATEST_THREADS ≤ length recipes.old.items }
    requires counts { AllByRecursion (λ r. calls r < 2 ^ 63) recipes.old.items }
    ensures { AnsweredLent result text.now (record { written = K.written sink.old; faults = K.faults sink.old })
        (record { written = K.written sink.new; faults = K.faults sink.new })
        (map (λ c. calls c) recipes.old.items) (map (λ c. calls c) recipes.new.items) }
{
    match read_script(rt.alloc(), text) {
        Ok(script) => put_run(rt, &script, sink, gate, recipes),
        Err(NoScript::Fault(fault)) => refuse(rt.alloc(), fault, sink),
        Err(NoScript::OutOfMemory) => Status::NoMemory,
    }
}

/// Tells the first fault of a text that is no script.
fn refuse<K: Sink>(alloc: Global, fault: ScriptFault, sink: &mut K) -> Status
    ensures { (input counts : List ℕ) → IsFirstFault input fault → AnsweredLent result input
        (record { written = K.written sink.old; faults = K.faults sink.old })
        (record { written = K.written sink.new; faults = K.faults sink.new }) counts counts }
{
    match fault_text(alloc, fault) {
        Ok(text) => {
            say(sink, text.as_bytes());
            Status::NoScript
        }
        Err(_) => Status::NoMemory,
    }
}

fn fault_text(alloc: Global, fault: ScriptFault) -> Result<String, AllocError>
    ensures { IfOk result (λ s. string_bytes s ≡ script_fault_line fault.line fault.what) }
{
    let line = fault.line;
    let what = fault.what.text();
    format!(in alloc; "oakmap: line {line}: {what}\n")
}

/// Runs a script, and writes the text of the run.
fn put_run<R: Threads + Wait + Clone + Drop + Send + Sync + AllocGlobal, K: Sink, G: Gate>(
    rt: &R,
    script: &Script,
    sink: &mut K,
    gate: &G,
    recipes: &mut Vec<Box<dyn Recipe + Send>>,
) -> Status
    requires script { IsScript script.now }
    requires enough { GREATEST_THREADS ≤ length recipes.old.items }
    requires counts { AllByRecursion (λ r. calls r < 2 ^ 63) recipes.old.items }
    ensures { (input : List ℕ) → Spells input script.now → AnsweredLent result input
        (record { written = K.written sink.old; faults = K.faults sink.old })
        (record { written = K.written sink.new; faults = K.faults sink.new })
        (map (λ c. calls c) recipes.old.items) (map (λ c. calls c) recipes.new.items) }
{
    let (text, closed) = match run_text(rt, script, gate, recipes) {
        Ok(made) => made,
        Err(_) => return Status::NoMemory,
    };
    match write_whole(sink, &text) {
        Ok(()) => Status::Done(closed),
        Err(_) => Status::WriteFault(closed),
    }
}

/// The text of a run of the script, and the map of the run, which was closed behind it.
fn run_text<R: Threads + Wait + Clone + Drop + Send + Sync + AllocGlobal, G: Gate>(
    rt: &R,
    script: &Script,
    gate: &G,
    recipes: &mut Vec<Box<dyn Recipe + Send>>,
) -> Result<(Vec<u8>, Closed), OutOfMemory>
    requires script { IsScript script.now }
    requires enough { GREATEST_THREADS ≤ length recipes.old.items }
    requires counts { AllByRecursion (λ r. calls r < 2 ^ 63) recipes.old.items }
    ensures printed { IfOk result (λ t. PrintsLent script.now t.1 t.0.items (map (λ c. calls c) recipes.old.items)
        (map (λ c. calls c) recipes.new.items)) }
    ensures long { length recipes.new.items ≡ length recipes.old.items }
{
    let ran = run_script_lent(rt, script, gate, recipes)?;
    let text = text_of(rt.alloc(), script, &ran)?;
    Ok((text, ran.closed))
}

/// The text of a run that came to an end.
fn text_of(alloc: Global, script: &Script, ran: &Ran) -> Result<Vec<u8>, OutOfMemory>
    requires run { RunsScript script.now (map (λ v. v.items) ran.now.replies.items) ran.now.finals.items ran.now.recipe_calls.items ran.now.closed }
    ensures { IfOk result (λ v. PrintsCounts script.now ran.now.closed v.items ran.now.recipe_calls.items) }
{
    print_run(
        alloc,
        script,
        &ran.replies,
        &ran.finals,
        &ran.closed.usage(),
    )
}

/// A script that comes without a fault is run, and so is each workload, unless memory runs out.
pub fn completeness()
    ensures of_run { (s : Status) (source source_after : Input) (sink sink_after : Output) (text : List ℕ) (script : Script)
        → Ends s (Some Run) source source_after sink sink_after → source.left ≡ Some text → length text ≤ GREATEST_INPUT → Spells text script
        → Unrisen source.faults source_after.faults → Unrisen sink.faults sink_after.faults → (code_of s ≡ 0) ⊎ (code_of s ≡ 6) }
    ensures of_gen { (s : Status) (w : Workload) (source source_after : Input) (sink sink_after : Output)
        → Ends s (Some (Gen w)) source source_after sink sink_after → Unrisen sink.faults sink_after.faults → (code_of s ≡ 0) ⊎ (code_of s ≡ 6) }
{}
