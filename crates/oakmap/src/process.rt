//! The program as a process: its words, its standard input and output, and its exit status.
ghost use Rattle.std.specs.Prelude.{◌≡◌, Option};
ghost use Rattle.std.specs.Process.{exit_status};
ghost use Rattle.oakmap.specs.declared.commands.Command.{Command};
ghost use Rattle.oakmap.specs.declared.status.Status.{Status};
ghost use Rattle.oakmap.specs.Ends.{Ends, code_of};

use crate::ending::top;
use crate::recipes::add;
use crate::status::Status;
use oak_script::GREATEST_THREADS;
use outside::{Gate, Sink, Source};
use std::env::Env;
use std::io;
use std::process::ExitCode;
use std::sync::Wait;
use std::thread::Threads;
use value_ops::StepRecipe;

/// The whole program: [`top`] on the words behind the program's name, with this gate and a recipe for each
/// thread that a script may have, and its status as that of the process. A word that is not UTF-8 is none that the program
/// takes, and ends with 2; where there is no memory for the words or the recipes it ends with 6.
pub fn program<
    R: Threads + Wait + Clone + Drop + Send + Sync + Env + AllocGlobal,
    S: Source,
    K: Sink,
    G: Gate,
>(rt: &R, source: &mut S, sink: &mut K, gate: &G) -> ExitCode
    ensures { (s : Status) × (command : Option Command) × (exit_status result ≡ code_of s) × Ends s command
        (record { left = S.left source.old; faults = S.faults source.old }) (record { left = S.left source.new; faults = S.faults source.new })
        (record { written = K.written sink.old; faults = K.faults sink.old }) (record { written = K.written sink.new; faults = K.faults sink.new }) }
{
    let words = match words_of(rt) {
        Ok(words) => words,
        Err(error) if error.kind() == io::ErrorKind::InvalidData => Vec::new(rt.alloc()),
        Err(_) => return ExitCode::from(Status::NoMemory.code()),
    };
    let mut recipes = Vec::new(rt.alloc());
    for _ in 0..GREATEST_THREADS {
        let Ok(recipe) = Box::new(rt.alloc(), StepRecipe::make()) else {
            return ExitCode::from(Status::NoMemory.code());
        };
        if add(&mut recipes, recipe).is_err() {
            return ExitCode::from(Status::NoMemory.code());
        }
    }
    ExitCode::from(top(rt, &words, source, sink, gate, recipes).status)
}

/// The words behind the program's name.
fn words_of<R: Env + AllocGlobal>(rt: &R) -> io::Result<Vec<String>> {
    let mut words = Vec::new(rt.alloc());
    for word in std::env::args(rt)?.skip(1) {
        words.push(word)?;
    }
    Ok(words)
}
