//! Calls the program on each script of `examples/`, and on one with a fault, and says whether what it writes is the text
//! that is due. Scripts and texts lie beside it.
#![tactic(auto)]

use oakmap::program;
use outside::{FreeGate, MemorySink, StdSource};
use std::env::Env;
use std::fs;
use std::process::ExitCode;
use std::rt::Files;
use std::sync::Wait;
use std::thread::Threads;

/// How many bytes there is room for, more than any text has.
const ROOM: usize = 8_192;

/// Each script, by the name of its file.
const SCRIPTS: [&str; 6] = ["first", "views", "scans", "refusals", "threads", "fault"];

/// Whether the program, which gets the words of this process, writes the script's text.
fn writes_its_text<R: Threads + Wait + Clone + Drop + Send + Sync + Env + Files + AllocGlobal>(
    rt: &R,
    name: &str,
) -> anyhow::Result<bool> {
    let alloc = rt.alloc();
    let script = format!(in alloc; "{name}.oak")?;
    let text = fs::read_to_string(rt, format!(in alloc; "{name}.txt")?)?;
    let mut source = StdSource::make(fs::open(rt, script)?);
    let mut sink = MemorySink::make(vec![in alloc; 0u8; ROOM]?, Vec::new(alloc));
    program(rt, &mut source, &mut sink, &FreeGate);
    Ok(sink.written() == text.as_bytes())
}

fn main(rt: HostRuntime) -> anyhow::Result<ExitCode> {
    for &name in &SCRIPTS {
        if !writes_its_text(&rt, name)? {
            println!(rt; "{name}: another text")?;
            return Ok(ExitCode::FAILURE);
        }
        println!(rt; "{name}: its text")?;
    }
    Ok(ExitCode::SUCCESS)
}
