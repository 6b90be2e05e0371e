//! The program `oakmap` once more, for its stored run: words that give no command end with 2.
#![tactic(auto)]

use oakmap::program;
use outside::{FreeGate, StdSink, StdSource};
use std::process::ExitCode;

fn main(rt: HostRuntime) -> ExitCode {
    let mut source = StdSource::make(rt.stdin());
    let mut sink = StdSink::make(rt.stdout());
    program(&rt, &mut source, &mut sink, &FreeGate)
}
