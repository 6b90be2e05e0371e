//! The program `oakmap` itself, which `bin/oakmap` runs. Its stored run is the first script of `examples/`.
#![tactic(auto)]

use oakmap::program;
use outside::{FreeGate, StdSink, StdSource};
use std::process::ExitCode;

fn main(rt: HostRuntime) -> ExitCode {
    let mut source = StdSource::make(rt.stdin());
    let mut sink = StdSink::make(rt.stdout());
    program(&rt, &mut source, &mut sink, &FreeGate)
}
