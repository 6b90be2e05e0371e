//! The program `oakmap` as a library: `oakmap run` reads a script from standard input, runs its
//! threads beside each other over one map, and prints every reply, the final map and what the map's table has
//! in use; `oakmap gen N T S` runs a generated workload in the same way, and prints a summary.
#![tactic(auto)]

mod commands;
mod ended;
mod ending;
mod lengths;
mod process;
pub mod recipes;
mod status;
mod workloads;

pub use commands::{Command, Workload, command_of};
pub use ended::Ended;
pub use ending::{completeness, top, top_lent};
pub use lengths::length_limit;
pub use process::program;
pub use status::{GREATEST_INPUT, Status};
