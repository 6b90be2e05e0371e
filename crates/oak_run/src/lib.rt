//! Runs scripts over the map.
#![tactic(auto)]

mod asks;
mod copies;
mod ends;
mod joins;
mod laws;
mod lone;
mod looks;
mod runner;
mod scans;
mod several;
mod splits;
mod threads;
mod worker;

pub use laws::{one_text, workload_runs};
pub use looks::{HeldView, HeldViews};
pub use runner::{Ran, run_script, run_script_lent};
