//! Scripts as text, and the text of a run.
#![tactic(auto)]

mod call_lines;
mod calls;
mod faults;
mod forms;
mod laws;
mod limits;
mod lines;
mod numbers;
mod places;
mod reader;
mod recipes;
mod scripts;
mod shape_lines;
mod stages;
mod stops;
mod summary;
mod text;
mod verbs;
mod words;
mod workload;

pub use faults::{NoScript, ScriptFault, What};
pub use laws::{first_draws, script_limits_in_numbers, script_or_fault};
pub use limits::{
    DRAWN_NUMBERS, GREATEST_CALLS, GREATEST_DRAWS, GREATEST_SCANS, GREATEST_SCRIPT_NAME,
    GREATEST_THREADS,
};
pub use numbers::number_in;
pub use reader::read_script;
pub use scripts::{Call, Script, Threads};
pub use summary::print_summary;
pub use text::print_run;
pub use workload::gen_script;
