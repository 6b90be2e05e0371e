//! Tests of scripts as text, and of the program in memory.
#![tactic(auto)]

#[cfg(test)]
mod program;
#[cfg(test)]
mod scripts;
