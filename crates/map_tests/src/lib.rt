//! Tests of the map and of its callers.
#![tactic(auto)]

#[cfg(test)]
mod callers;
#[cfg(test)]
mod map;
