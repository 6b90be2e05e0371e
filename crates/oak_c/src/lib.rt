//! The map for C, the smallest of it: one call that makes a map, puts a value into it, gets it, and closes the map. It
//! stands on the calls that return, so nothing below it waits.
#![tactic(auto)]

mod exports;
mod told;
mod trips;

pub use exports::oak_c_put_and_get;
pub use told::Told;
