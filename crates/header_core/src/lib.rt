//! Value headers: their words and states, and what a pass holds of them.
#![tactic(auto)]

pub mod holds;
pub mod layout;
pub mod states;

pub use holds::{AtLock, HeaderHolds, HeldAs, HeldHeader, PinnedHeader};
pub use states::{DEAD, FREE, LAST_GENERATION, LIVE, LOCKED, OWNED, RETIRED};
