//! Searches along the links of a pinned room, and entries that are added by one link.
#![tactic(auto)]

mod adding;
mod finding;
mod nearest;
mod room;
mod ties;
mod walking;

pub use adding::{Outcome, add};
pub use finding::{Sought, find};
pub use nearest::{above, below};
pub use room::{LinkedRoom, Sorted};
pub use ties::Tie;
