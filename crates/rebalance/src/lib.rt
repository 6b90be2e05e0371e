//! Chunks are compacted, split, merged and settled.
#![tactic(auto)]

mod answers;
mod bounds;
mod chunk_pairs;
mod chunks;
mod clearing;
mod compacting;
mod entries;
mod filling;
mod fronts;
mod halving;
mod held_rooms;
mod held_table;
mod merging;
mod ranges;
mod reading;
mod rewriting;
mod room_steps;
mod settling;
mod splitting;
mod storing_halves;
mod walking;

pub use answers::{Busy, NoRoom, Split};
pub use compacting::{compact, try_compact};
pub use merging::{merge, try_merge};
pub use settling::{settle, try_settle};
pub use splitting::{split, try_split};
