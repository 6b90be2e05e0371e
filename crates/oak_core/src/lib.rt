//! The table of words, its passes, and the rule that holds of both between any two atomic steps.
#![tactic(auto)]

mod atoms;
pub mod blocks;
pub mod closing;
mod first_words;
pub mod fresh;
mod header_steps;
pub mod headers;
pub mod hinting;
pub mod layout;
mod leaving;
pub mod loads;
pub mod notes;
mod offsets;
pub mod passes;
mod room_steps;
pub mod rooms;
pub mod schedules;
pub mod scratch;
mod showing;
pub mod sorting;
pub mod states;
pub mod steps;
pub mod table;
pub mod tries;
mod usage;
pub mod writing;

pub use blocks::Block;
pub use closing::Closed;
pub use fresh::Fresh;
pub use loads::load;
pub use passes::SplitFault;
pub use schedules::every_schedule;
pub use sorting::{SortSlot, Sorting};
pub use states::{
    Finding, Findings, Full, Gap, Gone, Joined, KeyedNumber, KeyedWrite, Knowledge, KnownLife,
    Lesson, Numbers, PassState, Rebalanced, Sight, Swept, Taken, Taught,
};
pub use table::{OakTable, Pass};
pub use writing::Writing;
