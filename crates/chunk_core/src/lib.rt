//! Rooms, called chunks while they are in use: their words and states, and what a pass holds of them.
#![tactic(auto)]

pub mod count_word;
pub mod holds;
pub mod layout;
pub mod states;
pub mod value_word;

pub use holds::{
    Carried, Claim, EntryWords, FoundEntry, HeldRoom, MovingRange, PinnedRoom, RoomCopy,
    RoomHeldAs, RoomHolds,
};
pub use states::{FREE, FROZEN, HELD, OPEN};
