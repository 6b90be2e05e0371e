//! Calls on value headers: claims, fillings, pins, readings and views, locks, and the recipes of computes.
#![tactic(auto)]

mod burying;
mod claiming;
mod filling;
mod home;
mod locked;
mod locking;
mod pinned_value;
mod pinning;
mod readers;
mod reading;
mod recipes;
mod rewriting;
mod views;

pub use burying::Buried;
pub use claiming::{NoHeader, Owned, claim};
pub use filling::{fill, release, withdraw};
pub use home::Home;
pub use locking::{Locked, NoLock, lock};
pub use pinned_value::PinnedValue;
pub use pinning::{BadPin, HeaderPin, pin_at};
pub use readers::{a_pin_stands_until_it_is_undone, no_block_changes_under_a_reader};
pub use reading::Reading;
pub use recipes::{Recipe, StepRecipe, apply_once};
pub use views::{NoRead, ValueView, read_view};
