//! The calls on one key that wait for nobody.
#![tactic(auto)]

mod changing;
mod computes;
mod gets;
mod halts;
mod inserting;
mod lives;
mod pins;
mod puts;
mod removes;
mod spots;

pub use computes::{try_compute, try_upsert};
pub use gets::{Got, try_get};
pub use halts::Halt;
pub use lives::Pinned;
pub use pins::try_pin;
pub use puts::{try_put, try_put_if_absent};
pub use removes::try_remove;
