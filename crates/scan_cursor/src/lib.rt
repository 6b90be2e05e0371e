//! Scans of the table in key order, up and down.
#![tactic(auto)]

mod busy;
mod cursor;
mod gathering;
mod hinted;
mod loading_ahead;
mod marks;
mod reading;
mod spots;
mod walking;
mod ways;

pub use busy::Busy;
pub use cursor::Cursor;
pub use ways::Way;
