//! Calls on a table without an index, for callers that may not wait: each returns, and gives up where other passes were at
//! work at each of so many tries.
mod compute;
mod get;
mod look;
mod puts;
mod remove;
mod view;

pub use compute::try_compute;
pub use get::try_get;
pub use look::try_look;
pub use puts::{try_put, try_put_if_absent, try_upsert};
pub use remove::try_remove;
pub use view::try_view;
