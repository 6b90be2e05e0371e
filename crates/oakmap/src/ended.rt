//! How a run of the program ended.
use oak_core::Closed;

/// What a run of the program came to.
#[derive(Drop)]
pub struct Ended {
    /// The number with which the process ends: that of a [`Status`](crate::Status).
    pub status: u8,
    /// The map, closed behind the threads that worked on it: Some exactly with the statuses 0 and 5. The
    /// text, of which 0 wrote all and 5 some first bytes or none, tells what this map shows.
    pub closed: Option<Closed>,
}
