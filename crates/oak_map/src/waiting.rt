//! How long calls look that wait.

/// How many tries a call that waits makes before it lets other threads run.
pub(crate) const LOOKS: u32 = 32;
