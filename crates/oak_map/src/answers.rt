//! What the calls answer that give up.
use thiserror::Error;

/// Other passes were at work where the call looked, at each of its tries: they wrote there, or moved the chunk. The call
/// made no write, and its pass holds what it held.
#[derive(Clone, Copy, Debug, PartialEq, Eq, Error)]
#[error("other passes were at work there")]
pub struct Busy;

/// Why a call lends no value of a key.
#[derive(Clone, Copy, Debug, PartialEq, Eq, Error)]
pub enum NoValue {
    /// The key was absent at the number.
    #[error("the key is absent")]
    Absent { at: u64 },
    /// As [`Busy`].
    #[error("other passes were at work there")]
    Busy,
}
