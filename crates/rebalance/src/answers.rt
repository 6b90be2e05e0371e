//! What a split answers, and what a call that gives up.
use thiserror::Error;

/// What became of a chunk that was to be split.
#[derive(Clone, Copy, Debug, PartialEq, Eq)]
pub enum Split {
    /// It had fewer entries with a value than a room has entries, so it was only compacted.
    Loosened,
    /// Its range was opened as two, the upper one in `room`.
    Halved { room: u32 },
}

/// Each other room was found not free, and each entry of the chunk had a value.
#[derive(Clone, Copy, Debug, PartialEq, Eq, Error)]
#[error("no room is free")]
pub struct NoRoom;

/// A chunk was not to be had: no room was open with the key in its range, since another pass had moved it; or
/// another pass had frozen it; or at each of the looks that the call may make at its pin word that had changed
/// before it was frozen, or pins stood on it once it was. Each room that the call froze is open again, it holds
/// nothing, and no key was changed.
#[derive(Clone, Copy, Debug, PartialEq, Eq, Error)]
#[error("the chunk is busy")]
pub struct Busy;
