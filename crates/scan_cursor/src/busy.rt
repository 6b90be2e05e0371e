//! What a scan answers that gives up.
use thiserror::Error;

/// Another pass kept the scan from a room or from a value at each of the looks that the call made: each room was found
/// moved, or the header of a key's value locked or put to another use. The scan keeps its place, and holds nothing.
#[derive(Clone, Copy, Debug, PartialEq, Eq, Error)]
#[error("the scan is kept from a room or a value")]
pub struct Busy;
