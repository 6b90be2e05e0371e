//! Why calls that wait for nobody are given up.
use oak_model::Class;
use thiserror::Error;

/// Why a call was given up. No key's value was changed by it, and the pass holds what it held; an entry that
/// the call added for the key may stay.
#[derive(Clone, Copy, Debug, PartialEq, Eq, Error)]
pub enum Halt {
    /// Another pass is at work on the key: its header, its room or its entry was found so.
    #[error("another pass is at work on the key")]
    Busy,
    /// No room was found open with the key in its range.
    #[error("the room was moved")]
    Moved,
    /// The room of the key has as many entries as it may, none by a step of this call, and the key, which is
    /// to be inserted, has none.
    #[error("the room has no entry left")]
    Crowded,
    /// No block of the class was found free, and one is needed for the key or for the value. The call took
    /// none of that class itself, but the block for its value where it is the key's block that is lacking.
    #[error("no block of class {0:?} is free")]
    NoBlock(Class),
    /// No header was found free, and the key is to be inserted.
    #[error("no header is free")]
    NoHeader,
}
