//! The writes of a key's history.
use crate::recipes::RecipeKind;
use crate::values::Value;

/// What a write does. The argument of an `Xor` is a byte, that of a `Rev` is 0.
#[derive(Clone, Copy, Debug, PartialEq, Eq)]
pub enum Kind {
    Put,
    PutNew,
    Compute { recipe: RecipeKind, argument: u64 },
    Upsert { recipe: RecipeKind, argument: u64 },
    Remove,
}

/// A write of a key's history, with the state of the key behind it.
#[derive(Debug, Drop)]
pub struct Write {
    pub stamp: u64,
    /// The number of the pass that made it.
    pub caller: u32,
    /// The number of that pass's call.
    pub call: u32,
    pub kind: Kind,
    pub after: Option<Value>,
}
