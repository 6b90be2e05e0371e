//! What a pass holds of the arena: plain data for the proofs, of which no value is made.
use oak_model::Class;
use std::collections::LinkedList;

/// A block that a pass holds, with the numbers of its words, which no other pass may change.
pub struct HeldBlock {
    pub class: Class,
    pub number: u32,
    pub words: LinkedList<u64>,
}

/// The blocks that a pass holds.
pub struct HeldBlocks {
    pub held: LinkedList<HeldBlock>,
}
