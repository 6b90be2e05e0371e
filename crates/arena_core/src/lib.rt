//! The arena: the bits that say which blocks are taken, the bytes of the blocks, and the blocks that a pass holds.
#![tactic(auto, unfolding(crate::specs::Place::place_word, crate::specs::Place::class_in, crate::specs::Place::block_in, crate::specs::Place::length_in))]

pub mod blocks;
pub mod layout;
pub mod place;
pub mod words;

pub use blocks::{HeldBlock, HeldBlocks};
