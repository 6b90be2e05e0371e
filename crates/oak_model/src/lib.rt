//! The map's meaning: keys, values, cells, histories, lives, scans, classes and shapes.
//!
//! The definitions that every contract above cites stand in `specs/`; the types here are what they
//! speak of.
#![tactic(auto)]

mod cells;
mod classes;
mod key_shapes;
mod keys;
mod limits;
mod memory;
mod names;
mod recipes;
mod replies;
mod shapes;
mod values;
mod writes;

pub use cells::{Answer, CellCall, CellReply, answer_call};
pub use classes::{Class, class_of};
pub use keys::{Key, cmp_keys, is_key};
pub use limits::{
    CLASS_GROWTH, CLASSES, DEFAULT_BLOCKS, DEFAULT_CHUNKS, DEFAULT_ENTRIES, DEFAULT_HEADERS,
    GREATEST_BLOCKS, GREATEST_CHUNKS, GREATEST_ENTRIES, GREATEST_HEADERS, GREATEST_KEY,
    GREATEST_NAME, GREATEST_PASSES, GREATEST_VALUE, LEAST_BLOCK, LEAST_ENTRIES, limits_in_numbers,
};
pub use memory::OutOfMemory;
pub use names::Name;
pub use recipes::{RecipeKind, apply_kind};
pub use replies::{Hint, Lack, NO_HINT, Pair, Pairs, Reply, Wrote};
pub use shapes::{BadShape, Shape, ShapeField, Usage};
pub use values::{Value, is_value};
pub use writes::{Kind, Write};
