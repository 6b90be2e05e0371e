//! The map for callers that need no proof: a pass on a map, with the map, whose calls ask for a key and a value alone.
#![tactic(auto)]

mod caller;
mod changing;
mod clearing;
mod computing;
mod ends;
mod gathering;
mod giving;
mod joining;
mod keys;
mod looking;
mod putting;
mod reading;
mod scanning;
mod showing;
mod store;
mod turns;
mod viewing;

pub use caller::Caller;
pub use clearing::NotCleared;
pub use computing::NotAdded;
pub use oak_core::SplitFault;
pub use oak_map::{InBytes, MapPass, OakMap, ValueView, Way};
pub use oak_model::{Key, Lack, OutOfMemory, RecipeKind, Shape, Wrote, is_key, is_value};
pub use reading::{Copied, Number};
pub use store::Store;
pub use turns::WornOut;
pub use value_ops::{Recipe, StepRecipe};
