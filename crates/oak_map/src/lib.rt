//! The map, whose calls try again until they have an answer.
#![tactic(auto)]

mod answers;
mod asking;
pub mod bare;
mod changing;
mod chunks;
mod finding;
mod going_on;
mod hinted;
mod in_bytes;
mod laws;
mod leaving;
mod lending;
mod map;
mod mending;
mod publishing;
mod put_loops;
mod putting;
mod settling;
mod showing;
mod try_putting;
mod viewing;
mod waiting;

pub use answers::{Busy, NoValue};
pub use in_bytes::InBytes;
pub use laws::keys_have_room;
pub use lending::{Lent, Looked, get_of, look_of, scan_of, try_get_of, try_look_of};
pub use map::{MapPass, OakMap};
pub use oak_model::Wrote;
pub use scan_cursor::{Cursor, Way};
pub use value_ops::{NoRead, Reading, ValueView};
